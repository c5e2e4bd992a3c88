// Which step a frame of a script is, by its opcode.
#![tactic(auto)]

ghost use Rattle.std.specs.Prelude.{◌≡◌, length};
ghost use Rattle.rules.specs.Sizes.{SLOTS};
ghost use Rattle.slots.specs.Spots.{placement_of};
ghost use Rattle.frames.specs.Needing.{StandsWith};
ghost use Rattle.dispatch.specs.Dispatched.{StepsOn, RefusedKeeps};

use frames::steps::{Adds, Script, Source};
use frames::{allots, cells, named, needing, owned, scoped};
use handles::remembered::NeedNumber;
use rules::SLOTS;
use rules::refusal::Refusal;
use scopes::HandleNumber;
use slots::Place;
use text::lines::Frame;

// The step of a frame: an arm for each, so it is longer than 40 lines. Slots go by `place`; `drained` gets the addresses of a drain.
pub fn step(
    script: &mut Script,
    drained: &mut [u16; SLOTS],
    f: Frame,
    place: Place,
) -> Result<Adds, Refusal>
    requires { StandsWith script.old }
    ensures steps_on { StepsOn (placement_of place) f script.old result script.new drained.new }
    ensures drained_len { length drained.new ≡ SLOTS }
    ensures refused_keeps { RefusedKeeps drained.old result drained.new }
{
    let h = HandleNumber(f.a);
    let k = NeedNumber(f.a);
    let scopes = &mut script.scopes;
    let handles = &mut script.handles;
    let needs = &mut script.needs;
    match f.opcode {
        0x01 => scoped::child(scopes),
        0x02 => scoped::pop(scopes, f.a),
        0x03 => scoped::dangle(scopes, f.a),
        0x04 => scoped::restore(scopes, f.a),
        0x05 => scoped::pop_last(scopes),
        0x06 => allots::alloc(scopes, handles, place),
        0x07 => allots::alloc_in(scopes, handles, f.a, place),
        0x08 => allots::linear(scopes, handles, f.a, place),
        0x09 => named::define(scopes, handles, f.a, HandleNumber(f.b)),
        0x0a => named::get(scopes, f.a),
        0x0b => named::take(scopes, f.a),
        0x0c => owned::free_beside(scopes, handles, needs, h, true),
        0x0d => owned::free_beside(scopes, handles, needs, h, false),
        0x0e => owned::forget_beside(handles, needs, h),
        0x0f => {
            let count = scopes.drain(drained);
            Ok(Adds::Drained(count))
        }
        0x10 => cells::write(scopes, handles, h, Source::Constant(f.b)),
        0x11 => cells::read(scopes, handles, h),
        0x12 => cells::read_name(scopes, handles, f.a),
        0x14 => cells::write(scopes, handles, h, Source::NextSample),
        0x20 => needing::defer(scopes, needs, f.a),
        0x21 => needing::assigned(handles, needs, h),
        0x22 => needing::ignore(needs),
        0x23 => owned::allocate(script, k, place),
        0x24 => needing::output(script, k),
        0x25 => owned::free_need(script, k),
        _ => Err(Refusal::Malformed),
    }
}
