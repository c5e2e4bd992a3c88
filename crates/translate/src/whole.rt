// The frames of a script, one after another, over tables of their own; the list is written on a page.
ghost use Rattle.std.specs.Prelude.{◌≡◌, ◌+◌, ◌≤◌, ◌<◌, length, Ok};
ghost use Rattle.std.specs.Int.{from_bool};
ghost use Rattle.rules.specs.Sizes.{base, HANDLES, SLOTS, LINES, PAGE};
ghost use Rattle.rules.specs.Frames.{stores};
ghost use Rattle.rules.specs.Text.{line_text, title};
ghost use Rattle.rules.specs.Entries.{translated};
ghost use Rattle.rules.specs.Refusals.{number_of};
ghost use Rattle.slots.specs.Spots.{place_of};
ghost use Rattle.text.specs.Refused.{bad};
ghost use Rattle.text.specs.Titles.{Titles, place_by};
ghost use Rattle.text.specs.Whole.{script_left};
ghost use Rattle.frames.specs.Steps.{Few, line_of, source_of};
ghost use Rattle.translate.specs.Whole.{lines_text, Puts, stopped_at, longest_of, guide_at, Ends, EndsOn, EndsWalk, EndsShown};

use dispatch::step;
use frames::steps::{Adds, Script, Source};
use rules::{HANDLES, LINES, Refusal, SLOTS};
use slots::{Place, SlotAddress};
use text::lines::frame_at;
use text::refusal::RefusedAt;
use text::table::unpack;
use text::whole::{check_from, has_title};
use text::writing::{put_drain, put_line, put_size};

// How many bytes of the page the list takes, and its size.
#[derive(Clone, Copy)]
pub struct Listed {
    pub bytes: usize,
    pub size: usize,
}

// Where slots go: at every line by one place; or line by line where a list shows them, of which these are the rows.
#[derive(Clone, Copy)]
pub enum Guide<'a> {
    Everywhere(Place),
    Shown(&'a [u64]),
}

impl Guide<'_> {
    // Where the slots of line i go: the first number of its row is the address that a list shows; past the rows there is no slot.
    fn place_at(self, i: usize) -> Place
        ensures { place_of result ≡ guide_at self.entry i }
    {
        match self {
            Guide::Everywhere(place) => place,
            Guide::Shown(rows) => match rows.get(i) {
                Some(row) => Place::ExactlyAt(SlotAddress(unpack(*row).a)),
                None => Place::ExactlyAt(SlotAddress(0xffff)),
            },
        }
    }
}

// A write's line at w of the page: 10 shows its value, 14 the address alone.
#[tactic(auto, using(crate::proofs::Written::line_long, crate::proofs::Written::stored_text, crate::proofs::Written::sampled_text))]
fn put_store(page: &mut [u8], w: usize, a: SlotAddress, x: Source) -> usize
    requires { w + length (line_text (stores a.0 (source_of x))) ≤ length page.old }
    ensures value { result ≡ w + length (line_text (stores a.0 (source_of x))) }
    ensures puts { Puts page w (line_text (stores a.0 (source_of x))) }
{
    match x {
        Source::Constant(v) => put_line(page, w, 0x10, &[a.0, v]),
        Source::NextSample => put_line(page, w, 0x14, &[a.0]),
    }
}

// The line of a frame at w of the page.
#[tactic(auto, using(crate::proofs::Written::line_long, crate::proofs::Written::loaded_text))]
fn put_adds(page: &mut [u8], w: usize, opcode: u8, adds: Adds, drained: &[u16; SLOTS]) -> usize
    requires { Few (Ok adds) × (w + length (line_text (line_of opcode adds drained.now)) ≤ length page.old) }
    ensures value { result ≡ w + length (line_text (line_of opcode adds drained.now)) }
    ensures puts { Puts page w (line_text (line_of opcode adds drained.now)) }
{
    match adds {
        Adds::Nothing => put_line(page, w, opcode, &[]),
        Adds::Slot(a) => put_line(page, w, opcode, &[a.0]),
        Adds::NoSlot => put_line(page, w, opcode, &[0xffff]),
        Adds::Number(n) => put_line(page, w, opcode, &[n]),
        Adds::Store(a, x) => put_store(page, w, a, x),
        Adds::Load(a) => put_line(page, w, opcode, &[a.0]),
        Adds::Drained(n) => put_drain(page, w, &drained[..n]),
    }
}

// Where slots go in a script with a title, and in one without.
fn place_by(titled: bool) -> Place
    ensures { place_of result ≡ place_by (from_bool titled) }
{
    if titled { Place::Lowest } else { Place::ByHead }
}

// The title's line, where there is one, at the start of the page. It answers where the next line goes.
fn put_title(page: &mut [u8], titled: bool) -> usize
    requires { 7 ≤ length page.old }
    ensures value { result ≡ length (lines_text (title (place_by (from_bool titled)))) }
    ensures puts { Puts page 0 (lines_text (title (place_by (from_bool titled)))) }
{
    if titled {
        put_line(page, 0, 0xf0, &[2])
    } else {
        0
    }
}

// A step is refused at line i. A line behind it that can't be read comes before that: the next one begins at p.
fn stopped(script: &[u8], p: usize, refusal: Refusal, i: usize) -> RefusedAt
    requires { (p ≤ length script.now) × (i < LINES) }
    ensures { bad (number_of result.refusal) result.line ≡ stopped_at (number_of refusal) i (script_left base script.now p (i + 1)) }
{
    match check_from(script, p, i + 1) {
        Err(e) => e,
        Ok(_) => RefusedAt::new(refusal, i),
    }
}

// No list of so many frames and handles has more bytes.
fn longest(frames: usize, handed: usize) -> usize
    requires { (frames ≤ LINES) × (handed ≤ HANDLES) }
    ensures { result ≡ longest_of frames handed }
{
    11 * frames + 4 * handed + 7
}

// The title goes to the page; then every line behind it is read and its step done, then the size line. So a line is read once, and what the
// steps did is lost where a later line can't be read. A page that the list may outgrow is refused by 17.
fn steps_behind(
    script: &[u8],
    titled: bool,
    guide: Guide,
    page: &mut [u8],
) -> Result<Listed, RefusedAt>
    requires { Titles script.now (from_bool titled) × (longest_of 1 0 ≤ length page.old) }
    ensures { EndsWalk guide.entry script.now (from_bool titled) result page.new }
{
    let mut state = Script::blank();
    state.scopes.begin();
    let mut drained = [0u16; SLOTS];
    let mut i = usize::from(titled);
    let mut p = 7 * i;
    let mut w = put_title(page, titled);
    // a walk over lines of any length, so no `for`
    while p < script.len() {
        if i == LINES {
            return Err(RefusedAt::new(Refusal::LineTooMany, i));
        }
        let t = frame_at(script, p);
        let Some(f) = t.frame else {
            return Err(RefusedAt::new(Refusal::Malformed, i));
        };
        let adds = match step(&mut state, &mut drained, f, guide.place_at(i)) {
            Ok(adds) => adds,
            Err(e) => return Err(stopped(script, t.next, e, i)),
        };
        if page.len() < longest(i + 1, state.handles.handed) {
            return Err(RefusedAt::new(Refusal::MemoryTooShort, 0));
        }
        w = put_adds(page, w, f.opcode, adds, &drained);
        p = t.next;
        i += 1;
    }
    let size = state.scopes.size;
    let bytes = put_size(page, w, size as u16);
    Ok(Listed { bytes, size })
}

// A script's title, and what stands behind it, by its edition; 17 where the list may outgrow the page. No list outgrows one of PAGE bytes.
pub fn steps_on(script: &[u8], page: &mut [u8]) -> Result<Listed, RefusedAt>
    requires { longest_of 1 0 ≤ length page.old }
    ensures { EndsOn (translated base script.now) result page.new }
{
    let titled = has_title(script);
    steps_behind(script, titled, Guide::Everywhere(place_by(titled)), page)
}

// The same on a page that no list outgrows.
pub fn steps(script: &[u8], page: &mut [u8]) -> Result<Listed, RefusedAt>
    requires { length page.old ≡ PAGE }
    ensures { Ends (translated base script.now) result page.new }
{
    steps_on(script, page)
}

// The same, but that slots go where a list shows them, of which these are the rows.
pub fn steps_shown(script: &[u8], rows: &[u64], page: &mut [u8]) -> Result<Listed, RefusedAt>
    requires { length page.old ≡ PAGE }
    ensures { EndsShown rows.now script.now result page.new }
{
    steps_behind(script, has_title(script), Guide::Shown(rows), page)
}
