// Recordings, read in parts of any length: what is known between two parts is one number, and the samples are kept in lent memory, as
// far as there is room.
// Where `as` takes a number to another type, it fits, and the proof says so: `From` has no such step, and `try_from` would bring an error that can't be.
#![tactic(auto)]

ghost use Rattle.rules.specs.Entries.{read_entry};
ghost use Rattle.recordings.specs.Reading.{LeavesSamples};

use parts::read_part;
use rules::Refusal;
use states::Reader;
use text::refusal::RefusedAt;

pub mod states; // a reader, and the number that stands for it
pub mod bytes; // one byte
pub mod lines; // a whole line at once
pub mod runs; // whole lines, one after the other
pub mod parts; // the bytes of a part

// Reads a part of a recording. The state is 0 before the first part, and then what the part before answered. A number that is no
// reader's state is refused by 29, and lent memory stays.
#[unsafe(no_mangle)]
pub extern "C" fn read_recording(state: u64, samples: &mut [u8], part: &[u8]) -> u64
    ensures { LeavesSamples (read_entry state samples.old part.now) result samples.new }
{
    match Reader::of_state(state) {
        Some(reader) => read_part(reader, samples, part).closed(),
        None => u64::from(RefusedAt::new(Refusal::NotSound, 0)),
    }
}
