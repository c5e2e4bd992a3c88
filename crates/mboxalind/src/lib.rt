// What a host links: the exports of the archive libmboxalind.a, each a library's function with the library's clauses. host/archive writes the
// archive, host/mboxalind.h says what C calls.
#![tactic(auto)]

ghost use Rattle.std.specs.Prelude.{◌≡◌};
ghost use Rattle.rules.specs.Sizes.{base};
ghost use Rattle.rules.specs.Entries.{read_entry, recorded_entry, run_entry, translate_entry};
ghost use Rattle.rules.specs.Suppliers.{verdict, verdict_answer};
ghost use Rattle.recordings.specs.Reading.{LeavesSamples};
ghost use Rattle.machine.specs.Machine.{LeavesFrame};
ghost use Rattle.machine.specs.Recorded.{LeftBy};
ghost use Rattle.translate.specs.Whole.{LeavesList};

// Translates the script.
#[unsafe(no_mangle)]
pub extern "C" fn translate(script: &[u8], list: &mut [u8]) -> u64
    ensures { LeavesList (translate_entry base script.now list.old) result list.new }
{
    translate::translate(script, list)
}

// Runs the list with no recording.
#[unsafe(no_mangle)]
pub extern "C" fn run(list: &[u8], cells: &mut [u8], out: &mut [u8]) -> u64
    ensures { LeavesFrame (run_entry base list.now cells.old out.old) result cells.new out.new }
{
    machine::run(list, cells, out)
}

// Reads a part of a recording.
#[unsafe(no_mangle)]
pub extern "C" fn read_recording(state: u64, samples: &mut [u8], part: &[u8]) -> u64
    ensures { LeavesSamples (read_entry state samples.old part.now) result samples.new }
{
    recordings::read_recording(state, samples, part)
}

// Runs the list with the recording that was read to this state.
#[unsafe(no_mangle)]
pub extern "C" fn run_recorded(
    list: &[u8],
    state: u64,
    samples: &[u8],
    cells: &mut [u8],
    out: &mut [u8],
    left: &mut [u8],
) -> u64
    ensures { LeftBy (recorded_entry base list.now state samples.now) result cells out left }
{
    machine::recorded::run_recorded(list, state, samples, cells, out, left)
}

// Says whether the list agrees with the script.
#[unsafe(no_mangle)]
pub extern "C" fn agrees(script: &[u8], list: &[u8]) -> u64
    ensures { result ≡ verdict_answer (verdict base script.now list.now) }
{
    supplier::agrees(script, list)
}
