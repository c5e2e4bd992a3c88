// A run with a recording beside the list: the refusals in their order, and then the work.
ghost use Rattle.std.specs.Prelude.{◌≡◌, ◌<◌, ◌≤◌, length};
ghost use Rattle.rules.specs.Sizes.{base};
ghost use Rattle.rules.specs.Entries.{bytes4, over_front, recorded_entry};
ghost use Rattle.text.specs.Table.{RowsFor};
ghost use Rattle.machine.specs.Recorded.{lacks_of, list_left, answered, LeftBy};

use crate::lent::zero;
use crate::obeying::{fill, obey};
use crate::survey::{lacking, scan};
use recordings::states::Reader;
use rules::{LINES, Refusal};
use text::refusal::RefusedAt;
use text::whole::check_list;

// A list of at most so many bytes has at most so many lines: for a short list a short table is cleared.
const SHORT: usize = 192;

const SHORT_LINES: usize = 64;

// Whether lent memory is too short: cells, output, samples or left. By their lengths, so that the clause is one of numbers, as the rules'.
fn lacks(c: usize, o: usize, m: usize, l: usize, size: usize, loads: usize, takes: usize) -> bool
    ensures { result ≡ lacks_of c o m l size loads takes }
{
    c / 2 < size || o / 7 < loads || m / 2 < takes || l < 4
}

// The number n in four bytes, high first.
fn put_left(left: &mut [u8], n: u32)
    requires { 4 ≤ length left.old }
    ensures { left.new ≡ over_front (bytes4 n) left.old }
{
    left[..4].copy_from_slice(&n.to_be_bytes());
}

// Over a table with a row for each line: 1, 2, 20, 24, 23, 17, and then the work. It answers how many bytes were written.
// The slices are those of the C interface, each lent by itself.
fn run_over(
    list: &[u8],
    table: &mut [u64],
    reader: Reader,
    samples: &[u8],
    cells: &mut [u8],
    out: &mut [u8],
    left: &mut [u8],
) -> Result<usize, RefusedAt>
    requires { RowsFor list.now table.old }
    ensures { LeftBy (list_left base list.now samples.now reader.column reader.line) (answered result) cells out left }
{
    let read = check_list(list, table)?;
    let asked = scan(table, read.lines, read.size)?;
    let recorded = reader.line as usize;
    if reader.column != 0 {
        return Err(RefusedAt::new(Refusal::RecordingMalformed, recorded));
    }
    if recorded < asked.takes {
        let line = lacking(table, read.lines, recorded);
        return Err(RefusedAt::new(Refusal::SamplesTooFew, line));
    }
    if lacks(
        cells.len(),
        out.len(),
        samples.len(),
        left.len(),
        read.size,
        asked.loads,
        asked.takes,
    ) {
        return Err(RefusedAt::new(Refusal::MemoryTooShort, 0));
    }
    zero(cells, 2 * read.size);
    fill(table, read.lines, asked.takes, samples);
    let written = obey(table, read.lines, cells, out);
    put_left(left, (recorded - asked.takes) as u32);
    Ok(written)
}

// 29, and the rest over a table that is long enough. The slices are those of the C interface, each lent by itself.
fn run_beside(
    list: &[u8],
    state: u64,
    samples: &[u8],
    cells: &mut [u8],
    out: &mut [u8],
    left: &mut [u8],
) -> Result<usize, RefusedAt>
    ensures { LeftBy (recorded_entry base list.now state samples.now) (answered result) cells out left }
{
    let Some(reader) = Reader::of_state(state) else {
        return Err(RefusedAt::new(Refusal::NotSound, 0));
    };
    if list.len() <= SHORT {
        let mut short = [0u64; SHORT_LINES];
        return run_over(list, &mut short, reader, samples, cells, out, left);
    }
    let mut table = [0u64; LINES];
    run_over(list, &mut table, reader, samples, cells, out, left)
}

// Runs the list with the recording that was read to this state, its samples in lent memory. Left gets the number of samples left over,
// four bytes, high first. The answer is the number of bytes written; or, on a refusal, its number and its line, and then all lent
// memory is as it was.
#[unsafe(no_mangle)]
pub extern "C" fn run_recorded(
    list: &[u8],
    state: u64,
    samples: &[u8],
    cells: &mut [u8],
    out: &mut [u8],
    left: &mut [u8],
) -> u64
    ensures { LeftBy (recorded_entry base list.now state samples.now) result cells out left }
{
    match run_beside(list, state, samples, cells, out, left) {
        Ok(written) => written as u64,
        Err(e) => u64::from(e),
    }
}
