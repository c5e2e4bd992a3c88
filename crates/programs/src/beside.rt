// The running program beside a recording: its first argument names the list, its second the recording.
ghost use Rattle.std.specs.Prelude.{IfOk};
ghost use Rattle.input.specs.Counts.{IsPrefixLen};
ghost use Rattle.programs.specs.Printed.{ReadInto, Answers};
ghost use Rattle.programs.specs.Recorded.{OfBytes, ReadBy, with_samples, AnswersBeside};

use crate::handed_on;
use answers::recorded;
use input::{Input, open_argument, or_say, read_argument};
use recordings::read_recording;
use rules::{LINES, LONGER, TEXT};
use std::fs::File;
use std::io;
use std::io::Read;

// Bytes of as many samples as the longest list takes.
const ROOM: usize = 2 * LINES;

// One byte more than the longest recording, 4,294,967,295 lines of 7: so many are never well formed.
const BYTES: u64 = 30064771066;

// From here on a state says that a line is malformed, and nothing that follows changes that.
const MALFORMED: u64 = 0x7_0000_0000_0000;

// Reads part after part, whatever the recording's size, to the state that its bytes leave.
fn read_parts(file: &mut File, samples: &mut [u8]) -> io::Result<u64>
    ensures { IfOk result (λ state. OfBytes state samples.old samples.new) }
{
    let mut part = [0u8; 65536];
    let mut state: u64 = 0;
    let mut bytes: u64 = 0;
    // a read takes as many bytes as come, so no `for`
    while bytes < BYTES {
        let n = file.read(&mut part)?;
        if n == 0 {
            return Ok(state);
        }
        state = read_recording(state, samples, &part[..n]);
        if MALFORMED <= state {
            return Ok(state);
        }
        bytes += n as u64;
    }
    Ok(state)
}

// The recording that the second argument names, and a word on standard error where it can't be read.
fn read_file(rt: &HostRuntime, samples: &mut [u8]) -> Option<u64>
    ensures { ReadBy result samples.old samples.new }
{
    let mut file = open_argument(rt, 2)?;
    or_say(rt, b"recording", read_parts(&mut file, samples))
}

// The recording, but where the list could not be read: it may be long, and nothing is printed.
fn read_beside(rt: &HostRuntime, list: Option<Input>, samples: &mut [u8]) -> Option<u64>
    ensures { ReadBy result samples.old samples.new }
{
    if list.is_none() {
        return None;
    }
    read_file(rt, samples)
}

// What is printed beside a recording that left this state and these samples, by what was read of the list.
fn beside_samples(
    list: &[u8; LONGER],
    read: Option<Input>,
    state: u64,
    samples: &[u8],
    out: &mut [u8; TEXT],
) -> usize
    requires { ReadInto read list.now }
    ensures answers { Answers (with_samples state samples.now) read list.now out.old result out.new }
    ensures prefix_len { IsPrefixLen result out.new }
{
    match read {
        None => 0,
        Some(read) => recorded(handed_on(read, list), state, samples, out),
    }
}

// What the running program prints beside a recording, by what was read of the list and of the recording: of a full buffer that is 17, whatever follows.
fn answered(
    list: &[u8; LONGER],
    read: Option<Input>,
    recording: Option<u64>,
    samples: &[u8; ROOM],
    out: &mut [u8; TEXT],
) -> usize
    requires { ReadInto read list.now }
    ensures answers_beside { AnswersBeside read list.now recording samples.now out.old result out.new }
    ensures prefix_len { IsPrefixLen result out.new }
{
    match recording {
        None => 0,
        Some(state) => beside_samples(list, read, state, samples, out),
    }
}

pub fn respond_beside(rt: &HostRuntime) -> io::Result<()> {
    let mut list = [0u8; LONGER];
    let read = read_argument(rt, 1, &mut list);
    let mut samples = [0u8; ROOM];
    let recording = read_beside(rt, read, &mut samples);
    let mut out = [0u8; TEXT];
    let n = answered(&list, read, recording, &samples, &mut out);
    rt.write_all(&out[..n])
}
