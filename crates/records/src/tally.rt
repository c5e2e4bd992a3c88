// The records of a text, one after another: how many there are, and how many hold another answer than is printed for their script.
ghost use Rattle.std.specs.Prelude.{◌≡◌, ◌+◌, ◌≤◌, ◌<◌, ◌^◌, false, length};
ghost use Rattle.rules.specs.Sizes.{base};
ghost use Rattle.rules.specs.Entries.{translator_prints};
ghost use Rattle.records.specs.Records.{same_text};
ghost use Rattle.records.specs.Tally.{no_records, one_more, tallied};

use crate::{Record, record_at, same};
use answers::translated;
use rules::TEXT;

// The first that differs is counted from 1, and is 0 where none does. A broken record ends the count.
#[derive(Clone, Copy)]
pub struct Tally {
    pub records: usize,
    pub differ: usize,
    pub first: usize,
    pub broken: bool,
}

// Whether the answer is what the translating program prints for the script.
fn agrees(script: &[u8], answer: &[u8]) -> bool
    ensures { result ≡ same_text (translator_prints base script.now) answer.now }
{
    let mut out = [0u8; TEXT];
    let n = translated(script, &mut out);
    same(&out[..n], answer)
}

// With one more record, which agrees or not.
fn counted(t: Tally, agrees: bool) -> Tally
    requires { (t.differ ≤ t.records) × (t.records + 1 < 2 ^ 64) × (t.broken ≡ false) }
    ensures { result ≡ one_more t agrees }
{
    let records = t.records + 1;
    if agrees {
        return Tally { records, ..t };
    }
    if t.differ == 0 {
        return Tally {
            records,
            differ: 1,
            first: records,
            broken: false,
        };
    }
    Tally {
        records,
        differ: t.differ + 1,
        ..t
    }
}

// Replays the stored answers of a text.
pub fn replayed(text: &[u8]) -> Tally
    ensures { result ≡ tallied (length text.now) text.now 0 no_records }
{
    let mut t = Tally {
        records: 0,
        differ: 0,
        first: 0,
        broken: false,
    };
    let mut p: usize = 0;
    // records of any length, so no `for`
    while p < text.len() {
        let Some(
            Record {
                script,
                answer,
                end,
            },
        ) = record_at(text, p)
        else {
            return Tally { broken: true, ..t };
        };
        let equal = agrees(&text[script..answer], &text[answer..end]);
        t = counted(t, equal);
        p = end;
    }
    t
}
