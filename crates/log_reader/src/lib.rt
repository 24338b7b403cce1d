// A reader that walks a lent log of 544-byte records. A place counts records: record 0 stands at place 0, and the bytes of the record at a place are the
// 544 from place * 544 on. Any number is a place; one past the end answers the end.
#![tactic(auto)]

ghost use Rattle.std.specs.Prelude.{◌≡◌};
ghost use Rattle.log_reader.specs.Reader.{stood_at, reader_of, step_of};

use rules::{Entry, LOG_RECORD};

// The reader that document 01 asks for (docs/DECISIONS.md, "The form for each place"): a lent log and a place, and functions that go over them.
#[derive(Clone, Copy)]
pub struct LogReader<'a> {
    pub log: &'a [u8],
    pub place: usize,
}

// What stands at a place: a record, with what it says; a tail that is too short for one; or the end.
#[derive(Clone, Copy)]
pub enum Found {
    Record(Entry),
    Short,
    End,
}

// What stood at a place, and the place after it.
#[derive(Clone, Copy)]
pub struct Stood {
    pub found: Found,
    pub place: usize,
}

// What stood at the reader's place, and the reader moved on.
#[derive(Clone, Copy)]
pub struct Step<'a> {
    pub found: Found,
    pub reader: LogReader<'a>,
}

// The work: what stands at a place of a log.
#[tactic(auto, unfolding(crate::specs::Reader::stood_at))]
pub fn stood_at(log: &[u8], place: usize) -> Stood
    ensures { result ≡ stood_at log.now place }
{
    let count = log.len() / LOG_RECORD;
    if place < count {
        let start = place * LOG_RECORD;
        let entry = log_record::decode(&log[start..start + LOG_RECORD]);
        Stood {
            found: Found::Record(entry),
            place: place + 1,
        }
    } else if place == count && log.len() % LOG_RECORD != 0 {
        Stood {
            found: Found::Short,
            place: place + 1,
        }
    } else {
        Stood {
            found: Found::End,
            place,
        }
    }
}

pub fn new<'a>(log: &'a [u8]) -> LogReader<'a>
    ensures { result ≡ reader_of log.entry }
{
    LogReader { log, place: 0 }
}

// What stands at the reader's place, and the reader moved past it.
pub fn next<'a>(r: LogReader<'a>) -> Step<'a>
    ensures { result ≡ step_of r.entry }
{
    let stood = stood_at(r.log, r.place);
    Step {
        found: stood.found,
        reader: LogReader {
            log: r.log,
            place: stood.place,
        },
    }
}

// A reader made at a place, and moved once: with plain parameters, so that whoever calls this holds no reader.
pub fn read_at(log: &[u8], place: usize) -> Stood
    ensures { result ≡ stood_at log.now place }
{
    let step = next(LogReader { log, place });
    Stood {
        found: step.found,
        place: step.reader.place,
    }
}
