// A report while a log is counted: each record raises one count. Where a count would pass the largest, it stays, and from then on nothing more is counted.
#![tactic(auto)]

ghost use Rattle.std.specs.Prelude.{◌≡◌, ◌+◌, ◌≤◌, ◌<◌, Ok, Err};
ghost use Rattle.std.specs.Prelude.{if◌then◌else◌};
ghost use Rattle.rules.specs.Tests.{◌≤?◌};
ghost use Rattle.rules.specs.Report.{largest_count};
ghost use Rattle.report_tally.specs.Tally.{tally_with, tally_of, tallied, tallied_tail, counted_by, HasCell, raised_count, room_for};

use rules::{Counts, Entry, LARGEST_COUNT, Reply};

// A report: a row for each host with a count for each status, and the counts beside them.
#[derive(Clone, Copy, Default)]
pub struct Report {
    pub grid: [[u32; 12]; 4],
    pub counts: Counts,
}

// Why a log is refused: a count would pass the largest.
#[derive(Clone, Copy, PartialEq, Eq)]
pub struct LogTooMany;

// The report with what was counted of a log, and whether it is taken so far.
#[derive(Clone, Copy)]
pub struct Counting {
    pub report: Report,
    pub taken: Result<(), LogTooMany>,
}

// One more, where there is room.
fn raise(count: &mut u32) -> Result<(), LogTooMany>
    ensures raised { count.new ≡ raised_count count.old }
    ensures taken { result ≡ room_for count.old }
{
    if LARGEST_COUNT <= *count {
        return Err(LogTooMany);
    }
    *count += 1;
    Ok(())
}

impl Report {
    // The count that an entry and its play's reply raise: a call's is the cell of its host and of the status that it was answered.
    fn count(&mut self, entry: Entry, reply: Reply) -> Result<(), LogTooMany>
        requires { HasCell entry reply }
        ensures { tally_with self.new result ≡ tallied (counted_by entry reply) (tally_with self.old (Ok tt)) }
    {
        match entry {
            Entry::Call { function: 0, .. } => raise(&mut self.counts.masks),
            Entry::Call { host, .. } => {
                let row = host as usize - 1;
                let column = replay_call_line::printed_status(reply.verdict) as usize;
                raise(&mut self.grid[row][column])
            }
            Entry::Tick => raise(&mut self.counts.ticks),
            Entry::Power { .. } => raise(&mut self.counts.powers),
            Entry::Health { .. } => raise(&mut self.counts.readings),
            Entry::Bad => raise(&mut self.counts.bads),
        }
    }
}

impl Counting {
    // A record's count, by its entry and by what its play replied.
    pub fn count(&mut self, entry: Entry, reply: Reply)
        requires { HasCell entry reply }
        ensures { tally_of self.new ≡ tallied (counted_by entry reply) (tally_of self.old) }
    {
        if self.taken.is_ok() {
            self.taken = self.report.count(entry, reply);
        }
    }

    // A short tail's count, at the end of a log.
    pub fn count_tail(&mut self, short: bool)
        ensures { tally_of self.new ≡ tallied_tail short (tally_of self.old) }
    {
        if short && self.taken.is_ok() {
            self.taken = raise(&mut self.report.counts.shorts);
        }
    }
}
