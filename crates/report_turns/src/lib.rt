// What a program that reports on logs does in each of its turns (crates/program_logs): a log is counted part by part; at its end the report with it is kept, or
// the log is refused and the report that was kept stays. Of a log that cannot be read to its end nothing is kept.
#![tactic(auto)]

ghost use Rattle.std.specs.Prelude.{◌≡◌, [], Ok, take};
ghost use Rattle.rules.specs.Record.{fresh_cabinet};
ghost use Rattle.program_logs.specs.declared.Turn.TheVariants.{End};
ghost use Rattle.report_tally.specs.Tally.{page_report};
ghost use Rattle.report_turns.specs.Turned.{state_of, begins, turned, refuses, Leaves};

use program_logs::{Logs, PART, Turn};
use report_log::Going;
use report_tally::{Counting, LogTooMany, Report};
use rules::{ANSWER_ROOM, AREA_SIZE};

// The report that is kept; what is counted of the log, with the cabinet that its records have led to and its staging area; and the answers' buffer, which may hold
// anything. A program makes this once.
#[derive(Clone, Copy)]
pub struct Reporting {
    pub kept: Report,
    pub going: Going,
    pub area: [u8; AREA_SIZE],
    pub answer: [u8; ANSWER_ROOM],
}

// A log begins with the report that is kept, and two fresh modules.
fn beginning(report: Report) -> Going
    ensures { result ≡ record { counting = record { report = report; taken = Ok tt }; cabinet = fresh_cabinet } }
{
    Going {
        counting: Counting {
            report,
            taken: Ok(()),
        },
        cabinet: cabinet_record::fresh(),
    }
}

impl Reporting {
    // From a report on, before the first log.
    pub fn on(report: Report) -> Reporting
        ensures { state_of result ≡ begins (page_report report) }
    {
        Reporting {
            kept: report,
            going: beginning(report),
            area: [0u8; AREA_SIZE],
            answer: [0u8; ANSWER_ROOM],
        }
    }

    // A log begins, with an area of zeros too.
    fn begin(&mut self)
        ensures { state_of self.new ≡ begins (page_report self.old.kept) }
    {
        self.going = beginning(self.kept);
        self.area = [0u8; AREA_SIZE];
    }

    // At its end a log is taken, or refused.
    fn end(&mut self, short: bool) -> Result<(), LogTooMany>
        ensures { Leaves (turned (End short) (state_of self.old) []) (refuses (End short) (state_of self.old)) self.new result }
    {
        let mut counting = self.going.counting;
        counting.count_tail(short);
        counting.taken?;
        self.kept = counting.report;
        Ok(())
    }

    // A turn, with the part of the log that is in the buffer; an error refuses the log.
    pub fn turn(&mut self, turn: Turn, part: &[u8]) -> Result<(), LogTooMany>
        ensures { Leaves (turned turn (state_of self.old) part.now) (refuses turn (state_of self.old)) self.new result }
    {
        match turn {
            Turn::Beginning => {
                self.begin();
                Ok(())
            }
            Turn::Part => {
                self.going
                    .count_part(&mut self.area, &mut self.answer, part);
                Ok(())
            }
            Turn::End { short } => self.end(short),
            Turn::Unreadable | Turn::Nothing => Ok(()),
        }
    }

    // The turn that a program is in, with the part that fills the front of its buffer; an error refuses the log.
    pub fn turn_in(&mut self, logs: Logs, buf: &[u8; PART]) -> Result<(), LogTooMany>
        ensures { Leaves (turned logs.turn (state_of self.old) (take logs.have buf.now)) (refuses logs.turn (state_of self.old)) self.new result }
    {
        self.turn(logs.turn, logs.part(buf))
    }
}
