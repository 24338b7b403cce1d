// A log counted part by part: each record is played as the replay plays it (crates/replay_step), and raises one count of the report (crates/report_tally).
#![tactic(auto)]

ghost use Rattle.std.specs.Prelude.{◌≡◌, length};
ghost use Rattle.rules.specs.Numbers.{answer_room};
ghost use Rattle.rules.specs.Record.{whole_of};
ghost use Rattle.report_tally.specs.Tally.{tally_of};
ghost use Rattle.report_log.specs.Parts.{RecordTallied, PartTallied};

use report_tally::Counting;
use rules::{Cabinet, LOG_RECORD};

// What is counted of a log, and the cabinet after what was played of it.
#[derive(Clone, Copy)]
pub struct Going {
    pub counting: Counting,
    pub cabinet: Cabinet,
}

impl Going {
    // The answer buffer is lent by the caller, so that it is made once for a log, and may hold anything.
    fn count_record(&mut self, area: &mut [u8], answer: &mut [u8], record: &[u8])
        requires { length answer.old ≡ answer_room }
        ensures { RecordTallied (tally_of self.old.counting) (whole_of self.old.cabinet area.old) «record».now area.new self.new }
    {
        let entry = log_record::decode(record);
        let outcome = replay_step::play(self.cabinet, area, answer, entry, record);
        let reply = outcome.reply;
        self.cabinet = outcome.cabinet;
        self.counting.count(entry, reply);
    }

    // The whole records of a part of a log, one by one; a tail is left to the caller.
    pub fn count_part(&mut self, area: &mut [u8], answer: &mut [u8], part: &[u8])
        requires { length answer.old ≡ answer_room }
        ensures { PartTallied (tally_of self.old.counting) (whole_of self.old.cabinet area.old) part.now area.new self.new }
    {
        for record in part.chunks_exact(LOG_RECORD) {
            self.count_record(area, answer, record);
        }
    }
}
