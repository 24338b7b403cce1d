// One record of a log, played on the cabinet: the record after it, and the reply. No text is written here, so that whatever goes through a log plays it by this.
#![tactic(auto)]

ghost use Rattle.std.specs.Prelude.{◌≡◌, length};
ghost use Rattle.rules.specs.Numbers.{answer_room};
ghost use Rattle.rules.specs.Record.{whole_of};
ghost use Rattle.rules.specs.Log.{entry_of};
ghost use Rattle.replay_step.specs.Stepped.{Stepped};

use cabinet::Outcome;
use rules::{Cabinet, Entry, Reply};

// The answer buffer is lent by the caller, so that it is made once for a log, and may hold anything. A bad record plays nothing.
pub fn play(c: Cabinet, area: &mut [u8], answer: &mut [u8], entry: Entry, bytes: &[u8]) -> Outcome
    requires answer_len { length answer.old ≡ answer_room }
    requires value { entry ≡ entry_of bytes.now }
    ensures { Stepped (whole_of c area.old) bytes.now area.new result }
{
    match entry {
        Entry::Call {
            named,
            revision,
            function,
            length,
            ..
        } => {
            let request = &bytes[8..8 + length as usize];
            cabinet::call(
                c,
                area,
                named as u64,
                revision as u64,
                function as u64,
                request,
                answer,
            )
        }
        Entry::Tick => cabinet::tick(c, area),
        Entry::Power { named } => cabinet::power(c, area, named as u64),
        Entry::Health { named, reading } => cabinet::reading(c, area, named as u64, reading),
        Entry::Bad => Outcome {
            cabinet: c,
            reply: Reply {
                verdict: Ok(()),
                length: 0,
            },
        },
    }
}
