// One record of a log: it is played on the cabinet (crates/replay_step), and its line is written into a lent buffer.
#![tactic(auto)]

ghost use Rattle.std.specs.Prelude.{◌≡◌, ◌+◌, ◌≤◌, length};
ghost use Rattle.rules.specs.Numbers.{answer_room};
ghost use Rattle.text.specs.Wrote.{WroteWithin, line_room};
ghost use Rattle.rules.specs.Record.{whole_of};
ghost use Rattle.rules.specs.Log.{entry_of};
ghost use Rattle.replay_play.specs.Replayed.{reply_line, RecordReplayed};

use cabinet::Outcome;
use rules::{Cabinet, Entry, Reply};

// The place after what was written, and the record after what was played.
#[derive(Clone, Copy)]
pub struct Played {
    pub at: usize,
    pub cabinet: Cabinet,
}

// The line of an entry, by what its play replied.
fn put_entry(out: &mut [u8], at: usize, number: u64, entry: Entry, reply: Reply) -> usize
    requires { at + line_room ≤ length out.old }
    ensures { WroteWithin line_room out.old at (reply_line number entry reply) out.new result }
{
    match entry {
        Entry::Call { function, .. } => {
            replay_call_line::put_call(out, at, number, function as u64, reply)
        }
        Entry::Tick => text::put_field(out, at, number, b" tick\n"),
        Entry::Power { .. } => text::put_field(out, at, number, b" power\n"),
        Entry::Health { .. } => text::put_field(out, at, number, b" health\n"),
        Entry::Bad => text::put_field(out, at, number, b" bad\n"),
    }
}

// What a record says is played on the cabinet, and its line is written. The answer buffer may hold anything.
pub fn play_entry(
    out: &mut [u8],
    at: usize,
    number: u64,
    c: Cabinet,
    area: &mut [u8],
    answer: &mut [u8],
    entry: Entry,
    bytes: &[u8],
) -> Played
    requires line_room_in_bounds { at + line_room ≤ length out.old }
    requires answer_len { length answer.old ≡ answer_room }
    requires value { entry ≡ entry_of bytes.now }
    ensures { RecordReplayed number (whole_of c area.old) bytes.now out.old at out.new area.new result }
{
    let Outcome { cabinet, reply } = replay_step::play(c, area, answer, entry, bytes);
    let next = put_entry(out, at, number, entry, reply);
    Played { at: next, cabinet }
}
