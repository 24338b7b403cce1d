// A part of a log on the cabinet, with the fuller trace's line for each record: the answer's bytes in hex. It promises how much it writes and no text; its lines
// are compared with an independent program's.
#![tactic(auto)]

ghost use Rattle.std.specs.Prelude.{◌+◌, ◌*◌, ◌/◌, ◌^◌, ◌≤◌, ◌<◌, length};
ghost use Rattle.rules.specs.Log.{record_size};

use cabinet::Outcome;
use replay_play::Played;
use rules::{ANSWER_ROOM, Cabinet, Entry, LOG_RECORD};

// A record is played on the cabinet, and its line is written. The answer buffer comes as zeros.
fn answer_record(
    out: &mut [u8],
    at: usize,
    number: u64,
    c: Cabinet,
    area: &mut [u8],
    record: &[u8],
) -> Played
    requires { at + 296 ≤ length out.old }
    ensures { result.at ≤ at + 296 }
{
    let entry = log_record::decode(record);
    let mut answer = [0u8; ANSWER_ROOM];
    let Outcome { cabinet, reply } = replay_step::play(c, area, &mut answer, entry, record);
    let at = match entry {
        Entry::Call { .. } => {
            let answered = answer.get(..reply.length).unwrap_or_default();
            answers_call_line::put_answer(out, at, number, answered)
        }
        Entry::Tick => text::put_field(out, at, number, b" tick\n"),
        Entry::Power { .. } => text::put_field(out, at, number, b" power\n"),
        Entry::Health { .. } => text::put_field(out, at, number, b" health\n"),
        Entry::Bad => text::put_field(out, at, number, b" bad\n"),
    };
    Played { at, cabinet }
}

// The whole records of a part of a log are played one by one, the first of which has the number given; a tail is left to the caller.
pub fn put_lines(out: &mut [u8], part: &[u8], number: u64, c: Cabinet, area: &mut [u8]) -> Played
    requires room { length part.now / record_size * 296 ≤ length out.old }
    requires part_bound { number + length part.now / record_size < 2 ^ 64 }
    ensures { result.at ≤ length part.now / record_size * 296 }
{
    let mut played = Played { at: 0, cabinet: c };
    let mut next = number;
    for record in part.chunks_exact(LOG_RECORD) {
        played = answer_record(out, played.at, next, played.cabinet, area, record);
        next += 1;
    }
    played
}
