// The replay of a log, by places and parts: what stands there is played on the cabinet, and its text is written into a lent buffer.
#![tactic(auto)]

ghost use Rattle.std.specs.Prelude.{◌≡◌, ◌+◌, ◌*◌, ◌^◌, ◌≤◌, ◌<◌, length};
ghost use Rattle.rules.specs.Numbers.{answer_room};
ghost use Rattle.text.specs.Wrote.{line_room};
ghost use Rattle.rules.specs.Record.{whole_of};
ghost use Rattle.rules.specs.Log.{records_in};
ghost use Rattle.replay_log.specs.Places.{PlaceReplayed, PartReplayed};

use log_reader::Found;
use replay_play::Played;
use rules::{Cabinet, LOG_RECORD};

// What the reader finds at a place of a log is played, and its line is written: a record's, a short tail's, or none at the end.
pub fn play_at(
    out: &mut [u8],
    at: usize,
    number: u64,
    c: Cabinet,
    area: &mut [u8],
    answer: &mut [u8],
    log: &[u8],
    place: usize,
) -> Played
    requires line_room_in_bounds { at + line_room ≤ length out.old }
    requires answer_len { length answer.old ≡ answer_room }
    ensures { PlaceReplayed number (whole_of c area.old) log.now place out.old at out.new area.new result }
{
    match log_reader::read_at(log, place).found {
        Found::Record(entry) => {
            let start = place * LOG_RECORD;
            let end = start + LOG_RECORD;
            replay_play::play_entry(out, at, number, c, area, answer, entry, &log[start..end])
        }
        Found::Short => {
            let at = replay_lines::put_tail(out, at, number);
            Played { at, cabinet: c }
        }
        Found::End => Played { at, cabinet: c },
    }
}

// The whole records of a part of a log are played one by one, the first of which has the number given; a tail is left to the caller.
pub fn put_lines(
    out: &mut [u8],
    part: &[u8],
    number: u64,
    c: Cabinet,
    area: &mut [u8],
    answer: &mut [u8],
) -> Played
    requires line_room_in_bounds { records_in part.now * line_room ≤ length out.old }
    requires part_bound { number + records_in part.now < 2 ^ 64 }
    requires answer_len { length answer.old ≡ answer_room }
    ensures { PartReplayed (records_in part.now * line_room) number (whole_of c area.old) part.now out.old out.new area.new result }
{
    let mut played = Played { at: 0, cabinet: c };
    for j in 0..part.len() / LOG_RECORD {
        let next = number + j as u64;
        played = play_at(out, played.at, next, played.cabinet, area, answer, part, j);
    }
    played
}
