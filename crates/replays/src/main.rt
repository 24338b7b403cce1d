// Replays logs: for each log that an argument names, the text of document 01, "The replay program", one text after another. `-` is standard input.
// What cannot be read or written is named on standard error; the other logs are replayed all the same.
#![tactic(auto)]

ghost use Rattle.std.specs.Prelude.{◌≤◌, ◌≡◌, ◌++◌, length, take};
ghost use Rattle.rules.specs.Numbers.{answer_room};
ghost use Rattle.rules.specs.Replay.{replay_start, heading, tail_line, last_lines};
ghost use Rattle.text.specs.Wrote.{WroteWithin};
ghost use Rattle.rules.specs.Record.{whole_of};
ghost use Rattle.replay_play.specs.Replayed.{Replayed};
ghost use Rattle.replay_log.specs.Places.{PartReplayed};
ghost use Rattle.program_logs.specs.Turns.{part_size};
ghost use Rattle.replays.specs.Turned.{text_room, TurnReplayed};

use program_files::PART;
use program_logs::{Logs, Turn};
use replay_play::Played;
use rules::{ANSWER_ROOM, AREA_SIZE, Cabinet};
use std::process::ExitCode;

// The text of a part: 120 lines of at most 96 bytes, in whole pages of 4,096.
const TEXT: usize = 12288;

// A log begins with two fresh modules and an area of zeros.
fn begin(out: &mut [u8; TEXT], area: &mut [u8; AREA_SIZE]) -> Played
    ensures { Replayed text_room heading replay_start out.old 0 out.new area.new result }
{
    *area = [0u8; AREA_SIZE];
    let at = replay_lines::put_heading(out, 0);
    Played {
        at,
        cabinet: cabinet_record::fresh(),
    }
}

// The lines of a part, of at most 120 records.
fn put_part(
    out: &mut [u8],
    part: &[u8],
    number: u64,
    c: Cabinet,
    area: &mut [u8],
    answer: &mut [u8],
) -> Played
    requires part_len { length part.now ≤ part_size }
    requires number_bound { number ≤ 9000000000000000000 }
    requires text_room_in_bounds { (text_room ≤ length out.old) × (length answer.old ≡ answer_room) }
    ensures { PartReplayed text_room number (whole_of c area.old) part.now out.old out.new area.new result }
{
    replay_log::put_lines(out, part, number, c, area, answer)
}

// The line of a short tail, if there is one, and the last lines.
fn put_end(out: &mut [u8; TEXT], number: u64, short: bool, c: Cabinet) -> usize
    ensures { WroteWithin text_room out.old 0 (tail_line number short ++ last_lines c) out.new result }
{
    if short {
        let tail = replay_lines::put_tail(out, 0, number);
        return replay_lines::put_last_lines(out, tail, c);
    }
    replay_lines::put_last_lines(out, 0, c)
}

// The text of a turn.
fn turn(
    logs: Logs,
    c: Cabinet,
    buf: &[u8; PART],
    out: &mut [u8; TEXT],
    area: &mut [u8; AREA_SIZE],
    answer: &mut [u8; ANSWER_ROOM],
) -> Played
    ensures { TurnReplayed logs.turn logs.number (whole_of c area.old) (take logs.have buf.now) out.old out.new area.new result }
{
    let turn = logs.turn;
    match turn {
        Turn::Beginning => begin(out, area),
        Turn::Part => put_part(out, logs.part(buf), logs.number, c, area, answer),
        Turn::End { short } => {
            let at = put_end(out, logs.number, short, c);
            Played { at, cabinet: c }
        }
        Turn::Unreadable | Turn::Nothing => Played { at: 0, cabinet: c },
    }
}

fn main(rt: HostRuntime) -> ExitCode {
    let mut out = [0u8; TEXT];
    let mut area = [0u8; AREA_SIZE];
    let mut answer = [0u8; ANSWER_ROOM];
    let mut cabinet = cabinet_record::fresh();
    let gone_through = program_logs::go_through(&rt, |logs, buf, _name| {
        let played = turn(logs, cabinet, buf, &mut out, &mut area, &mut answer);
        cabinet = played.cabinet;
        program_files::show(&rt, &out[..played.at])
    });
    match gone_through {
        Ok(()) => ExitCode::SUCCESS,
        Err(unwritten) => ExitCode::from(unwritten),
    }
}
