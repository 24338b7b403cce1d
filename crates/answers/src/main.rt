// The fuller trace that layouts are compared by: for each record of a log a line with the answer's bytes in hex, then every field of each module's device record and
// the whole staging area. `-` is standard input. Its lines are compared with an independent program's.
#![tactic(auto)]

ghost use Rattle.std.specs.Prelude.{◌≤◌};

use program_files::PART;
use program_logs::{Logs, Turn};
use replay_play::Played;
use rules::{AREA_SIZE, Cabinet};
use std::process::ExitCode;

// The text of a part, 120 lines of at most 296 bytes, and that of the end state, two digits for each byte of the area and some short lines: in whole pages.
const TEXT: usize = 36864;

// A log begins with two fresh modules and an area of zeros, and has no heading.
fn begin(area: &mut [u8; AREA_SIZE]) -> Played
    ensures { result.at ≤ 36864 }
{
    *area = [0u8; AREA_SIZE];
    Played {
        at: 0,
        cabinet: cabinet_record::fresh(),
    }
}

// The text of a turn.
fn turn(
    logs: Logs,
    c: Cabinet,
    buf: &[u8; PART],
    out: &mut [u8; TEXT],
    area: &mut [u8; AREA_SIZE],
) -> Played
    ensures { result.at ≤ 36864 }
{
    let turn = logs.turn;
    match turn {
        Turn::Beginning => begin(area),
        Turn::Part => answers_play::put_lines(out, logs.part(buf), logs.number, c, area),
        Turn::End { short } => {
            let at = answers_lines::put_end(out, short.then_some(logs.number), c, area);
            Played { at, cabinet: c }
        }
        Turn::Unreadable | Turn::Nothing => Played { at: 0, cabinet: c },
    }
}

fn main(rt: HostRuntime) -> ExitCode {
    let mut out = [0u8; TEXT];
    let mut area = [0u8; AREA_SIZE];
    let mut cabinet = cabinet_record::fresh();
    let gone_through = program_logs::go_through(&rt, |logs, buf, _name| {
        let answered = turn(logs, cabinet, buf, &mut out, &mut area);
        cabinet = answered.cabinet;
        program_files::show(&rt, &out[..answered.at])
    });
    match gone_through {
        Ok(()) => ExitCode::SUCCESS,
        Err(unwritten) => ExitCode::from(unwritten),
    }
}
