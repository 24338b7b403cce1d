// Compares two logs, which two arguments name, and prints the report of document 02, T-06. `-` is standard input. The logs are read side by side in parts, so
// that memory does not grow with them. What cannot be read or written is named on standard error, and nothing is printed of it.
#![tactic(auto)]

ghost use Rattle.std.specs.Prelude.{◌≤◌, ◌<◌, ◌≡◌};
ghost use Rattle.program_logs.specs.Standing.{part_size};

use compare_turns::{PLACES, TEXT, TURNS, Told};
use program_files::{Log, PART, System, Unwritten};
use program_logs::NAME;
use std::io;
use std::process::ExitCode;

// One of the two logs, its name, and how much of the buffer its last part fills: all of it before the first.
#[derive(Drop)]
struct Side<'a> {
    log: Log,
    name: &'a [u8],
    part: [u8; PART],
    have: usize,
    ghost fits: { have ≤ 65280 },
}

impl Side<'_> {
    // Whether the last part did not fill the buffer.
    fn is_over(&self) -> bool {
        self.have < PART
    }

    // The next part, or why it could not be read. A log that is over is not asked again.
    fn next<R: System>(&mut self, rt: &R) -> io::Result<()>
        ensures { self.old.have < part_size → self.new.have ≡ 0 }
    {
        if self.have < PART {
            self.have = 0;
            return Ok(());
        }
        match program_files::fill(rt, &mut self.log, &mut self.part) {
            Ok(have) => {
                self.have = have;
                Ok(())
            }
            Err(broken) => Err(broken.reason),
        }
    }

    // Whether the next part was read. What could not be is named on standard error, once both logs were asked for theirs.
    fn was_read<R: System>(&self, rt: &R, next: io::Result<()>) -> bool {
        match next {
            Ok(()) => true,
            Err(reason) => {
                program_files::fail(rt, self.name, &reason);
                false
            }
        }
    }
}

// What is told of two logs that are read side by side to their ends; nothing where one cannot be read so far.
fn go_through<R: System>(
    rt: &R,
    first: &mut Side,
    second: &mut Side,
    list: &mut [u64; PLACES],
) -> Option<Told> {
    let mut told = Told::begin();
    for turn in 0..TURNS {
        let of_first = first.next(rt);
        let of_second = second.next(rt);
        let first_read = first.was_read(rt, of_first);
        let second_read = second.was_read(rt, of_second);
        if !first_read || !second_read {
            return None;
        }
        told = told.turn(
            &first.part[..first.have],
            &second.part[..second.have],
            list,
            TURNS - turn,
        );
        if first.is_over() && second.is_over() {
            return Some(told);
        }
    }
    Some(told)
}

// Compares the two logs, and writes the text of the report out.
fn compare<R: System>(rt: &R, first: &mut Side, second: &mut Side) -> Result<(), Unwritten> {
    let mut list = [0u64; PLACES];
    let Some(told) = go_through(rt, first, second, &mut list) else {
        return Ok(());
    };
    let mut out = [0u8; TEXT];
    let end = told.put(&mut out, &list);
    program_files::show(rt, &out[..end])
}

fn main(rt: HostRuntime) -> ExitCode {
    let mut name = [0u8; NAME];
    let mut other = [0u8; NAME];
    if program_files::arg_count(&rt) != 3 {
        rt.say(b"wants two logs\n");
        return ExitCode::SUCCESS;
    }
    let Some(first) = program_files::open_log(&rt, 1, &mut name) else {
        return ExitCode::SUCCESS;
    };
    let Some(second) = program_files::open_log(&rt, 2, &mut other) else {
        return ExitCode::SUCCESS;
    };
    let mut first = Side {
        log: first.log,
        name: first.name,
        part: [0u8; PART],
        have: PART,
    };
    let mut second = Side {
        log: second.log,
        name: second.name,
        part: [0u8; PART],
        have: PART,
    };
    match compare(&rt, &mut first, &mut second) {
        Ok(()) => ExitCode::SUCCESS,
        Err(unwritten) => ExitCode::from(unwritten),
    }
}
