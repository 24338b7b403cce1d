// The one loop over logs: a program goes through the logs that its arguments name turn by turn, and does its own work at each.
#![tactic(auto)]

ghost use Rattle.std.specs.Prelude.{◌+◌, ◌*◌, ◌/◌, ◌≤◌, ◌<◌, ◌≡◌, length, take};
ghost use Rattle.std.specs.Prelude.{if◌then◌else◌, IfSome, MatchResult};
ghost use Rattle.rules.specs.Log.{record_size};
ghost use Rattle.program_logs.specs.declared.Turn.TheVariants.{Part, Nothing};
ghost use Rattle.program_logs.specs.Standing.{Standing, part_size};

// The length of the buffer that a part is read into, for who works on parts and has nothing to do with files.
pub use program_files::PART;
use program_files::{Broken, Log, System, Unwritten};
use rules::LOG_RECORD;
use std::io;

mod through;

pub use through::go_through;

// The buffer for an argument: the longest name of a file, and its end.
pub const NAME: usize = 4096;

// The most turns of a program, 2 to the 56th. A loop has to end, and no program lives so long; the records' numbers stay in 64 bits.
const TURNS: u64 = 72057594037927936;

// What a program finds in its turn.
#[derive(Clone, Copy)]
pub enum Turn {
    // A log begins. Its first part is in the buffer already, for a log of which nothing can be read does not begin.
    Beginning,
    // A part of the log is in the buffer.
    Part,
    // The log is over, with or without a tail that is no whole record.
    End { short: bool },
    // A log cannot be read, or no further. It was named on standard error.
    Unreadable,
    // There is no log: before the first, and where one was left.
    Nothing,
}

// Where a program stands in its logs: its turn, the argument that comes next, the length of the log's name, the number of the next record, how much of the buffer
// the part fills, why reading failed behind it, if it did, and how many turns are left. The buffers stand beside it, for they are lent anew at each turn.
#[derive(Clone, Copy)]
pub struct Logs {
    pub turn: Turn,
    pub argument: usize,
    pub size: usize,
    pub number: u64,
    pub have: usize,
    pub failure: Option<io::Error>,
    pub left: u64,
    ghost standing: { Standing have size number left },
}

// The log that a program is in, or none, its last part, and its name. A program makes this once.
#[derive(Drop)]
pub struct Held {
    pub log: Option<Log>,
    pub part: [u8; PART],
    pub name: [u8; NAME],
}

impl Logs {
    ghost use Rattle.program_logs.specs.Turns.{Next, NextOrNone, Left, after_part};
    ghost use Rattle.program_logs.specs.Through.{Told};

    // Before the log that this argument names. A program's first is 1; the program itself is 0.
    pub fn before(argument: usize) -> Logs
        ensures { (result.turn ≡ Nothing) × (result.argument ≡ argument) }
    {
        Logs {
            turn: Turn::Nothing,
            argument,
            size: 0,
            number: 0,
            have: 0,
            failure: None,
            left: TURNS,
        }
    }

    // The part that is in the buffer.
    pub fn part<'a>(&self, buf: &'a [u8; PART]) -> &'a [u8]
        ensures { result.now ≡ take self.now.have buf.now }
    {
        &buf[..self.have]
    }

    // On to a turn, with what is in the buffer.
    fn on_to(self, turn: Turn) -> Logs
        requires { 0 < self.left }
        ensures { (result.left < self.left) × ((result.turn ≡ turn) × (result.number ≡ self.number)) }
    {
        let mut next = self;
        next.turn = turn;
        next.left -= 1;
        next
    }

    // With so much in the buffer, and why reading failed behind it.
    fn holding(self, filled: Result<usize, Broken>) -> Logs
        requires { MatchResult filled (λ have. have ≤ part_size) (λ broken. broken.have ≤ part_size) }
        ensures { (result.left ≡ self.left) × ((result.turn ≡ self.turn) × (result.number ≡ self.number)) }
    {
        let mut logs = self;
        match filled {
            Ok(have) => {
                logs.have = have;
                logs.failure = None;
            }
            Err(broken) => {
                logs.have = broken.have;
                logs.failure = Some(broken.reason);
            }
        }
        logs
    }

    // On to a turn behind the records of a part.
    fn behind_part(self, turn: Turn) -> Logs
        requires { 0 < self.left }
        ensures { (result.left < self.left) × ((result.turn ≡ turn) × (result.number ≡ self.number + self.have / record_size)) }
    {
        let number = self.number + (self.have / LOG_RECORD) as u64;
        let mut next = self.on_to(turn);
        next.number = number;
        next
    }

    // After a part: the next one where it filled the buffer, else the end.
    fn after_part<R: System>(self, rt: &R, held: &mut Held) -> Logs
        requires { 0 < self.left }
        ensures { (result.left < self.left) × Next Part self result }
    {
        if self.have == PART {
            let filled = match &mut held.log {
                Some(log) => program_files::fill(rt, log, &mut held.part),
                None => Ok(0),
            };
            return self.behind_part(Turn::Part).holding(filled);
        }
        if let Some(reason) = self.failure {
            program_files::fail(rt, &held.name[..self.size], &reason);
            return self.behind_part(Turn::Unreadable).holding(Ok(0));
        }
        let short = self.have % LOG_RECORD != 0;
        self.behind_part(Turn::End { short }).holding(Ok(0))
    }

    // The log that the next argument names, if there is one. One of which nothing can be read does not begin.
    fn begin<R: System>(self, rt: &R, held: &mut Held) -> Option<Logs>
        requires { 0 < self.left }
        ensures { IfSome result (λ r. (r.left < self.left) × Left r.turn r.number) }
    {
        held.log = None;
        let argument = self.argument;
        if !program_files::has_arg(rt, argument) {
            return None;
        }
        let mut next = self.on_to(Turn::Unreadable);
        next.argument = argument + 1;
        next.size = match program_files::arg(rt, argument, &mut held.name) {
            Some(name) => name.len(),
            None => 0,
        };
        let Some(opened) = program_files::open_log(rt, argument, &mut held.name) else {
            return Some(next);
        };
        let name = opened.name;
        let mut log = opened.log;
        let filled = program_files::fill(rt, &mut log, &mut held.part);
        if let Err(Broken { have: 0, reason }) = filled {
            program_files::fail(rt, name, &reason);
            return Some(next);
        }
        next.turn = Turn::Beginning;
        next.size = name.len();
        next.number = 0;
        held.log = Some(log);
        Some(next.holding(filled))
    }

    // The next turn, or none: after the last log.
    pub fn next<R: System>(self, rt: &R, held: &mut Held) -> Option<Logs>
        ensures { NextOrNone self result }
    {
        if self.left == 0 {
            return None;
        }
        match self.turn {
            Turn::Beginning => Some(self.on_to(Turn::Part)),
            Turn::Part => Some(self.after_part(rt, held)),
            Turn::End { short: _ } | Turn::Unreadable | Turn::Nothing => self.begin(rt, held),
        }
    }

    // A log whose text could not be written is left.
    pub fn told(self, shown: Result<(), Unwritten>) -> Logs
        ensures { Told self shown result }
    {
        let mut logs = self;
        if shown.is_err() {
            logs.turn = Turn::Nothing;
        }
        logs
    }
}
