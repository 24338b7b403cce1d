// Reading logs, which may be files or pipes.
#![tactic(auto)]

ghost use Rattle.std.specs.Prelude.{◌≡◌, ◌≤◌, ◌<◌, ◌+◌, ◌-◌, ◌^◌, length, IfOk, IfSome, IsTrue, MatchResult};
ghost use Rattle.std.specs.Process.{exit_status};
ghost use Rattle.program_files.specs.Status.{status_number};

use std::env::{Env, FillError};
use std::fs::File;
use std::io::{Input, Print, Read, Write};
use std::process::ExitCode;
use std::rt::Files;
use std::{fs, io, str};

// The buffer that a log is read into part by part: 120 records, as many whole ones as 65,536 bytes hold.
pub const PART: usize = 65280;

// What a shell has for a program that SIGPIPE ended. A program of this kit is not ended by it, and ends with it.
const CLOSED: u8 = 141;

// What the programs use of the system, and standard error for bytes that need not be text.
pub trait System: Env + Files<File = File> + Input + Print {
    // What cannot be written there is lost.
    fn say(&self, bytes: &[u8]);
}

impl System for HostRuntime {
    fn say(&self, bytes: &[u8]) {
        let _ = self.stderr().write_all(bytes);
    }
}

// Why a name is refused before the system is asked for its file. Each has the number of the system's error whose text says so.
#[derive(Clone, Copy)]
enum Refused {
    NoArgument = 22,
    TooLong = 36,
    NoText = 84,
}

impl From<FillError> for Refused {
    fn from(error: FillError) -> Refused {
        match error {
            FillError::NotPresent => Refused::NoArgument,
            FillError::TooLong => Refused::TooLong,
        }
    }
}

impl From<Refused> for io::Error {
    fn from(refused: Refused) -> io::Error {
        io::Error::from_raw_os_error(refused as i32)
    }
}

// A log that was opened: where its bytes come from. Its file is closed where it is dropped, but not standard input, which may be named again.
#[derive(Drop)]
pub enum Log {
    StandardInput,
    File(File),
}

// A log and its name.
#[derive(Drop)]
pub struct Opened<'a> {
    pub log: Log,
    pub name: &'a [u8],
}

// How much of a buffer was filled before reading failed, and why it failed.
#[derive(Clone, Copy)]
pub struct Broken {
    pub have: usize,
    pub reason: io::Error,
}

// Why a text was not written: nobody reads it any more, or standard output cannot be written, which was told on standard error.
#[derive(Clone, Copy, Debug, PartialEq, Eq)]
pub enum Unwritten {
    Closed,
    Failed,
}

// The exit status of a program: 0, or the one of a program that the system ends because nobody reads what it writes.
impl From<Unwritten> for ExitCode {
    ghost from_gives = { λ unwritten code. exit_status code ≡ status_number unwritten };

    fn from(unwritten: Unwritten) -> ExitCode {
        match unwritten {
            Unwritten::Closed => ExitCode::from(CLOSED),
            Unwritten::Failed => ExitCode::SUCCESS,
        }
    }
}

// How many arguments the program was started with, its own name among them.
pub fn arg_count<R: System>(rt: &R) -> usize {
    (0..usize::MAX)
        .take_while(|argument| has_arg(rt, *argument))
        .count()
}

// Whether there is such an argument. One that is there does not fit into a buffer of no bytes, unless it is empty; and no list is so long that it has the last number.
pub fn has_arg<R: System>(rt: &R, argument: usize) -> bool
    ensures { IsTrue result → argument + 1 < 2 ^ 64 }
{
    argument < usize::MAX && !matches!(rt.arg(argument, &mut []), Err(FillError::NotPresent))
}

// An argument, at the front of a buffer: none where it is missing or longer than the buffer.
pub fn arg<'a, R: System>(rt: &R, argument: usize, name: &'a mut [u8]) -> Option<&'a [u8]>
    ensures { IfSome result (λ word. length word.now ≤ length name.old) }
{
    match rt.arg(argument, name) {
        Ok(size) => Some(&name[..size]),
        Err(_) => None,
    }
}

// Opens the log that an argument names, `-` for standard input, and keeps the name in a buffer. What cannot be opened is named on standard error.
pub fn open_log<'a, R: System>(rt: &R, argument: usize, name: &'a mut [u8]) -> Option<Opened<'a>>
    ensures { IfSome result (λ opened. length opened.name.now ≤ length name.old) }
{
    let size = rt
        .arg(argument, name)
        .inspect_err(|error| fail(rt, b"argument", &io::Error::from(Refused::from(*error))))
        .ok()?;
    let name = &name[..size];
    let log = open(rt, name)
        .inspect_err(|reason| fail(rt, name, reason))
        .ok()?;
    Some(Opened { log, name })
}

// The log of a name, which has to be text.
fn open<R: System>(rt: &R, name: &[u8]) -> io::Result<Log> {
    if name == b"-".as_slice() {
        return Ok(Log::StandardInput);
    }
    let path = str::from_utf8(name).map_err(|_| Refused::NoText)?;
    Ok(Log::File(fs::open(rt, path)?))
}

// Writes a text to standard output. What could not be written is told on standard error, but where nobody reads it any more.
pub fn show<R: System>(rt: &R, text: &[u8]) -> Result<(), Unwritten> {
    match rt.write_all(text) {
        Ok(()) => Ok(()),
        Err(reason) if reason.kind() == io::ErrorKind::BrokenPipe => Err(Unwritten::Closed),
        Err(reason) => {
            fail(rt, b"standard output", &reason);
            Err(Unwritten::Failed)
        }
    }
}

// Says what failed, and the system's reason.
pub fn fail<R: System>(rt: &R, what: &[u8], reason: &io::Error) {
    let mut text = [0u8; 256];
    let mut room: &mut [u8] = &mut text;
    let _ = write!(room, "{reason}");
    let left = room.len();
    let written = text.len().saturating_sub(left);
    refuse(rt, what, before_number(&text[..written]));
}

// A reason without the error's number, which stands in brackets behind it.
fn before_number(text: &[u8]) -> &[u8]
    ensures { length result.now ≤ length text.now }
{
    match text.iter().rposition(|byte| *byte == b'(') {
        Some(at) if 0 < at => &text[..at - 1],
        _ => text,
    }
}

// Says of something, such as a log by its name, why it is refused.
pub fn refuse<R: System>(rt: &R, what: &[u8], reason: &[u8]) {
    rt.say(what);
    rt.say(b": ");
    rt.say(reason);
    rt.say(b"\n");
}

// Reads once.
fn read<R: System>(rt: &R, log: &mut Log, buf: &mut [u8]) -> io::Result<usize>
    ensures { IfOk result (λ got. got ≤ length buf.old) }
{
    match log {
        Log::StandardInput => rt.reader().read(buf),
        Log::File(file) => file.read(buf),
    }
}

// Reads until the buffer is full or the log ends; a pipe comes in pieces.
pub fn fill<R: System>(rt: &R, log: &mut Log, buf: &mut [u8]) -> Result<usize, Broken>
    ensures { MatchResult result (λ have. have ≤ length buf.old) (λ broken. broken.have ≤ length buf.old) }
{
    let mut have = 0;
    while have < buf.len() {
        match read(rt, log, &mut buf[have..]) {
            Ok(0) => return Ok(have),
            Ok(got) => have += got,
            Err(reason) => return Err(Broken { have, reason }),
        }
    }
    Ok(have)
}
