// Tries two places whose forms document 01 names: a reader walks a log, and a tick changes a record in place. What it must write, in the file stdout, was
// written by hand from documents 01 and 02.
#![tactic(auto)]

ghost use Rattle.std.specs.Prelude.{◌≡◌};
ghost use Rattle.rules.specs.Record.{whole_of};
ghost use Rattle.cabinet_clock.specs.InPlace.{TickedInPlace};
ghost use Rattle.log_reader.specs.Reader.{stood_at};

use cabinet::Outcome;
use log_reader::{Found, Stood};
use rules::{
    AREA_SIZE, Cabinet, Device, Entry, LOG_RECORD, Phase, Reading, Refusal, Transfer, Verdict,
};
use std::io::Print;

// An entry of a log, on a line. What cannot be written is lost, here and below.
fn print_entry<R: Print>(rt: &R, entry: Entry) {
    let _ = match entry {
        Entry::Call {
            named,
            host,
            revision,
            function,
            length,
        } => println!(rt; "call {named} {host} {revision} {function} {length}"),
        Entry::Tick => println!(rt; "tick"),
        Entry::Power { named } => println!(rt; "power {named}"),
        Entry::Health { named, reading } => {
            let Reading {
                spare,
                media,
                controller,
            } = reading;
            println!(rt; "health {named} {spare} {media} {controller}")
        }
        Entry::Bad => println!(rt; "bad"),
    };
}

fn print_found<R: Print>(rt: &R, place: usize, found: Found) {
    let _ = print!(rt; "{place} ");
    match found {
        Found::Record(entry) => print_entry(rt, entry),
        Found::Short => {
            let _ = println!(rt; "short");
        }
        Found::End => {
            let _ = println!(rt; "end");
        }
    }
}

// What a reader made from a log finds first, and the place after it.
fn first_of(log: &[u8]) -> Stood
    ensures { result ≡ stood_at log.now 0 }
{
    let step = log_reader::next(log_reader::new(log));
    Stood {
        found: step.found,
        place: step.reader.place,
    }
}

// From a place on, so many steps.
fn print_walk<R: Print>(rt: &R, log: &[u8], from: usize, steps: u64) {
    let mut place = from;
    for _ in 0..steps {
        let stood = log_reader::read_at(log, place);
        print_found(rt, place, stood.found);
        place = stood.place;
    }
}

// A cabinet whose module 0 is verifying nothing received, with so many ticks left.
fn verifying(ticks: u8) -> Cabinet {
    let c = cabinet::fresh();
    let d = c.first;
    let t = d.transfer;
    let transfer = Transfer {
        phase: Phase::Verifying,
        current: 1,
        ticks,
        ..t
    };
    let first = Device { transfer, ..d };
    Cabinet {
        contexts: 1,
        first,
        ..c
    }
}

// The caller's side of a tick in place: a record of its own is lent, ticked, and read again.
fn tick_mine(c: Cabinet, area: &[u8]) -> Outcome
    ensures { TickedInPlace (whole_of c area.now) result.reply result.cabinet }
{
    let mut mine = c;
    let reply = cabinet_clock::tick_in_place(&mut mine, area);
    Outcome {
        cabinet: mine,
        reply,
    }
}

fn print_verdict<R: Print>(rt: &R, verdict: Verdict) {
    let _ = match verdict {
        Ok(()) => print!(rt; "accepted "),
        Err(Refusal::R { number }) => print!(rt; "R{number} "),
        Err(Refusal::Status { status, ext: _ }) => print!(rt; "{status} "),
    };
}

// A phase, as a word.
fn word_of(phase: Phase) -> &'static str {
    match phase {
        Phase::Idle => "idle",
        Phase::Receiving => "receiving",
        Phase::Verifying => "verifying",
        Phase::Staged => "staged",
        Phase::Failed => "failed",
    }
}

// The record is ticked in place; the verdict, and the phase and the ticks left of module 0 afterwards.
fn print_tick<R: Print>(rt: &R, c: Cabinet, area: &[u8]) -> Cabinet {
    let ticked = tick_mine(c, area);
    let transfer = ticked.cabinet.first.transfer;
    let phase = word_of(transfer.phase);
    let ticks = transfer.ticks;
    print_verdict(rt, ticked.reply.verdict);
    let _ = println!(rt; "{phase} {ticks}");
    ticked.cabinet
}

// A log of a Start to module 1 from host 1 at revision 2, a tick, a record of no known kind, and 10 bytes over.
fn walk_log<R: Print>(rt: &R) {
    let mut log = [0u8; 1642];
    log[0] = 1;
    log[1] = 17;
    log[2] = 2;
    log[4] = 13;
    log[LOG_RECORD] = 2;
    log[2 * LOG_RECORD] = 9;
    let first = first_of(&log);
    print_found(rt, 0, first.found);
    print_walk(rt, &log, first.place, 5);
    print_walk(rt, &log, 9, 1);
}

// Two ticks left, one, none; an area that is too short; a record that is not possible.
fn tick_records<R: Print>(rt: &R) {
    let area = [0u8; AREA_SIZE];
    let c = print_tick(rt, verifying(2), &area);
    let d = print_tick(rt, c, &area);
    print_tick(rt, d, &area);
    print_tick(rt, verifying(2), &area[..AREA_SIZE - 1]);
    print_tick(rt, verifying(9), &area);
}

fn main(rt: HostRuntime) {
    walk_log(&rt);
    tick_records(&rt);
}
