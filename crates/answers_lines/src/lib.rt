// The fuller trace's lines of the end state, with every field of each module's device record and the whole staging area, by which layouts are compared. A call's is
// crates/answers_call_line. They promise how much they write and no text; the lines are compared with an independent program's.
#![tactic(auto)]

ghost use Rattle.std.specs.Prelude.{◌+◌, ◌*◌, ◌≤◌, length};

use rules::{Cabinet, Device, Phase, Security, Thresholds, Transfer};

// The line of a tail that is no whole record, if there is one, by its number.
fn put_tail(out: &mut [u8], at: usize, tail: Option<u64>) -> usize
    requires { at + 40 ≤ length out.old }
    ensures { result ≤ at + 40 }
{
    match tail {
        Some(number) => text::put_field(out, at, number, b" short\n"),
        None => at,
    }
}

// The line of the phase.
fn put_phase(out: &mut [u8], at: usize, phase: Phase) -> usize
    requires { at + 40 ≤ length out.old }
    ensures { result ≤ at + 40 }
{
    let named = text::put(out, at, b"phase ");
    let end = text_phase::put_phase(out, named, phase);
    text::put(out, end, b"\n")
}

// A line of numbers: its name, and each number after a space.
fn put_numbers(out: &mut [u8], at: usize, name: &[u8], numbers: &[u64]) -> usize
    requires { (at + 21 * length numbers.now + 17 ≤ length out.old) × (length name.now ≤ 16) }
    ensures { result ≤ at + 21 * length numbers.now + 17 }
{
    let mut to = text::put(out, at, name);
    for number in numbers {
        let spaced = text::put(out, to, b" ");
        to = text::put_decimal(out, spaced, *number);
    }
    text::put(out, to, b"\n")
}

// A field that is bytes: its name, and two digits for each byte.
fn put_bytes(out: &mut [u8], at: usize, name: &[u8], bytes: &[u8]) -> usize
    requires { (at + 2 * length bytes.now + 20 ≤ length out.old) × (length name.now ≤ 16) }
    ensures { result ≤ at + 2 * length bytes.now + 20 }
{
    let named = text::put(out, at, name);
    let end = answers_hex::put_hex(out, named, bytes);
    text::put(out, end, b"\n")
}

// The lines of the transfer, but for its phase and its fault: before them the contexts given out, which both modules share.
fn put_transfer(out: &mut [u8], at: usize, contexts: u32, transfer: Transfer) -> usize
    requires { at + 228 ≤ length out.old }
    ensures { result ≤ at + 228 }
{
    let at = put_numbers(out, at, b"contexts", &[contexts as u64]);
    let at = put_numbers(out, at, b"current", &[transfer.current as u64]);
    let at = put_numbers(out, at, b"received", &[transfer.received as u64]);
    let at = put_numbers(out, at, b"ticks", &[transfer.ticks as u64]);
    let at = put_numbers(out, at, b"running", &[transfer.running]);
    put_numbers(out, at, b"staged", &[transfer.staged])
}

fn put_thresholds(out: &mut [u8], at: usize, thresholds: Thresholds) -> usize
    requires { at + 152 ≤ length out.old }
    ensures { result ≤ at + 152 }
{
    let at = put_numbers(out, at, b"enable", &[thresholds.enable as u64]);
    let at = put_numbers(out, at, b"spare", &[thresholds.spare as u64]);
    let at = put_numbers(out, at, b"media", &[thresholds.media as u64]);
    put_numbers(out, at, b"controller", &[thresholds.controller as u64])
}

fn put_security(out: &mut [u8], at: usize, security: Security) -> usize
    requires { at + 236 ≤ length out.old }
    ensures { result ≤ at + 236 }
{
    let at = put_numbers(out, at, b"enabled", &[security.enabled as u64]);
    let at = put_numbers(out, at, b"locked", &[security.locked as u64]);
    let at = put_numbers(out, at, b"frozen", &[security.frozen as u64]);
    let at = put_numbers(out, at, b"attempts", &[security.attempts as u64]);
    put_bytes(out, at, b"passphrase ", &security.passphrase)
}

// The lines of a device record, with the contexts given out.
fn put_device(out: &mut [u8], at: usize, contexts: u32, d: Device) -> usize
    requires { at + 860 ≤ length out.old }
    ensures { result ≤ at + 860 }
{
    let transfer = d.transfer;
    let fault = [transfer.reason as u64, transfer.faulty as u64];
    let reading = [
        d.reading.spare as u64,
        d.reading.media as u64,
        d.reading.controller as u64,
    ];
    let at = put_phase(out, at, transfer.phase);
    let at = put_transfer(out, at, contexts, transfer);
    let at = put_thresholds(out, at, d.thresholds);
    let at = put_security(out, at, d.security);
    let at = put_numbers(out, at, b"fault", &fault);
    let at = put_numbers(out, at, b"reading", &reading);
    put_numbers(out, at, b"trips", &[d.trips as u64])
}

// The line of a module's number, and its lines.
fn put_module(out: &mut [u8], at: usize, named: u64, contexts: u32, d: Device) -> usize
    requires { at + 900 ≤ length out.old }
    ensures { result ≤ at + 900 }
{
    let at = put_numbers(out, at, b"module", &[named]);
    put_device(out, at, contexts, d)
}

// What follows the records' lines: the tail's line, and the end state.
pub fn put_end(out: &mut [u8], tail: Option<u64>, c: Cabinet, area: &[u8]) -> usize
    requires { 2 * length area.now + 1860 ≤ length out.old }
    ensures { result ≤ 2 * length area.now + 1860 }
{
    let at = put_tail(out, 0, tail);
    let at = put_module(out, at, 0, c.contexts, c.first);
    let at = put_module(out, at, 1, c.contexts, c.second);
    put_bytes(out, at, b"area ", area)
}
