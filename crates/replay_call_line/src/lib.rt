// A call's line of the replay, written into a lent buffer at a place.
#![tactic(auto)]

ghost use Rattle.std.specs.Prelude.{◌≡◌, ◌+◌, ◌≤◌, length};
ghost use Rattle.rules.specs.Replay.{printed_status, printed_ext, call_line};
ghost use Rattle.text.specs.Wrote.{WroteWithin, line_room};

use rules::{Refusal, Reply, Verdict};

// The status of a call's line; 0 where it was accepted.
pub fn printed_status(verdict: Verdict) -> u64
    ensures { result ≡ printed_status verdict }
{
    match verdict {
        Ok(()) => 0,
        Err(Refusal::R { number }) => number as u64,
        Err(Refusal::Status { status, .. }) => status as u64,
    }
}

fn printed_ext(verdict: Verdict) -> u64
    ensures { result ≡ printed_ext verdict }
{
    match verdict {
        Ok(()) | Err(Refusal::R { .. }) => 0,
        Err(Refusal::Status { ext, .. }) => ext as u64,
    }
}

// The line of a call. Function 0 has no status to print.
pub fn put_call(out: &mut [u8], at: usize, number: u64, function: u64, reply: Reply) -> usize
    requires { at + line_room ≤ length out.old }
    ensures { WroteWithin line_room out.old at (call_line number function reply) out.new result }
{
    let length = reply.length as u64;
    if function == 0 {
        let next = text::put_field(out, at, number, b" call - - ");
        return text::put_field(out, next, length, b"\n");
    }
    let status = printed_status(reply.verdict);
    let ext = printed_ext(reply.verdict);
    let a = text::put_field(out, at, number, b" call ");
    let b = text::put_field(out, a, status, b" ");
    let c = text::put_field(out, b, ext, b" ");
    text::put_field(out, c, length, b"\n")
}
