// The replay's own lines, each written into a lent buffer at a place: the heading, a short tail's, and the last ones. A call's is crates/replay_call_line.
#![tactic(auto)]

ghost use Rattle.std.specs.Prelude.{true, ◌+◌, ◌≤◌, length};
ghost use Rattle.rules.specs.Replay.{heading, tail_line, line_end, last_line, last_lines};
ghost use Rattle.text.specs.Wrote.{WroteWithin, line_room};

use rules::{Cabinet, Device, Phase, Transfer};

pub fn put_heading(out: &mut [u8], at: usize) -> usize
    requires { at + line_room ≤ length out.old }
    ensures { WroteWithin line_room out.old at heading out.new result }
{
    text::put(out, at, b"record kind status ext length\n")
}

// The line of a tail that is no whole record.
pub fn put_tail(out: &mut [u8], at: usize, number: u64) -> usize
    requires { at + line_room ≤ length out.old }
    ensures { WroteWithin line_room out.old at (tail_line number true) out.new result }
{
    text::put_field(out, at, number, b" short\n")
}

// What the last line ends with: in Failed, the reason and the record number of the fault.
fn put_line_end(out: &mut [u8], at: usize, t: Transfer) -> usize
    requires { at + 30 ≤ length out.old }
    ensures { WroteWithin 30 out.old at (line_end t) out.new result }
{
    if t.phase != Phase::Failed {
        return text::put(out, at, b"\n");
    }
    let named = text::put(out, at, b" ");
    let spaced = text_phase::put_reason(out, named, t.reason);
    let counted = text::put(out, spaced, b" ");
    text::put_field(out, counted, t.faulty as u64, b"\n")
}

// A module's last line, with the contexts given out that both modules share.
fn put_last(out: &mut [u8], at: usize, contexts: u32, d: Device) -> usize
    requires { at + line_room ≤ length out.old }
    ensures { WroteWithin line_room out.old at (last_line contexts d) out.new result }
{
    let named = text::put(out, at, b"end ");
    let spaced = text_phase::put_phase(out, named, d.transfer.phase);
    let counted = text::put(out, spaced, b" ");
    let end = text::put_decimal(out, counted, contexts as u64);
    put_line_end(out, end, d.transfer)
}

// The last line of each module.
pub fn put_last_lines(out: &mut [u8], at: usize, c: Cabinet) -> usize
    requires { at + (line_room + line_room) ≤ length out.old }
    ensures { WroteWithin (line_room + line_room) out.old at (last_lines c) out.new result }
{
    let next = put_last(out, at, c.contexts, c.first);
    put_last(out, next, c.contexts, c.second)
}
