// The name of a phase and of a fault's reason, written into a lent buffer at a place.
#![tactic(auto)]

ghost use Rattle.std.specs.Prelude.{◌≡◌, ◌+◌, ◌≤◌, length};
ghost use Rattle.rules.specs.Text.{ascii};
ghost use Rattle.rules.specs.Replay.{phase_name, reason_name};
ghost use Rattle.text.specs.Wrote.{WroteWithin};

use rules::Phase;

fn phase_name(phase: Phase) -> &'static [u8]
    ensures { result.now ≡ ascii (phase_name phase) }
{
    match phase {
        Phase::Idle => b"idle",
        Phase::Receiving => b"receiving",
        Phase::Verifying => b"verifying",
        Phase::Staged => b"staged",
        Phase::Failed => b"failed",
    }
}

// The name takes at most 9 letters.
#[tactic(auto, using(crate::proofs::Names::short_phase))]
pub fn put_phase(out: &mut [u8], at: usize, phase: Phase) -> usize
    requires { at + 9 ≤ length out.old }
    ensures { WroteWithin 9 out.old at (ascii (phase_name phase)) out.new result }
{
    text::put(out, at, phase_name(phase))
}

fn reason_name(reason: u8) -> &'static [u8]
    ensures { result.now ≡ ascii (reason_name reason) }
{
    match reason {
        1 => b"size",
        2 => b"number",
        3 => b"count",
        4 => b"version",
        _ => b"sum",
    }
}

// The name takes at most 7 letters.
#[tactic(auto, using(crate::proofs::Names::short_reason))]
pub fn put_reason(out: &mut [u8], at: usize, reason: u8) -> usize
    requires { at + 7 ≤ length out.old }
    ensures { WroteWithin 7 out.old at (ascii (reason_name reason)) out.new result }
{
    text::put(out, at, reason_name(reason))
}
