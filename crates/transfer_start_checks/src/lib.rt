// The checks of Start, in the page's order: its own phase, then what the cabinet says, whether the other module has the area and how many contexts are given out.
#![tactic(auto)]

ghost use Rattle.std.specs.Prelude.{◌≡◌};
ghost use Rattle.rules.specs.Refusals.{verdict};
ghost use Rattle.rules.specs.Transfer.{start_checks};

use rules::{LAST_CONTEXT, Phase, Refusal, Transfer, Verdict};

#[tactic(auto, unfolding(rules::specs::Refusals::verdict))]
pub fn judge_start(t: Transfer, given: u32, taken: bool) -> Verdict
    ensures { result ≡ verdict (start_checks t given taken) }
{
    Refusal::Status { status: 7, ext: 1 }.when(device_phase::has_area(t))?;
    Refusal::Status { status: 7, ext: 2 }.when(t.phase == Phase::Staged)?;
    Refusal::Status { status: 8, ext: 0 }.when(taken)?;
    Refusal::Status { status: 8, ext: 0 }.when(given == LAST_CONTEXT)
}
