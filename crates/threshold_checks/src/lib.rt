// Document 01, "Thresholds", and document 02, T-05: the checks of Set Threshold, the reserved enable bits first.
#![tactic(auto)]

ghost use Rattle.std.specs.Prelude.{◌≡◌, length};
ghost use Rattle.rules.specs.Refusals.{verdict};
ghost use Rattle.rules.specs.Thresholds.{set_threshold_of, threshold_checks};

use bytes_numbers::FromBytes;
use rules::{Refusal, Verdict};

#[tactic(auto, unfolding(rules::specs::Refusals::verdict))]
pub fn judge_set(request: &[u8]) -> Verdict
    requires { length request.now ≡ 7 }
    ensures { result ≡ verdict (threshold_checks (set_threshold_of request.now)) }
{
    let enable = u16::read(request, 0);
    let spare = u8::read(request, 2);
    Refusal::Status { status: 3, ext: 0 }.when(7 < enable)?;
    Refusal::Status { status: 3, ext: 0 }.when(100 < spare)
}
