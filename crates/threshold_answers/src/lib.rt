// Document 01, "Thresholds": the answer of Get Threshold.
#![tactic(auto)]

ghost use Rattle.std.specs.Prelude.{◌≡◌, ◌++◌, ◌≤◌, length};
ghost use Rattle.rules.specs.Numbers.{answer_room};
ghost use Rattle.rules.specs.Bytes.{splice};
ghost use Rattle.rules.specs.Refusals.{status_bytes};
ghost use Rattle.rules.specs.Thresholds.{GetThreshold, threshold_answer};

use bytes_base::ToBytes;
use rules::Thresholds;

pub fn put_answer(h: Thresholds, answer: &mut [u8])
    requires { answer_room ≤ length answer.old }
    ensures { answer.new ≡ splice 0 (status_bytes 0 0 ++ threshold_answer h GetThreshold) answer.old }
{
    let mut bytes = [0u8; 12];
    h.enable.put(&mut bytes, 4);
    h.spare.put(&mut bytes, 6);
    h.media.put(&mut bytes, 7);
    h.controller.put(&mut bytes, 9);
    bytes_base::copy(answer, &bytes);
}
