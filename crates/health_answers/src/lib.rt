// Document 02, T-04 and T-08: the answer of function 1, with the trips byte that the record keeps.
#![tactic(auto)]

ghost use Rattle.std.specs.Prelude.{◌≡◌, ◌++◌, ◌≤◌, length};
ghost use Rattle.rules.specs.Numbers.{answer_room};
ghost use Rattle.rules.specs.Bytes.{splice};
ghost use Rattle.rules.specs.Refusals.{status_bytes};
ghost use Rattle.rules.specs.Health.{answer_with};

use bytes_base::ToBytes;
use rules::Reading;

// Status 0; the flags of what is valid, 0000021Ah; spare, trips and the two temperatures in their places, and zeros.
pub fn put_health(trips: u8, reading: Reading, answer: &mut [u8])
    requires { answer_room ≤ length answer.old }
    ensures { answer.new ≡ splice 0 (status_bytes 0 0 ++ answer_with trips reading) answer.old }
{
    let mut bytes = [0u8; 132];
    538u32.put(&mut bytes, 4);
    reading.spare.put(&mut bytes, 13);
    trips.put(&mut bytes, 15);
    reading.media.put(&mut bytes, 16);
    reading.controller.put(&mut bytes, 18);
    bytes_base::copy(answer, &bytes);
}
