// The answer of Get Security State.
#![tactic(auto)]

ghost use Rattle.std.specs.Prelude.{◌≡◌, ◌++◌, ◌≤◌, length};
ghost use Rattle.rules.specs.Numbers.{answer_room};
ghost use Rattle.rules.specs.Bytes.{splice};
ghost use Rattle.rules.specs.Refusals.{status_bytes};
ghost use Rattle.rules.specs.Security.{state_byte, security_state};

use bytes_base::ToBytes;
use rules::{ATTEMPT_LIMIT, Security};

// Bit 1 enabled, bit 2 locked, bit 3 frozen, bit 4 attempts at 10.
fn state_byte(s: Security) -> u8
    ensures { result ≡ state_byte s }
{
    let limit = s.attempts == ATTEMPT_LIMIT;
    ((s.enabled as u8) << 1)
        | ((s.locked as u8) << 2)
        | ((s.frozen as u8) << 3)
        | ((limit as u8) << 4)
}

pub fn put_state(s: Security, answer: &mut [u8])
    requires { answer_room ≤ length answer.old }
    ensures { answer.new ≡ splice 0 (status_bytes 0 0 ++ security_state s) answer.old }
{
    let mut bytes = [0u8; 12];
    state_byte(s).put(&mut bytes, 8);
    bytes_base::copy(answer, &bytes);
}
