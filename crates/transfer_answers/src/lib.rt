// The answers of an accepted Get FW Info, Start and Query.
#![tactic(auto)]

ghost use Rattle.std.specs.Prelude.{◌≡◌, ◌++◌, ◌≤◌, length};
ghost use Rattle.rules.specs.Numbers.{answer_room};
ghost use Rattle.rules.specs.Bytes.{splice};
ghost use Rattle.rules.specs.Refusals.{status_bytes};
ghost use Rattle.rules.specs.Transfer.{fw_info, start_answer, query_answer};

use bytes_base::ToBytes;
use rules::{AREA_SIZE, LONGEST_PIECE, Transfer};

pub fn put_info(t: Transfer, answer: &mut [u8])
    requires { answer_room ≤ length answer.old }
    ensures { answer.new ≡ splice 0 (status_bytes 0 0 ++ fw_info t) answer.old }
{
    let mut bytes = [0u8; 44];
    (AREA_SIZE as u32).put(&mut bytes, 4);
    LONGEST_PIECE.put(&mut bytes, 8);
    1000u32.put(&mut bytes, 12);
    8000u32.put(&mut bytes, 16);
    1u32.put(&mut bytes, 24);
    t.running.put(&mut bytes, 28);
    t.staged.put(&mut bytes, 36);
    bytes_base::copy(answer, &bytes);
}

// The answer has the sum's four low bytes, so that it may wrap.
pub fn put_started(given: u32, answer: &mut [u8])
    requires { answer_room ≤ length answer.old }
    ensures { answer.new ≡ splice 0 (status_bytes 0 0 ++ start_answer given) answer.old }
{
    let mut bytes = [0u8; 8];
    given.wrapping_add(1).put(&mut bytes, 4);
    bytes_base::copy(answer, &bytes);
}

pub fn put_queried(t: Transfer, answer: &mut [u8])
    requires { answer_room ≤ length answer.old }
    ensures { answer.new ≡ splice 0 (status_bytes 0 0 ++ query_answer t) answer.old }
{
    let mut bytes = [0u8; 12];
    t.staged.put(&mut bytes, 4);
    bytes_base::copy(answer, &bytes);
}
