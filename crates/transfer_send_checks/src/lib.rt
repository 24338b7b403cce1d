// The checks of Send, in the page's order.
#![tactic(auto)]

ghost use Rattle.std.specs.Prelude.{◌≡◌, Bool, ℕ, ◌≤◌, length};
ghost use Rattle.rules.specs.Refusals.{verdict};
ghost use Rattle.rules.specs.Transfer.{send_of, transfer_checks};

use bytes_numbers::FromBytes;
use rules::{AREA_SIZE, LONGEST_PIECE, Phase, Refusal, Transfer, Verdict};

// The other module has no part in them. Offset and length are added in 64 bits, where their sum is exact.
#[tactic(auto, unfolding(rules::specs::Refusals::verdict))]
pub fn judge_send(t: Transfer, request: &[u8]) -> Verdict
    requires { 12 ≤ length request.now }
    ensures { (given : ℕ) (taken : Bool) → result ≡ verdict (transfer_checks t given taken (send_of request.now)) }
{
    let context = u32::read(request, 0);
    let offset = u32::read(request, 4);
    let size = u32::read(request, 8);
    let piece = &request[12..];
    let end = offset as u64 + size as u64;
    let wrong = size as usize != piece.len()
        || size == 0
        || LONGEST_PIECE < size
        || (AREA_SIZE as u64) < end;
    Refusal::Status { status: 3, ext: 0 }.when(wrong)?;
    let in_turn = t.phase == Phase::Receiving && context == t.current;
    Refusal::Status { status: 7, ext: 1 }.when(!in_turn)?;
    Refusal::Status { status: 3, ext: 0 }.when(offset != t.received)
}
