// Document 01, "A firmware transfer": what an accepted Start, Send and Finish change, in the transfer's part of the record and in the staging area.
#![tactic(auto)]

ghost use Rattle.std.specs.Prelude.{◌≡◌, Bool, ℕ, ◌≤◌, ◌<◌, length, Ok};
ghost use Rattle.rules.specs.Bytes.{splice};
ghost use Rattle.rules.specs.Numbers.{area_size, last_context};
ghost use Rattle.rules.specs.Refusals.{verdict};
ghost use Rattle.rules.specs.Transfer.{Start, send_of, finish_of, transfer_checks, transfer_change};
ghost use Rattle.transfer_changes.specs.Sent.{Sent};

use bytes_numbers::FromBytes;
use rules::{Phase, Transfer, VERIFICATION};

// The next number is given: one more than both modules were given so far.
pub fn start(t: Transfer, given: u32) -> Transfer
    requires { given < last_context }
    ensures { result ≡ transfer_change t given Start }
{
    Transfer {
        phase: Phase::Receiving,
        current: given + 1,
        received: 0,
        reason: 0,
        faulty: 0,
        ..t
    }
}

// A piece, to the front of a part of the area.
fn put_piece(part: &mut [u8], piece: &[u8])
    requires { (length piece.now ≤ length part.old) × (length piece.now ≤ 512) }
    ensures { part.new ≡ splice 0 piece.now part.old }
{
    bytes_base::copy(part, piece);
}

// The piece, which starts at byte 12 of the request, goes into the part of the area from offset to offset plus length.
pub fn send(t: Transfer, area: &mut [u8], request: &[u8]) -> Transfer
    requires area_len { length area.old ≡ area_size }
    requires in_bounds { 12 ≤ length request.now }
    requires by_index { (given : ℕ) (taken : Bool) → verdict (transfer_checks t given taken (send_of request.now)) ≡ Ok tt }
    ensures { Sent t (send_of request.now) area.old result area.new }
{
    let offset = u32::read(request, 4) as usize;
    let size = u32::read(request, 8);
    let end = offset + size as usize;
    put_piece(&mut area[offset..end], &request[12..]);
    let received = t.received + size;
    Transfer { received, ..t }
}

pub fn finish(t: Transfer, request: &[u8]) -> Transfer
    requires { length request.now ≡ 8 }
    ensures { (given : ℕ) → result ≡ transfer_change t given (finish_of request.now) }
{
    if u8::read(request, 0) == 0 {
        Transfer {
            phase: Phase::Verifying,
            ticks: VERIFICATION,
            ..t
        }
    } else {
        Transfer {
            phase: Phase::Idle,
            received: 0,
            ..t
        }
    }
}
