// The checks of Finish, and of Query, which asks what came of it, in the page's order. The other module has no part in them.
#![tactic(auto)]

ghost use Rattle.std.specs.Prelude.{◌≡◌, Bool, ℕ, length};
ghost use Rattle.rules.specs.Refusals.{verdict};
ghost use Rattle.rules.specs.Transfer.{finish_of, query_of, transfer_checks};

use bytes_numbers::FromBytes;
use rules::{Phase, Refusal, Transfer, Verdict};

#[tactic(auto, unfolding(rules::specs::Refusals::verdict))]
pub fn judge_finish(t: Transfer, request: &[u8]) -> Verdict
    requires { length request.now ≡ 8 }
    ensures { (given : ℕ) (taken : Bool) → result ≡ verdict (transfer_checks t given taken (finish_of request.now)) }
{
    let flag = u8::read(request, 0);
    let reserved = !bytes_base::all_zero(&request[1..4]);
    let context = u32::read(request, 4);
    Refusal::Status { status: 3, ext: 0 }.when(reserved)?;
    Refusal::Status { status: 3, ext: 0 }.when(1 < flag)?;
    Refusal::Status { status: 7, ext: 1 }.when(!device_phase::live(t, context))?;
    Refusal::Status { status: 7, ext: 2 }.when(t.phase != Phase::Receiving)
}

#[tactic(auto, unfolding(rules::specs::Refusals::verdict))]
pub fn judge_query(t: Transfer, request: &[u8]) -> Verdict
    requires { length request.now ≡ 4 }
    ensures { (given : ℕ) (taken : Bool) → result ≡ verdict (transfer_checks t given taken (query_of request.now)) }
{
    let context = u32::read(request, 0);
    Refusal::Status { status: 7, ext: 1 }.when(!device_phase::live(t, context))?;
    Refusal::Status { status: 7, ext: 4 }.when(t.phase == Phase::Receiving)?;
    Refusal::Status { status: 7, ext: 2 }.when(t.phase == Phase::Verifying)?;
    Refusal::Status { status: 7, ext: 3 }.when(t.phase == Phase::Failed)?;
    Refusal::Status { status: 6, ext: 0 }.when(t.staged == 0)
}
