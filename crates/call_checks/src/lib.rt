// Order: R1, R2, R5, R3, status 1, request length, then each function's checks as listed.
#![tactic(auto)]

ghost use Rattle.std.specs.Prelude.{◌≡◌, List, [], ◌∷◌, ℕ};
ghost use Rattle.rules.specs.Record.{whole_of, module_of, standing};
ghost use Rattle.rules.specs.Refusals.{verdict};
ghost use Rattle.rules.specs.Table.{fits?, served_check, length_check};
ghost use Rattle.rules.specs.Module.{call_of, checks};
ghost use Rattle.rules.specs.Cabinet.{gate_checks, call_checks};

use call_table::{Asked, Call};
use rules::{ANSWER_ROOM, Cabinet, Device, Function, Refusal, RequestLength, Row, Verdict};

// The request has the row's length.
fn fits(row: Row, request: &[u8]) -> bool
    ensures { result ≡ fits? row request.now }
{
    match row.request {
        RequestLength::Exactly(size) => request.len() == size,
        RequestLength::AtLeast(size) => size <= request.len(),
    }
}

// Status 1, then the request's length.
#[tactic(auto, unfolding(rules::specs::Refusals::verdict))]
fn judge_table(call: &Call) -> Verdict
    ensures { result ≡ verdict (served_check call.now.revision call.now.index ∷ length_check call.now.index call.now.request.now ∷ []) }
{
    let served = call.row.since as u64 <= call.revision && call.revision <= 2;
    Refusal::Status { status: 1, ext: 0 }.when(!served && call.index != 0)?;
    Refusal::Status { status: 3, ext: 0 }.when(!fits(call.row, call.request))
}

// R1, R2, R5, R3, status 1, request length.
#[tactic(auto, unfolding(rules::specs::Refusals::verdict))]
fn judge_gate(c: Cabinet, area: &[u8], call: &Call, answer: &[u8]) -> Verdict
    ensures { result ≡ verdict (gate_checks (whole_of c area.now) call.now.named call.now.revision call.now.index call.now.request.now answer.now) }
{
    Refusal::R { number: 1 }.when(answer.len() < ANSWER_ROOM)?;
    cabinet_record::judge_event(c, area, call.named)?;
    judge_table(call)
}

// The function's own checks, which the area has no part in.
#[tactic(auto, using(rules::proofs::page::Told::judged), unfolding(rules::specs::Refusals::verdict))]
fn judge_function(d: Device, given: u32, taken: bool, asked: &Asked) -> Verdict
    ensures { (area : List ℕ) → result ≡ verdict (checks (module_of d area given taken) (call_of asked.now.function asked.now.revision asked.now.request.now)) }
{
    let request = asked.request;
    match asked.function {
        Function::Start => transfer_start_checks::judge_start(d.transfer, given, taken),
        Function::Send => transfer_send_checks::judge_send(d.transfer, request),
        Function::Finish => transfer_finish_checks::judge_finish(d.transfer, request),
        Function::Query => transfer_finish_checks::judge_query(d.transfer, request),
        Function::SetThreshold => threshold_checks::judge_set(request),
        Function::SetPassphrase => security_checks::judge_set_passphrase(
            d.security,
            &request[..32],
        ),
        Function::Disable => security_checks::judge_disable(d.security, request),
        Function::Unlock => security_checks::judge_unlock(d.security, request),
        Function::Freeze => security_checks::judge_freeze(d.security),
        _ => Ok(()),
    }
}

// Those of the module that the call names: the area is taken where the other has it.
fn judge_named(c: Cabinet, named: u64, asked: &Asked) -> Verdict
    ensures { (area : List ℕ) → result ≡ verdict (checks (standing named (whole_of c area)) (call_of asked.now.function asked.now.revision asked.now.request.now)) }
{
    let own = cabinet_record::own(c, named);
    let taken = device_phase::has_area(cabinet_record::other(c, named).transfer);
    judge_function(own, c.contexts, taken, asked)
}

// All checks of a call.
pub fn judge(c: Cabinet, area: &[u8], call: &Call, answer: &[u8]) -> Verdict
    ensures { result ≡ verdict (call_checks (whole_of c area.now) call.now.named call.now.revision call.now.index call.now.request.now answer.now) }
{
    judge_gate(c, area, call, answer)?;
    let asked = Asked {
        function: call.row.function,
        revision: call.revision,
        request: call.request,
    };
    judge_named(c, call.named, &asked)
}
