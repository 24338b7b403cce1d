// The cabinet: one call, tick, power cycle or health reading on its record and a lent staging area. These are the entry points; none asks anything of its caller.
#![tactic(auto)]

ghost use Rattle.std.specs.Prelude.{◌≡◌, Ok, [], ◌≤◌, length};
ghost use Rattle.rules.specs.Numbers.{area_size, answer_room};
ghost use Rattle.rules.specs.With.{◌with_contexts◌};
ghost use Rattle.rules.specs.Record.{fresh_cabinet, whole_of, with_device_at, standing};
ghost use Rattle.rules.specs.Refusals.{verdict};
ghost use Rattle.rules.specs.Module.{call_of, checks, device_ticked, device_powered, device_keeping};
ghost use Rattle.rules.specs.Cabinet.{call_result, tick_result, power_result, reading_checks, reading_result};
ghost use Rattle.cabinet.specs.Promise.{Promised, Served};

use call_changes::Changed;
use call_table::{Asked, Call};
use rules::{Cabinet, Device, Reading, Refusal, Reply, Verdict};

// What comes back by value: the new record, and the reply.
#[derive(Drop)]
pub struct Outcome {
    pub cabinet: Cabinet,
    pub reply: Reply,
}

pub fn fresh() -> Cabinet
    ensures { result ≡ fresh_cabinet }
{
    cabinet_record::fresh()
}

// The module back in its place, and the shared number after its call.
fn in_place(c: Cabinet, named: u64, changed: Changed) -> Cabinet
    ensures { result ≡ (with_device_at named changed.device c with_contexts changed.given) }
{
    Cabinet {
        contexts: changed.given,
        ..cabinet_record::with_device(c, named, changed.device)
    }
}

// An accepted call: the answer of its module, and then the change.
fn serve(c: Cabinet, area: &mut [u8], named: u64, asked: &Asked, answer: &mut [u8]) -> Cabinet
    requires answer_room_in_bounds { (answer_room ≤ length answer.old) × (length area.old ≡ area_size) }
    requires request_value { verdict (checks (standing named (whole_of c area.old)) (call_of asked.now.function asked.now.revision asked.now.request.now)) ≡ Ok tt }
    ensures { Served (whole_of c area.old) named (call_of asked.now.function asked.now.revision asked.now.request.now) answer.old (whole_of result area.new) answer.new }
{
    let own = cabinet_record::own(c, named);
    call_answers::put_accepted(own, c.contexts, asked.function, asked.revision, answer);
    let changed = call_changes::change(own, c.contexts, area, asked);
    in_place(c, named, changed)
}

// The checks in the page's order; then the answer and the change, or what the refusal leaves.
pub fn call(
    c: Cabinet,
    area: &mut [u8],
    named: u64,
    revision: u64,
    function: u64,
    request: &[u8],
    answer: &mut [u8],
) -> Outcome
    ensures { Promised (call_result (whole_of c area.old) named revision function request.now answer.old) result area.new answer.new }
{
    let row = call_table::look_up(function);
    let made = Call {
        named,
        revision,
        index: function,
        row,
        request,
    };
    let verdict = call_checks::judge(c, area, &made, answer);
    match verdict {
        Ok(()) => {
            let asked = Asked {
                function: row.function,
                revision,
                request,
            };
            let after = serve(c, area, named, &asked, answer);
            result(after, verdict, row.answer)
        }
        Err(refusal) => match refusal {
            Refusal::R { number: _ } => result(c, verdict, 0),
            Refusal::Status { status, ext } => {
                let length = call_answers::status_length(status, row.answer);
                call_answers::put_status(answer, status, ext, length);
                result(cabinet_record::left(status, named, c), verdict, length)
            }
        },
    }
}

fn result(cabinet: Cabinet, verdict: Verdict, length: usize) -> Outcome
    ensures { result ≡ record { cabinet = cabinet; reply = record { verdict = verdict; length = length } } }
{
    Outcome {
        cabinet,
        reply: Reply { verdict, length },
    }
}

// A module's record after a tick.
fn ticked(d: Device, area: &[u8]) -> Device
    requires { d.transfer.received ≤ length area.now }
    ensures { result ≡ device_ticked area.now d }
{
    Device {
        transfer: transfer_time::tick(d.transfer, area),
        ..d
    }
}

// It reaches both modules.
pub fn tick(c: Cabinet, area: &[u8]) -> Outcome
    ensures { Promised (tick_result (whole_of c area.now)) result area.now [] }
{
    let verdict = cabinet_record::judge_tick(c, area);
    match verdict {
        Ok(()) => {
            let both = Cabinet {
                first: ticked(c.first, area),
                second: ticked(c.second, area),
                ..c
            };
            result(both, verdict, 0)
        }
        Err(_) => result(c, verdict, 0),
    }
}

// A module's record after a power cycle.
fn powered(d: Device) -> Device
    ensures { result ≡ device_powered d }
{
    Device {
        transfer: transfer_time::power(d.transfer),
        security: security_changes::power(d.security),
        ..d
    }
}

// It reaches the module that it names.
pub fn power(c: Cabinet, area: &[u8], named: u64) -> Outcome
    ensures { Promised (power_result (whole_of c area.now) named) result area.now [] }
{
    let verdict = cabinet_record::judge_event(c, area, named);
    match verdict {
        Ok(()) => {
            let started = powered(cabinet_record::own(c, named));
            result(cabinet_record::with_device(c, named, started), verdict, 0)
        }
        Err(_) => result(c, verdict, 0),
    }
}

// R2, R5, R3, R4.
#[tactic(auto, unfolding(rules::specs::Refusals::verdict))]
fn judge_reading(c: Cabinet, area: &[u8], named: u64, new: Reading) -> Verdict
    ensures { result ≡ verdict (reading_checks (whole_of c area.now) named new) }
{
    cabinet_record::judge_event(c, area, named)?;
    Refusal::R { number: 4 }.when(100 < new.spare)
}

// A module's record with the new reading, and the trips byte that it gives.
fn keeping(d: Device, new: Reading) -> Device
    ensures { result ≡ device_keeping new d }
{
    device_record::renewed(Device { reading: new, ..d })
}

// The module that it names keeps the new reading.
pub fn reading(c: Cabinet, area: &[u8], named: u64, new: Reading) -> Outcome
    ensures { Promised (reading_result (whole_of c area.now) named new) result area.now [] }
{
    let verdict = judge_reading(c, area, named, new);
    match verdict {
        Ok(()) => {
            let kept = keeping(cabinet_record::own(c, named), new);
            result(cabinet_record::with_device(c, named, kept), verdict, 0)
        }
        Err(_) => result(c, verdict, 0),
    }
}
