// The cabinet's record in code (document 02, T-09): fresh, and taken over from a module that was alone; possible; one module's record, the other's, and a module put
// back in its place; the checks that every event makes, and what a status leaves.
#![tactic(auto)]

ghost use Rattle.std.specs.Prelude.{◌≡◌, [], ◌∷◌, ◌≤◌};
ghost use Rattle.rules.specs.Numbers.{attempt_limit};
ghost use Rattle.rules.specs.Record.{fresh_cabinet, possible_cabinet, whole_of, device_of, other_of, with_device_at};
ghost use Rattle.rules.specs.Adopt.{adopted_cabinet};
ghost use Rattle.rules.specs.declared.Refusal.TheVariants.{R};
ghost use Rattle.rules.specs.Refusals.{◌gives◌, verdict, R2Check, R3Check, tick_checks, event_checks, record_left};

use rules::{AREA_SIZE, Cabinet, Device, Refusal, Verdict};

pub fn fresh() -> Cabinet
    ensures { result ≡ fresh_cabinet }
{
    Cabinet {
        contexts: 0,
        first: device_record::fresh(),
        second: device_record::fresh(),
    }
}

// What a record of one module alone is taken over as.
pub fn adopted(d: Device) -> Cabinet
    ensures { result ≡ adopted_cabinet d }
{
    Cabinet {
        contexts: d.transfer.current,
        first: device_record::adopted(d),
        second: device_record::fresh(),
    }
}

#[tactic(auto, unfolding(rules::specs::Record::possible_cabinet))]
fn possible(c: Cabinet) -> bool
    ensures { result ≡ possible_cabinet c }
{
    device_possible::possible(c.first, c.contexts)
        && device_possible::possible(c.second, c.contexts)
        && !(device_phase::has_area(c.first.transfer) && device_phase::has_area(c.second.transfer))
}

// The record of the module that an event names. A number over 1 is R5 before anything is asked of it. By `if` and not `match`: the compiler then sees that what was put
// back is what is taken again, and a call from C takes a tenth less.
pub fn own(c: Cabinet, named: u64) -> Device
    ensures { result ≡ device_of named c }
{
    if named == 0 {
        return c.first;
    }
    c.second
}

pub fn other(c: Cabinet, named: u64) -> Device
    ensures { result ≡ other_of named c }
{
    if named == 0 {
        return c.second;
    }
    c.first
}

// The module's new record in its place.
pub fn with_device(c: Cabinet, named: u64, d: Device) -> Cabinet
    ensures { result ≡ with_device_at named d c }
{
    if named == 0 {
        return Cabinet { first: d, ..c };
    }
    Cabinet { second: d, ..c }
}

// R2, R5 and R3.
#[tactic(auto, unfolding(rules::specs::Refusals::verdict))]
fn judge(c: Cabinet, area: &[u8], unknown: bool) -> Verdict
    ensures { result ≡ verdict (R2Check area.now ∷ (unknown gives R 5) ∷ R3Check c ∷ []) }
{
    Refusal::R { number: 2 }.when(area.len() != AREA_SIZE)?;
    Refusal::R { number: 5 }.when(unknown)?;
    Refusal::R { number: 3 }.when(!possible(c))
}

// A tick names no module, and gives R2 and R3 only.
#[tactic(auto, unfolding(rules::specs::Refusals::verdict))]
pub fn judge_tick(c: Cabinet, area: &[u8]) -> Verdict
    ensures { result ≡ verdict (tick_checks (whole_of c area.now)) }
{
    judge(c, area, false)
}

// Every other event names its module.
pub fn judge_event(c: Cabinet, area: &[u8], named: u64) -> Verdict
    ensures { result ≡ verdict (event_checks (whole_of c area.now) named) }
{
    judge(c, area, 1 < named)
}

// What a refusal by a status leaves: the record as it was, but for status 11, which adds one to the attempts of the module that was called.
pub fn left(status: u16, named: u64, c: Cabinet) -> Cabinet
    requires { (device_of named c).security.attempts ≤ attempt_limit }
    ensures { result ≡ record_left status named c }
{
    if status == 11 {
        with_device(c, named, device_record::one_attempt_more(own(c, named)))
    } else {
        c
    }
}
