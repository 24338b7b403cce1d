// Document 01, "The device record": whether a module's record is possible, given how many contexts both modules were given (document 02, T-09): each of its four
// parts by itself, and its trips byte. And whether it was possible when the module was alone.
#![tactic(auto)]

ghost use Rattle.std.specs.Prelude.{◌≡◌};
ghost use Rattle.rules.specs.Bytes.{zeros?};
ghost use Rattle.rules.specs.Adopt.{no_reading, possible_alone, possible_parts_alone, possible_before, kept_before};
ghost use Rattle.rules.specs.Record.{possible, possible_current, possible_numbers, possible_fault, possible_transfer, possible_security, possible_thresholds, possible_reading, possible_parts, possible_trips};

use bytes_numbers::FromBytes;
use rules::{AREA_SIZE, ATTEMPT_LIMIT, Device, Phase, Reading, Security, Thresholds, Transfer};

fn possible_current(t: Transfer, given: u32) -> bool
    ensures { result ≡ possible_current given t }
{
    let idle = matches!(t.phase, Phase::Idle);
    (t.current <= given) & (idle | (1 <= t.current))
}

// What a phase allows, as limits: a limit takes one comparison, where a clause on the phase takes two tests.
fn possible_numbers(t: Transfer) -> bool
    ensures { result ≡ possible_numbers t }
{
    let begun = !matches!(t.phase, Phase::Idle) as u32;
    let verifying = matches!(t.phase, Phase::Verifying);
    let staged = matches!(t.phase, Phase::Staged);
    (t.received <= begun * AREA_SIZE as u32)
        & (verifying as u8 <= t.ticks)
        & (t.ticks <= verifying as u8 * 8)
        & (staged | (t.staged == 0))
}

fn possible_fault(t: Transfer) -> bool
    ensures { result ≡ possible_fault t }
{
    let failed = matches!(t.phase, Phase::Failed);
    (t.reason <= 5) & ((1 <= t.reason) == failed) & (t.faulty <= failed as u8 * 127)
}

#[tactic(auto, unfolding(rules::specs::Record::possible_transfer))]
fn possible_transfer(t: Transfer, given: u32) -> bool
    ensures { result ≡ possible_transfer given t }
{
    possible_current(t, given) & possible_numbers(t) & possible_fault(t)
}

// 32 bytes are zero, by four words, and not byte by byte: a record that is judged stays whole words.
fn all_zero(passphrase: &[u8; 32]) -> bool
    ensures { result ≡ zeros? passphrase.now }
{
    (u64::read(passphrase, 0) == 0)
        & (u64::read(passphrase, 8) == 0)
        & (u64::read(passphrase, 16) == 0)
        & (u64::read(passphrase, 24) == 0)
}

#[tactic(auto, unfolding(rules::specs::Record::possible_security))]
fn possible_security(s: Security) -> bool
    ensures { result ≡ possible_security s }
{
    let zero = all_zero(&s.passphrase);
    (!s.locked | s.enabled) & (s.enabled | zero) & (s.attempts <= ATTEMPT_LIMIT)
}

#[tactic(auto, unfolding(rules::specs::Record::possible_thresholds))]
fn possible_thresholds(h: Thresholds) -> bool
    ensures { result ≡ possible_thresholds h }
{
    (h.enable < 8) & (h.spare <= 100)
}

#[tactic(auto, unfolding(rules::specs::Record::possible_reading))]
fn possible_reading(h: Reading) -> bool
    ensures { result ≡ possible_reading h }
{
    h.spare <= 100
}

#[tactic(auto, unfolding(rules::specs::Record::possible_parts))]
fn possible_parts(d: Device, given: u32) -> bool
    ensures { result ≡ possible_parts given d }
{
    possible_transfer(d.transfer, given)
        & possible_security(d.security)
        & possible_thresholds(d.thresholds)
        & possible_reading(d.reading)
}

#[tactic(auto, unfolding(rules::specs::Record::possible_trips))]
fn possible_trips(d: Device) -> bool
    ensures { result ≡ possible_trips d }
{
    d.trips == health_trips::trips(d.thresholds, d.reading)
}

#[tactic(auto, unfolding(rules::specs::Record::possible))]
pub fn possible(d: Device, given: u32) -> bool
    ensures { result ≡ possible given d }
{
    possible_parts(d, given) & possible_trips(d)
}

// Alone it had been given as many as its current context says.
pub fn possible_alone(d: Device) -> bool
    ensures { result ≡ possible_alone d }
{
    possible(d, d.transfer.current)
}

pub fn possible_parts_alone(d: Device) -> bool
    ensures { result ≡ possible_parts_alone d }
{
    possible_parts(d, d.transfer.current)
}

fn no_reading(h: Reading) -> bool
    ensures { result ≡ no_reading h }
{
    (h.spare == 0) & (h.media == 0) & (h.controller == 0)
}

// Whether a record was possible before faults and readings were kept.
#[tactic(auto, unfolding(rules::specs::Adopt::possible_before))]
fn possible_before(d: Device) -> bool
    ensures { result ≡ possible_before d }
{
    let t = d.transfer;
    let no_fault = (t.reason == 0) & (t.faulty == 0);
    (possible_current(t, t.current) & possible_numbers(t) & no_fault)
        & possible_security(d.security)
        & possible_thresholds(d.thresholds)
        & no_reading(d.reading)
}

// Whether a record was kept before the trips byte was.
#[tactic(auto, unfolding(rules::specs::Adopt::kept_before))]
pub fn kept_before(d: Device) -> bool
    ensures { result ≡ kept_before d }
{
    (d.trips == 0) & (possible_parts_alone(d) | possible_before(d))
}
