// The checks of Set Passphrase, Disable, Unlock and Freeze: the security state first, the passphrase last.
#![tactic(auto)]

ghost use Rattle.std.specs.Prelude.{◌≡◌};
ghost use Rattle.rules.specs.Bytes.{same?};
ghost use Rattle.rules.specs.Refusals.{verdict};
ghost use Rattle.rules.specs.Security.{Freeze, passphrase_checks, set_passphrase_checks, disable_checks, unlock_checks, security_checks};

use bytes_numbers::FromBytes;
use rules::{ATTEMPT_LIMIT, Refusal, Security, Verdict};

// The three checks of a call that carries a passphrase. Whether it is wrong is looked at last, so that a frozen module counts no attempts.
#[tactic(auto, unfolding(rules::specs::Refusals::verdict))]
fn judge_passphrase(s: Security, forbidden: bool, wrong: bool) -> Verdict
    ensures { result ≡ verdict (passphrase_checks s forbidden wrong) }
{
    Refusal::Status { status: 10, ext: 0 }.when(s.frozen || s.attempts == ATTEMPT_LIMIT)?;
    Refusal::Status { status: 10, ext: 0 }.when(forbidden)?;
    Refusal::Status { status: 11, ext: 0 }.when(wrong)
}

// 32 bytes are the same, by four numbers and not byte by byte. No number ends it early, so that the time it takes tells nothing of a passphrase.
fn same_numbers(a: &[u8; 32], b: &[u8; 32]) -> bool
    ensures { result ≡ same? a.now b.now }
{
    (u64::read(a, 0) == u64::read(b, 0))
        & (u64::read(a, 8) == u64::read(b, 8))
        & (u64::read(a, 16) == u64::read(b, 16))
        & (u64::read(a, 24) == u64::read(b, 24))
}

// The passphrase given is the one kept. It is small enough to be compiled into its callers, so that the record need not be put into memory for it.
fn same_passphrase(passphrase: [u8; 32], given: &[u8]) -> bool
    ensures { result ≡ same? given.now passphrase }
{
    match given.as_array() {
        Some(given) => same_numbers(given, &passphrase),
        None => false,
    }
}

pub fn judge_set_passphrase(s: Security, given: &[u8]) -> Verdict
    ensures { result ≡ verdict (set_passphrase_checks s given.now) }
{
    let kept = s.passphrase;
    let same = same_passphrase(kept, given);
    judge_passphrase(s, s.locked, s.enabled & !same)
}

pub fn judge_disable(s: Security, given: &[u8]) -> Verdict
    ensures { result ≡ verdict (disable_checks s given.now) }
{
    let kept = s.passphrase;
    let same = same_passphrase(kept, given);
    judge_passphrase(s, !(s.enabled & !s.locked), !same)
}

pub fn judge_unlock(s: Security, given: &[u8]) -> Verdict
    ensures { result ≡ verdict (unlock_checks s given.now) }
{
    let kept = s.passphrase;
    let same = same_passphrase(kept, given);
    judge_passphrase(s, !(s.enabled & s.locked), !same)
}

// Freeze carries no passphrase: nothing but the frozen state and the limit stands against it.
#[tactic(auto, unfolding(rules::specs::Refusals::verdict))]
pub fn judge_freeze(s: Security) -> Verdict
    ensures { result ≡ verdict (security_checks s Freeze) }
{
    judge_passphrase(s, false, false)
}
