// Document 01, "Locking and passphrases": what an accepted Set Passphrase, Disable, Unlock and Freeze change, and what a power cycle does.
#![tactic(auto)]

ghost use Rattle.std.specs.Prelude.{◌≡◌, length};
ghost use Rattle.rules.specs.With.{◌with_attempts◌};
ghost use Rattle.rules.specs.Security.{set_passphrase_change, disable_change, unlock_change, freeze_change, security_power};

use rules::Security;

// A passphrase that was right sets the attempts back.
fn right(s: Security) -> Security
    ensures { result ≡ s with_attempts 0 }
{
    Security { attempts: 0, ..s }
}

pub fn set_passphrase(s: Security, new: &[u8]) -> Security
    requires { length new.now ≡ 32 }
    ensures { result ≡ set_passphrase_change s new.now }
{
    let mut passphrase = [0u8; 32];
    bytes_base::copy(&mut passphrase, new);
    let s = right(s);
    Security {
        passphrase,
        enabled: true,
        ..s
    }
}

pub fn disable(s: Security) -> Security
    ensures { result ≡ disable_change s }
{
    let s = right(s);
    Security {
        enabled: false,
        passphrase: [0u8; 32],
        ..s
    }
}

pub fn unlock(s: Security) -> Security
    ensures { result ≡ unlock_change s }
{
    let s = right(s);
    Security { locked: false, ..s }
}

pub fn freeze(s: Security) -> Security
    ensures { result ≡ freeze_change s }
{
    Security { frozen: true, ..s }
}

pub fn power(s: Security) -> Security
    ensures { result ≡ security_power s }
{
    Security {
        frozen: false,
        attempts: 0,
        locked: s.enabled,
        ..s
    }
}
