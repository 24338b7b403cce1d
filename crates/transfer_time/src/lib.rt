// Document 01, "A firmware transfer": what a tick and a power cycle change in the transfer's part of the record.
#![tactic(auto)]

ghost use Rattle.std.specs.Prelude.{◌≡◌, ◌≤◌, length};
ghost use Rattle.rules.specs.Transfer.{tick_change, after_verifying, transfer_power, running_after};

use rules::{FirstFault, Image, Phase, Transfer};

fn verified(t: Transfer, image: Image) -> Transfer
    ensures { result ≡ after_verifying t image }
{
    match image {
        Ok(version) => Transfer {
            phase: Phase::Staged,
            ticks: 0,
            staged: version,
            ..t
        },
        Err(FirstFault { reason, number }) => Transfer {
            phase: Phase::Failed,
            ticks: 0,
            reason: u8::from(reason),
            faulty: number,
            ..t
        },
    }
}

pub fn tick(t: Transfer, area: &[u8]) -> Transfer
    requires { t.received ≤ length area.now }
    ensures { result ≡ tick_change t area.now }
{
    if t.phase != Phase::Verifying {
        return t;
    }
    if 1 < t.ticks {
        return Transfer {
            ticks: t.ticks - 1,
            ..t
        };
    }
    verified(t, image_check::image(&area[..t.received as usize]))
}

fn running_after(t: Transfer) -> u64
    ensures { result ≡ running_after t }
{
    if t.phase == Phase::Staged {
        t.staged
    } else {
        t.running
    }
}

pub fn power(t: Transfer) -> Transfer
    ensures { result ≡ transfer_power t }
{
    Transfer {
        phase: Phase::Idle,
        received: 0,
        ticks: 0,
        running: running_after(t),
        staged: 0,
        reason: 0,
        faulty: 0,
        ..t
    }
}
