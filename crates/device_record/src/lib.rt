// A module's device record in code: fresh, one wrong attempt more, the trips byte renewed, and a record from before taken over.
#![tactic(auto)]

ghost use Rattle.std.specs.Prelude.{◌≡◌, ◌≤◌};
ghost use Rattle.rules.specs.Numbers.{attempt_limit};
ghost use Rattle.rules.specs.Record.{fresh, renewed};
ghost use Rattle.rules.specs.Adopt.{idle_again, adopted};
ghost use Rattle.rules.specs.Refusals.{one_attempt_more};

use rules::{Device, Phase, Reading, Security, Thresholds, Transfer};

pub fn fresh() -> Device
    ensures { result ≡ fresh }
{
    Device {
        transfer: Transfer {
            phase: Phase::Idle,
            current: 0,
            received: 0,
            ticks: 0,
            running: 1,
            staged: 0,
            reason: 0,
            faulty: 0,
        },
        thresholds: Thresholds {
            enable: 0,
            spare: 0,
            media: 0,
            controller: 0,
        },
        security: Security {
            enabled: false,
            locked: false,
            frozen: false,
            attempts: 0,
            passphrase: [0u8; 32],
        },
        reading: Reading {
            spare: 0,
            media: 0,
            controller: 0,
        },
        trips: 0,
    }
}

// One wrong attempt more. A possible record's attempts leave room for it.
pub fn one_attempt_more(d: Device) -> Device
    requires { d.security.attempts ≤ attempt_limit }
    ensures { result ≡ one_attempt_more d }
{
    let security = Security {
        attempts: d.security.attempts + 1,
        ..d.security
    };
    Device { security, ..d }
}

// With the trips byte that its thresholds and its reading give.
pub fn renewed(d: Device) -> Device
    ensures { result ≡ renewed d }
{
    let trips = health_trips::trips(d.thresholds, d.reading);
    Device { trips, ..d }
}

fn idle_again(d: Device) -> Device
    ensures { result ≡ idle_again d }
{
    let transfer = Transfer {
        phase: Phase::Idle,
        received: 0,
        ..d.transfer
    };
    Device { transfer, ..d }
}

// What a record from before is taken over as.
pub fn adopted(d: Device) -> Device
    ensures { result ≡ adopted d }
{
    let possible = device_possible::possible_alone(d);
    let parts = device_possible::possible_parts_alone(d);
    if possible {
        return d;
    }
    if parts {
        return renewed(d);
    }
    renewed(idle_again(d))
}
