// What an accepted call changes: the part of its module's record that its function works on, the number of contexts given out, and the area of a Send.
#![tactic(auto)]

ghost use Rattle.std.specs.Prelude.{◌≡◌, Bool, length};
ghost use Rattle.rules.specs.Numbers.{area_size};
ghost use Rattle.rules.specs.With.{◌with_transfer◌, ◌with_thresholds◌, ◌with_security◌};
ghost use Rattle.rules.specs.Record.{module_of, renewed};
ghost use Rattle.rules.specs.Module.{call_of, change};
ghost use Rattle.call_changes.specs.Acceptable.{Acceptable};

use call_table::Asked;
use rules::{Device, Function, Security, Thresholds, Transfer};

// The module's record after a call, and the contexts given out then.
#[derive(Drop)]
pub struct Changed {
    pub device: Device,
    pub given: u32,
}

// One part of the record changed, and the others as they were.
fn with_transfer(d: Device, transfer: Transfer, given: u32) -> Changed
    ensures { result ≡ record { device = d with_transfer transfer; given = given } }
{
    let device = Device { transfer, ..d };
    Changed { device, given }
}

// With the trips byte that they give.
fn with_thresholds(d: Device, thresholds: Thresholds, given: u32) -> Changed
    ensures { result ≡ record { device = renewed (d with_thresholds thresholds); given = given } }
{
    let trips = health_trips::trips(thresholds, d.reading);
    let device = Device {
        thresholds,
        trips,
        ..d
    };
    Changed { device, given }
}

fn with_security(d: Device, security: Security, given: u32) -> Changed
    ensures { result ≡ record { device = d with_security security; given = given } }
{
    let device = Device { security, ..d };
    Changed { device, given }
}

// The other module has no part in it.
pub fn change(d: Device, given: u32, area: &mut [u8], asked: &Asked) -> Changed
    requires area_len { length area.old ≡ area_size }
    requires acceptable { Acceptable d area.old given (call_of asked.now.function asked.now.revision asked.now.request.now) }
    ensures { (taken : Bool) → module_of result.device area.new result.given taken ≡ change (module_of d area.old given taken) (call_of asked.now.function asked.now.revision asked.now.request.now) }
{
    let request = asked.request;
    match asked.function {
        Function::Start => with_transfer(d, transfer_changes::start(d.transfer, given), given + 1),
        Function::Send => with_transfer(
            d,
            transfer_changes::send(d.transfer, area, request),
            given,
        ),
        Function::Finish => with_transfer(d, transfer_changes::finish(d.transfer, request), given),
        Function::SetThreshold => with_thresholds(
            d,
            threshold_changes::set(d.thresholds, request),
            given,
        ),
        Function::SetPassphrase => with_security(
            d,
            security_changes::set_passphrase(d.security, &request[32..]),
            given,
        ),
        Function::Disable => with_security(d, security_changes::disable(d.security), given),
        Function::Unlock => with_security(d, security_changes::unlock(d.security), given),
        Function::Freeze => with_security(d, security_changes::freeze(d.security), given),
        _ => Changed { device: d, given },
    }
}
