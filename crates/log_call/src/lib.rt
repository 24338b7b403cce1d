// A call's record of a log: whether it is good, and the call that it holds.
#![tactic(auto)]

ghost use Rattle.std.specs.Prelude.{◌≡◌, length};
ghost use Rattle.std.specs.Prelude.{if◌then◌else◌};
ghost use Rattle.rules.specs.Log.{record_size, named_in, host_in, good_call};
ghost use Rattle.rules.specs.declared.Entry.TheVariants.{Bad};
ghost use Rattle.log_call.specs.Call.{call_entry};

use bytes_numbers::FromBytes;
use rules::{Entry, LONGEST_REQUEST};

// The module, which the host byte's high four bits name.
pub fn named_in(bytes: &[u8]) -> u8
    requires { length bytes.now ≡ record_size }
    ensures { result ≡ named_in bytes.now }
{
    u8::read(bytes, 1) / 16
}

// The host, in its low four bits.
pub fn host_in(bytes: &[u8]) -> u8
    requires { length bytes.now ≡ record_size }
    ensures { result ≡ host_in bytes.now }
{
    u8::read(bytes, 1) % 16
}

// The padding is looked at last, and only where the fields before it are good.
fn good_call(bytes: &[u8]) -> bool
    requires { length bytes.now ≡ record_size }
    ensures { result ≡ good_call bytes.now }
{
    let size = u16::read(bytes, 6);
    matches!(host_in(bytes), 1..=4)
        && named_in(bytes) <= 1
        && size <= LONGEST_REQUEST
        && bytes_base::all_zero(&bytes[8 + size as usize..])
}

pub fn decode_call(bytes: &[u8]) -> Entry
    requires { length bytes.now ≡ record_size }
    ensures { result ≡ (if good_call bytes.now then call_entry bytes.now else Bad) }
{
    if !good_call(bytes) {
        return Entry::Bad;
    }
    Entry::Call {
        named: named_in(bytes),
        host: host_in(bytes),
        revision: u16::read(bytes, 2),
        function: u16::read(bytes, 4),
        length: u16::read(bytes, 6),
    }
}
