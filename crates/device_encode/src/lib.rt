// A module's device record written as 128 bytes: crates/device_bytes has the places, crates/device_decode reads them back.
// Every byte is written once, in the order of the places, and none is cleared first.
#![tactic(auto)]

ghost use Rattle.std.specs.Prelude.{◌≡◌, ◌++◌, length};
ghost use Rattle.rules.specs.Bytes.{splice, zeros};
ghost use Rattle.device_bytes.specs.Encoding.{encoded_size, state_bytes, first_bytes, transfer_bytes, encoded_thresholds, fault_bytes, reading_bytes, encode_of};

use bytes_base::ToBytes;
use rules::{Device, Reading, Security, Thresholds, Transfer};

// How many bytes a record has.
pub const ENCODED_SIZE: usize = 128;

fn put_state(s: Security, out: &mut [u8])
    requires { length out.old ≡ encoded_size }
    ensures { out.new ≡ splice 1 (state_bytes s) out.old }
{
    (s.enabled as u8).put(out, 1);
    (s.locked as u8).put(out, 2);
    (s.frozen as u8).put(out, 3);
    s.attempts.put(out, 4);
}

fn put_first(d: Device, out: &mut [u8])
    requires { length out.old ≡ encoded_size }
    ensures { out.new ≡ splice 0 (first_bytes d) out.old }
{
    let t = d.transfer;
    u8::from(t.phase).put(out, 0);
    put_state(d.security, out);
    t.ticks.put(out, 5);
    d.thresholds.enable.put(out, 6);
}

fn put_transfer(t: Transfer, out: &mut [u8])
    requires { length out.old ≡ encoded_size }
    ensures { out.new ≡ splice 8 (transfer_bytes t) out.old }
{
    t.current.put(out, 8);
    t.received.put(out, 12);
    t.running.put(out, 16);
    t.staged.put(out, 24);
}

fn put_thresholds(h: Thresholds, out: &mut [u8])
    requires { length out.old ≡ encoded_size }
    ensures { out.new ≡ splice 32 (encoded_thresholds h) out.old }
{
    h.spare.put(out, 32);
    bytes_base::put_zeros(out, 33, 1);
    h.media.put(out, 34);
    h.controller.put(out, 36);
}

fn put_fault(t: Transfer, out: &mut [u8])
    requires { length out.old ≡ encoded_size }
    ensures { out.new ≡ splice 38 (fault_bytes t) out.old }
{
    t.reason.put(out, 38);
    t.faulty.put(out, 39);
}

fn put_reading(r: Reading, trips: u8, out: &mut [u8])
    requires { length out.old ≡ encoded_size }
    ensures { out.new ≡ splice 40 (reading_bytes r trips) out.old }
{
    r.spare.put(out, 40);
    trips.put(out, 41);
    r.media.put(out, 42);
    r.controller.put(out, 44);
}

fn put_passphrase(s: Security, out: &mut [u8])
    requires { length out.old ≡ encoded_size }
    ensures { out.new ≡ splice 64 (s.passphrase ++ zeros 32) out.old }
{
    bytes_base::copy_at(out, 64, &s.passphrase);
    bytes_base::put_zeros(out, 96, 32);
}

// Writes the record's bytes over 128 bytes, straight into where they are kept.
pub fn put(d: Device, out: &mut [u8])
    requires { length out.old ≡ encoded_size }
    ensures { out.new ≡ encode_of d }
{
    put_first(d, out);
    put_transfer(d.transfer, out);
    put_thresholds(d.thresholds, out);
    put_fault(d.transfer, out);
    put_reading(d.reading, d.trips, out);
    bytes_base::put_zeros(out, 46, 18);
    put_passphrase(d.security, out);
}

pub fn encode(d: Device) -> [u8; ENCODED_SIZE]
    ensures { result ≡ encode_of d }
{
    let mut out = [0u8; ENCODED_SIZE];
    put(d, &mut out);
    out
}
