// A module's device record back from bytes. Any bytes of any length decode: those that are no record, to one that is not possible.
#![tactic(auto)]

ghost use Rattle.std.specs.Prelude.{◌≡◌, take, drop};
ghost use Rattle.rules.specs.Bytes.{zeros?};
ghost use Rattle.device_bytes.specs.Encoding.{phase_of, record?, security_in, reading_in, record_of, impossible, decode_of};

use bytes_numbers::FromBytes;
use device_encode::ENCODED_SIZE;
use rules::{Device, Phase, Reading, Security, Thresholds, Transfer};

// Bytes 46 to 63 are zero, by three words, of which two share bytes 56 to 61. Tried by bytes_base::all_zero:
// the phase's test, these and those of `zero_after` take 54 instructions, and 15 by words.
fn zero_between(bytes: &[u8; ENCODED_SIZE]) -> bool
    ensures { result ≡ zeros? (take 18 (drop 46 bytes.now)) }
{
    (u64::read(bytes, 46) == 0) & (u64::read(bytes, 54) == 0) & (u64::read(bytes, 56) == 0)
}

// Bytes 96 to 127 are zero.
fn zero_after(bytes: &[u8; ENCODED_SIZE]) -> bool
    ensures { result ≡ zeros? (drop 96 bytes.now) }
{
    (u64::read(bytes, 96) == 0)
        & (u64::read(bytes, 104) == 0)
        & (u64::read(bytes, 112) == 0)
        & (u64::read(bytes, 120) == 0)
}

fn is_record(bytes: &[u8; ENCODED_SIZE]) -> bool
    ensures { result ≡ record? bytes.now }
{
    let phase = u8::read(bytes, 0);
    let enabled = u8::read(bytes, 1);
    let locked = u8::read(bytes, 2);
    let frozen = u8::read(bytes, 3);
    let unused = u8::read(bytes, 33);
    let between = zero_between(bytes);
    let after = zero_after(bytes);
    (phase <= 4) & (enabled <= 1) & (locked <= 1) & (frozen <= 1) & (unused == 0) & between & after
}

fn phase_of(n: u8) -> Phase
    ensures { result ≡ phase_of n }
{
    match n {
        0 => Phase::Idle,
        1 => Phase::Receiving,
        2 => Phase::Verifying,
        3 => Phase::Staged,
        _ => Phase::Failed,
    }
}

fn to_security(bytes: &[u8; ENCODED_SIZE]) -> Security
    ensures { result ≡ security_in bytes.now }
{
    Security {
        enabled: u8::read(bytes, 1) == 1,
        locked: u8::read(bytes, 2) == 1,
        frozen: u8::read(bytes, 3) == 1,
        attempts: u8::read(bytes, 4),
        passphrase: bytes[64..96].try_into().unwrap(),
    }
}

fn to_reading(bytes: &[u8; ENCODED_SIZE]) -> Reading
    ensures { result ≡ reading_in bytes.now }
{
    Reading {
        spare: u8::read(bytes, 40),
        media: u16::read(bytes, 42),
        controller: u16::read(bytes, 44),
    }
}

fn to_record(bytes: &[u8; ENCODED_SIZE]) -> Device
    ensures { result ≡ record_of bytes.now }
{
    let phase = phase_of(u8::read(bytes, 0));
    let transfer = Transfer {
        phase,
        current: u32::read(bytes, 8),
        received: u32::read(bytes, 12),
        ticks: u8::read(bytes, 5),
        running: u64::read(bytes, 16),
        staged: u64::read(bytes, 24),
        reason: u8::read(bytes, 38),
        faulty: u8::read(bytes, 39),
    };
    let thresholds = Thresholds {
        enable: u16::read(bytes, 6),
        spare: u8::read(bytes, 32),
        media: u16::read(bytes, 34),
        controller: u16::read(bytes, 36),
    };
    let security = to_security(bytes);
    let reading = to_reading(bytes);
    let trips = u8::read(bytes, 41);
    Device {
        transfer,
        thresholds,
        security,
        reading,
        trips,
    }
}

// What bytes that are no record say.
pub fn no_record() -> Device
    ensures { result ≡ impossible }
{
    let fresh = device_record::fresh();
    let transfer = Transfer {
        phase: Phase::Failed,
        ..fresh.transfer
    };
    Device { transfer, ..fresh }
}

// The record that the bytes say; bytes that are no record give one that is not possible.
pub fn decode(s: &[u8]) -> Device
    ensures { result ≡ decode_of s.now }
{
    match s.as_array() {
        Some(bytes) if is_record(bytes) => to_record(bytes),
        _ => no_record(),
    }
}

// Encoded and decoded again, every record is the same: the theorem as a contract.
pub fn round_trip(d: Device) -> Device
    ensures { result ≡ d }
{
    let bytes = device_encode::encode(d);
    decode(&bytes)
}
