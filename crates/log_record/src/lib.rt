// One record of a log: what its 544 bytes say. A call's is crates/log_call.
#![tactic(auto)]

ghost use Rattle.std.specs.Prelude.{◌≡◌, length};
ghost use Rattle.std.specs.Prelude.{if◌then◌else◌};
ghost use Rattle.rules.specs.Log.{record_size, entry_of, named_in, bare, names_module, good_power, good_reading};
ghost use Rattle.rules.specs.declared.Entry.TheVariants.{Tick, Power, Bad};
ghost use Rattle.log_record.specs.Reading.{reading_entry};

use bytes_numbers::FromBytes;
use rules::{Entry, LOG_RECORD, Reading};

// A tick, if every byte after the kind is zero.
fn decode_tick(bytes: &[u8]) -> Entry
    requires { length bytes.now ≡ record_size }
    ensures { result ≡ (if bare bytes.now then Tick else Bad) }
{
    if bytes_base::all_zero(&bytes[1..]) {
        Entry::Tick
    } else {
        Entry::Bad
    }
}

// The host byte of a power cycle or a health reading: a module and no host.
fn names_module(bytes: &[u8]) -> bool
    requires { length bytes.now ≡ record_size }
    ensures { result ≡ names_module bytes.now }
{
    log_call::host_in(bytes) == 0 && log_call::named_in(bytes) <= 1
}

// A power cycle, if its host byte names a module and every byte after it is zero.
fn decode_power(bytes: &[u8]) -> Entry
    requires { length bytes.now ≡ record_size }
    ensures { result ≡ (if good_power bytes.now then Power (named_in bytes.now) else Bad) }
{
    let named = log_call::named_in(bytes);
    if names_module(bytes) && bytes_base::all_zero(&bytes[2..]) {
        Entry::Power { named }
    } else {
        Entry::Bad
    }
}

// A health reading's record: a host byte that names a module, a spare of at most 100, and every other byte zero but the kind and the five at 8 to 12.
fn good_reading(bytes: &[u8]) -> bool
    requires { length bytes.now ≡ record_size }
    ensures { result ≡ good_reading bytes.now }
{
    names_module(bytes)
        && bytes_base::all_zero(&bytes[2..8])
        && bytes_base::all_zero(&bytes[13..])
        && u8::read(bytes, 8) <= 100
}

fn decode_reading(bytes: &[u8]) -> Entry
    requires { length bytes.now ≡ record_size }
    ensures { result ≡ (if good_reading bytes.now then reading_entry bytes.now else Bad) }
{
    if !good_reading(bytes) {
        return Entry::Bad;
    }
    Entry::Health {
        named: log_call::named_in(bytes),
        reading: Reading {
            spare: u8::read(bytes, 8),
            media: u16::read(bytes, 9),
            controller: u16::read(bytes, 11),
        },
    }
}

// What a record says; whatever is no record is bad. The kind is looked at first, so that no byte is scanned twice.
#[tactic(auto, unfolding(rules::specs::Log::entry_of))]
pub fn decode(bytes: &[u8]) -> Entry
    ensures { result ≡ entry_of bytes.now }
{
    if bytes.len() != LOG_RECORD {
        return Entry::Bad;
    }
    match u8::read(bytes, 0) {
        1 => log_call::decode_call(bytes),
        2 => decode_tick(bytes),
        3 => decode_power(bytes),
        4 => decode_reading(bytes),
        _ => Entry::Bad,
    }
}
