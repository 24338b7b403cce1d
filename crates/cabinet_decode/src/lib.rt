// The cabinet's record back from bytes. Any bytes of any length decode: those that are no record, to one that is not possible.
#![tactic(auto)]

ghost use Rattle.std.specs.Prelude.{◌≡◌};
ghost use Rattle.cabinet_bytes.specs.Encoding.{cabinet?, cabinet_of, impossible_cabinet, decode_cabinet};

use bytes_numbers::FromBytes;
use cabinet_encode::CABINET_SIZE;
use rules::Cabinet;

// Bytes 4 to 31 are zero, by four words. Tried by bytes_base::all_zero: 21 instructions for what is four loads.
fn is_cabinet(bytes: &[u8; CABINET_SIZE]) -> bool
    ensures { result ≡ cabinet? bytes.now }
{
    (u32::read(bytes, 4) == 0)
        & (u64::read(bytes, 8) == 0)
        & (u64::read(bytes, 16) == 0)
        & (u64::read(bytes, 24) == 0)
}

// Each module's bytes are a part that is lent to crates/device_decode.
fn to_cabinet(bytes: &[u8; CABINET_SIZE]) -> Cabinet
    ensures { result ≡ cabinet_of bytes.now }
{
    Cabinet {
        contexts: u32::read(bytes, 0),
        first: device_decode::decode(&bytes[32..160]),
        second: device_decode::decode(&bytes[160..288]),
    }
}

fn no_cabinet() -> Cabinet
    ensures { result ≡ impossible_cabinet }
{
    Cabinet {
        contexts: 0,
        first: device_decode::no_record(),
        second: device_decode::no_record(),
    }
}

// The record that the bytes say; bytes that are no record give one that is not possible.
pub fn decode(s: &[u8]) -> Cabinet
    ensures { result ≡ decode_cabinet s.now }
{
    match s.as_array() {
        Some(bytes) if is_cabinet(bytes) => to_cabinet(bytes),
        _ => no_cabinet(),
    }
}

// Encoded and decoded again, every record is the same: the theorem as a contract.
pub fn round_trip(c: Cabinet) -> Cabinet
    ensures { result ≡ c }
{
    let mut bytes = [0u8; CABINET_SIZE];
    cabinet_encode::put(c, &mut bytes);
    decode(&bytes)
}
