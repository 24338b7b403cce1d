// Numbers read from bytes, lowest byte first.
#![tactic(auto)]

ghost use Rattle.std.specs.Prelude.{◌≡◌, ◌≤◌, ◌+◌, length, take, drop};
ghost use Rattle.rules.specs.Bytes.{number_at};

use bytes_base::ToBytes;

// A number that is read from its bytes, lowest first.
pub trait FromBytes: ToBytes {
    fn read(bytes: &[u8], at: usize) -> Self
        requires { at + Self.width ≤ length bytes.now }
        ensures { Self.value result ≡ number_at Self.width at bytes.now };
}

// So many bytes at a place, as an array: each wider number is read as one number wherever it is used.
fn part<const COUNT: usize>(bytes: &[u8], at: usize) -> [u8; COUNT]
    requires { at + COUNT ≤ length bytes.now }
    ensures { result ≡ take COUNT (drop at bytes.now) }
{
    bytes[at..at + COUNT].try_into().unwrap()
}

impl FromBytes for u8 {
    fn read(bytes: &[u8], at: usize) -> u8 {
        bytes[at]
    }
}

impl FromBytes for u16 {
    fn read(bytes: &[u8], at: usize) -> u16 {
        u16::from_le_bytes(part(bytes, at))
    }
}

impl FromBytes for u32 {
    fn read(bytes: &[u8], at: usize) -> u32 {
        u32::from_le_bytes(part(bytes, at))
    }
}

impl FromBytes for u64 {
    fn read(bytes: &[u8], at: usize) -> u64 {
        u64::from_le_bytes(part(bytes, at))
    }
}
