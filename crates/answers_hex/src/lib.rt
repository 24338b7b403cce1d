// Bytes in hex, written into a lent buffer at a place.
#![tactic(auto)]

ghost use Rattle.std.specs.Prelude.{◌+◌, ◌*◌, ◌≤◌, ◌≡◌, length};

// The hex digit of the lower four bits.
fn hex_digit(n: u8) -> u8 {
    match n % 16 {
        digit @ 0..=9 => b'0' + digit,
        digit => b'a' - 10 + digit,
    }
}

fn put_digit(out: &mut [u8], at: usize, n: u8) -> usize
    requires { at + 1 ≤ length out.old }
    ensures { result ≡ at + 1 }
{
    out[at] = hex_digit(n);
    at + 1
}

// The bytes in lower-case hex.
pub fn put_hex(out: &mut [u8], at: usize, bytes: &[u8]) -> usize
    requires { at + 2 * length bytes.now ≤ length out.old }
    ensures { result ≤ at + 2 * length bytes.now }
{
    let mut to = at;
    for byte in bytes {
        to = put_digit(out, to, *byte / 16);
        to = put_digit(out, to, *byte);
    }
    to
}
