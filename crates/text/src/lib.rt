// Text written into a lent buffer at a place; each function answers the place after what it wrote.
#![tactic(auto)]

ghost use Rattle.std.specs.Prelude.{◌++◌, ◌+◌, ◌≤◌, length};
ghost use Rattle.rules.specs.Text.{decimal};
ghost use Rattle.text.specs.Wrote.{Wrote, WroteWithin};

pub fn put(out: &mut [u8], at: usize, text: &[u8]) -> usize
    requires { at + length text.now ≤ length out.old }
    ensures { Wrote out.old at text.now out.new result }
{
    bytes_base::copy_at(out, at, text);
    at + text.len()
}

// A number in decimal, which takes at most 20 digits. Most numbers of a replay have one digit, so that one is written at once.
pub fn put_decimal(out: &mut [u8], at: usize, n: u64) -> usize
    requires { at + 20 ≤ length out.old }
    ensures { WroteWithin 20 out.old at (decimal n) out.new result }
{
    if n < 10 {
        out[at] = 48 + n as u8;
        return at + 1;
    }
    let mut digits = [0u8; 20];
    let k = io::decimal(n, &mut digits);
    put(out, at, &digits[..k])
}

// A number in decimal, and the text after it.
pub fn put_field(out: &mut [u8], at: usize, n: u64, after: &[u8]) -> usize
    requires { at + 20 + length after.now ≤ length out.old }
    ensures { WroteWithin (20 + length after.now) out.old at (decimal n ++ after.now) out.new result }
{
    let behind = put_decimal(out, at, n);
    put(out, behind, after)
}
