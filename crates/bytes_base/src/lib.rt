// Bytes: tests on them, copies of them.
#![tactic(auto)]

ghost use Rattle.std.specs.Prelude.{◌≡◌, ℕ, ◌≤◌, ◌+◌, length};
ghost use Rattle.rules.specs.Bytes.{zeros?, same?, le, zeros, splice};

// All bytes are zero. No byte ends the fold early, so that many are tested at once.
pub fn all_zero(bytes: &[u8]) -> bool
    ensures { result ≡ zeros? bytes.now }
{
    bytes.iter().fold(true, |zero, byte| zero & (*byte == 0))
}

// The two slices hold the same bytes. No byte ends the fold early, so that the time it takes tells nothing of a passphrase.
pub fn same(a: &[u8], b: &[u8]) -> bool
    ensures { result ≡ same? a.now b.now }
{
    if a.len() != b.len() {
        return false;
    }
    a.iter()
        .zip(b)
        .fold(true, |equal, (x, y)| equal & (*x == *y))
}

// Copies the bytes of `from` to the front of `to`, by a loop: `copy_from_slice` is a memmove, and the archive for C is to call memcpy and memset alone (include/module.h).
pub fn copy(to: &mut [u8], from: &[u8])
    requires { length from.now ≤ length to.old }
    ensures { to.new ≡ splice 0 from.now to.old }
{
    for place in 0..from.len() {
        to[place] = from[place];
    }
}

// Writes so many zeros at a place.
pub fn put_zeros(out: &mut [u8], at: usize, count: usize)
    requires { at + count ≤ length out.old }
    ensures { out.new ≡ splice at (zeros count) out.old }
{
    out[at..at + count].fill(0);
}

// Writes the bytes of `from` at a place.
pub fn copy_at(out: &mut [u8], at: usize, from: &[u8])
    requires { at + length from.now ≤ length out.old }
    ensures { out.new ≡ splice at from.now out.old }
{
    copy(&mut out[at..at + from.len()], from);
}

// Writes so many bytes of a number at a place, lowest first: its own eight hold it, and zeros follow them.
pub fn put_at(out: &mut [u8], at: usize, width: usize, number: u64)
    requires { at + width ≤ length out.old }
    ensures { out.new ≡ splice at (le width number) out.old }
{
    let own = width.min(8);
    copy_at(out, at, &number.to_le_bytes()[..own]);
    put_zeros(out, at + own, width - own);
}

// A number that is written as so many bytes, lowest first. Two numbers of one value are the same.
pub trait ToBytes {
    ghost width: { ℕ };

    ghost value: { Self → ℕ };

    fn put(self, out: &mut [u8], at: usize)
        requires { at + width ≤ length out.old }
        ensures { out.new ≡ splice at (le width (value self)) out.old };

    ghost same: { (n other : Self) → value n ≡ value other → n ≡ other };
}

// Writes a number's bytes at a place: by the loop too, which becomes one write.
fn put_bytes<const WIDTH: usize>(bytes: &[u8; WIDTH], out: &mut [u8], at: usize)
    requires { at + WIDTH ≤ length out.old }
    ensures { out.new ≡ splice at bytes.now out.old }
{
    copy_at(out, at, bytes);
}

impl ToBytes for u8 {
    ghost width = { 1 };

    ghost value = { λ n. n };

    ghost same = { λ n other e. e };

    fn put(self, out: &mut [u8], at: usize) {
        put_bytes(&self.to_le_bytes(), out, at);
    }
}

impl ToBytes for u16 {
    ghost width = { 2 };

    ghost value = { λ n. n };

    ghost same = { λ n other e. e };

    fn put(self, out: &mut [u8], at: usize) {
        put_bytes(&self.to_le_bytes(), out, at);
    }
}

impl ToBytes for u32 {
    ghost width = { 4 };

    ghost value = { λ n. n };

    ghost same = { λ n other e. e };

    fn put(self, out: &mut [u8], at: usize) {
        put_bytes(&self.to_le_bytes(), out, at);
    }
}

impl ToBytes for u64 {
    ghost width = { 8 };

    ghost value = { λ n. n };

    ghost same = { λ n other e. e };

    fn put(self, out: &mut [u8], at: usize) {
        put_bytes(&self.to_le_bytes(), out, at);
    }
}
