// A place of two logs: which of a record's six fields differ there. A place may be cut by the shorter log's end.
#![tactic(auto)]

ghost use Rattle.std.specs.Prelude.{◌≡◌, not, ◌-◌, ◌≤◌, length, take, drop, if◌then◌else◌};
ghost use Rattle.rules.specs.Bytes.{same?};
ghost use Rattle.rules.specs.Compare.{fields_differing, field_bits};

// The bytes from one place on up to another, as far as they are there.
fn part<'a>(bytes: &'a [u8], from: usize, to: usize) -> &'a [u8]
    requires { from ≤ to }
    ensures { result.now ≡ take (to - from) (drop from bytes.now) }
{
    let len = bytes.len();
    &bytes[from.min(len)..to.min(len)]
}

// Whether a field differs, as far as it is there: 1 or 0.
fn differs(a: &[u8], b: &[u8], from: usize, to: usize) -> u64
    requires { from ≤ to }
    ensures { result ≡ (if not (same? (take (to - from) (drop from a.now)) (take (to - from) (drop from b.now))) then 1 else 0) }
{
    u64::from(!bytes_base::same(part(a, from, to), part(b, from, to)))
}

// A bit for each field that differs, the lowest for the kind.
pub fn fields(a: &[u8], b: &[u8]) -> u64
    requires { length a.now ≡ length b.now }
    ensures value { result ≡ field_bits (fields_differing a.now b.now) }
    ensures upper_bound { result ≤ 63 }
{
    let end = a.len().max(8);
    differs(a, b, 0, 1)
        + 2 * differs(a, b, 1, 2)
        + 4 * differs(a, b, 2, 4)
        + 8 * differs(a, b, 4, 6)
        + 16 * differs(a, b, 6, 8)
        + 32 * differs(a, b, 8, end)
}
