// The cabinet's record written as 288 bytes: crates/cabinet_bytes has the places, crates/cabinet_decode reads them back. Each module's bytes are a part that is lent
// to crates/device_encode.
#![tactic(auto)]

ghost use Rattle.std.specs.Prelude.{◌≡◌, length};
ghost use Rattle.cabinet_bytes.specs.Encoding.{cabinet_size, module_place, encode_cabinet, Around};

use bytes_base::ToBytes;
use rules::Cabinet;

// How many bytes a record has.
pub const CABINET_SIZE: usize = 288;

// Writes the record's bytes over 288 bytes, straight into where they are kept.
pub fn put(c: Cabinet, out: &mut [u8])
    requires { length out.old ≡ cabinet_size }
    ensures { out.new ≡ encode_cabinet c }
{
    c.contexts.put(out, 0);
    bytes_base::put_zeros(out, 4, 28);
    device_encode::put(c.first, &mut out[32..160]);
    device_encode::put(c.second, &mut out[160..288]);
}

fn place(named: u64) -> usize
    ensures { result ≡ module_place named }
{
    if named == 0 { 32 } else { 160 }
}

// Writes what an event of one module changes, its own bytes and the contexts given out, over bytes that have all the rest.
pub fn put_named(c: Cabinet, named: u64, out: &mut [u8])
    requires { Around named c out.old }
    ensures { out.new ≡ encode_cabinet c }
{
    c.contexts.put(out, 0);
    let at = place(named);
    let own = cabinet_record::own(c, named);
    device_encode::put(own, &mut out[at..at + 128]);
}
