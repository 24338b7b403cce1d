// Two slots for the cabinet's record and a selector, in memory that outlives power: specs/Slots.antt has the places, specs/Torn.antt what they are for.
// A write touches the slot that is not selected alone, a select the selector's byte alone.
#![tactic(auto)]

ghost use Rattle.std.specs.Prelude.{◌≡◌};
ghost use Rattle.cabinet_slots.specs.Slots.{slots?, fresh_number, fresh_slots, write_number, write_slots, select_number, select_slots, read_number, read_record};

fn are_slots(slots: &[u8]) -> bool
    ensures { result ≡ slots? slots.now }
{
    if slots.len() != 577 {
        return false;
    }
    slots[0] <= 1
}

// Once in a cabinet's life, before anyone calls it: this write has no other slot to fall back on.
pub fn fresh(slots: &mut [u8]) -> i32
    ensures value { result ≡ fresh_number slots.old }
    ensures slots_after { slots.new ≡ fresh_slots slots.old }
{
    if slots.len() != 577 {
        return -1;
    }
    cabinet_encode::put(cabinet_record::fresh(), &mut slots[1..289]);
    bytes_base::put_zeros(slots, 289, 288);
    slots[0] = 0;
    0
}

pub fn write(slots: &mut [u8], bytes: &[u8]) -> i32
    ensures value { result ≡ write_number slots.old bytes.now }
    ensures slots_after { slots.new ≡ write_slots slots.old bytes.now }
{
    let writable = are_slots(slots) & (bytes.len() == 288);
    if !writable {
        return -1;
    }
    let other = 1 - slots[0];
    bytes_base::copy_at(slots, 1 + 288 * other as usize, bytes);
    other as i32
}

pub fn select(slots: &mut [u8], slot: u64) -> i32
    ensures value { result ≡ select_number slots.old slot }
    ensures slots_after { slots.new ≡ select_slots slots.old slot }
{
    let selectable = are_slots(slots) & (slot <= 1);
    if !selectable {
        return -1;
    }
    slots[0] = slot as u8;
    0
}

pub fn read(slots: &[u8], buffer: &mut [u8]) -> i32
    ensures value { result ≡ read_number slots.now buffer.old }
    ensures buffer_after { buffer.new ≡ read_record slots.now buffer.old }
{
    let readable = are_slots(slots) & (buffer.len() == 288);
    if !readable {
        return -1;
    }
    let at = 1 + 288 * slots[0] as usize;
    bytes_base::copy(buffer, &slots[at..at + 288]);
    0
}
