// The cabinet for C: its record as bytes, the entry points under C names; and images made and read back. None asks anything of its caller.
// Crate abi_c puts them into the static library, whose header is include/module.h.
#![tactic(auto)]

ghost use Rattle.std.specs.Prelude.{◌≡◌};
ghost use Rattle.rules.specs.Record.{whole_of};
ghost use Rattle.rules.specs.Cabinet.{call_result, tick_result, power_result, reading_result};
ghost use Rattle.rules.specs.Health.{new_reading};
ghost use Rattle.cabinet_bytes.specs.Encoding.{decode_cabinet};
ghost use Rattle.cabinet_slots.specs.Slots.{fresh_number, fresh_slots, write_number, write_slots, select_number, select_slots, read_number, read_record};
ghost use Rattle.abi_images.specs.Told.{make_number, make_output, read_number as read_back_number, read_output};
ghost use Rattle.abi.specs.Abi.{Called, Happened, Made, Adopted};

use cabinet_encode::CABINET_SIZE;
use rules::Reading;

#[unsafe(no_mangle)]
pub extern "C" fn cabinet_fresh(bytes: &mut [u8]) -> i32
    ensures { Made bytes.old result bytes.new }
{
    if bytes.len() != CABINET_SIZE {
        return -3;
    }
    cabinet_encode::put(cabinet::fresh(), bytes);
    0
}

#[unsafe(no_mangle)]
pub extern "C" fn cabinet_call(
    bytes: &mut [u8],
    area: &mut [u8],
    named: u64,
    revision: u64,
    function: u64,
    request: &[u8],
    answer: &mut [u8],
) -> i32
    ensures { Called (call_result (whole_of (decode_cabinet bytes.old) area.old) named revision function request.now answer.old) bytes.old result bytes.new area.new answer.new }
{
    let c = cabinet_decode::decode(bytes);
    let outcome = cabinet::call(c, area, named, revision, function, request, answer);
    abi_keep::keep_named(outcome.reply, outcome.cabinet, named, bytes)
}

#[unsafe(no_mangle)]
pub extern "C" fn cabinet_tick(bytes: &mut [u8], area: &[u8]) -> i32
    ensures { Happened (tick_result (whole_of (decode_cabinet bytes.old) area.now)) bytes.old result bytes.new }
{
    let c = cabinet_decode::decode(bytes);
    let outcome = cabinet::tick(c, area);
    abi_keep::keep(outcome.reply, outcome.cabinet, bytes)
}

#[unsafe(no_mangle)]
pub extern "C" fn cabinet_power(bytes: &mut [u8], area: &[u8], named: u64) -> i32
    ensures { Happened (power_result (whole_of (decode_cabinet bytes.old) area.now) named) bytes.old result bytes.new }
{
    let c = cabinet_decode::decode(bytes);
    let outcome = cabinet::power(c, area, named);
    abi_keep::keep_named(outcome.reply, outcome.cabinet, named, bytes)
}

#[unsafe(no_mangle)]
pub extern "C" fn cabinet_reading(
    bytes: &mut [u8],
    area: &[u8],
    named: u64,
    spare: u8,
    media: u16,
    controller: u16,
) -> i32
    ensures { Happened (reading_result (whole_of (decode_cabinet bytes.old) area.now) named (new_reading spare media controller)) bytes.old result bytes.new }
{
    let c = cabinet_decode::decode(bytes);
    let new = Reading {
        spare,
        media,
        controller,
    };
    let outcome = cabinet::reading(c, area, named, new);
    abi_keep::keep_named(outcome.reply, outcome.cabinet, named, bytes)
}

#[unsafe(no_mangle)]
pub extern "C" fn cabinet_adopt(old: &[u8], bytes: &mut [u8]) -> i32
    ensures { Adopted old.now bytes.old result bytes.new }
{
    let d = device_decode::decode(old);
    let adoptable = device_possible::possible_alone(d) | device_possible::kept_before(d);
    let taken_over = adoptable & (bytes.len() == CABINET_SIZE);
    if !taken_over {
        return -3;
    }
    cabinet_encode::put(cabinet_record::adopted(d), bytes);
    0
}

#[unsafe(no_mangle)]
pub extern "C" fn slots_fresh(slots: &mut [u8]) -> i32
    ensures value { result ≡ fresh_number slots.old }
    ensures slots_after { slots.new ≡ fresh_slots slots.old }
{
    cabinet_slots::fresh(slots)
}

#[unsafe(no_mangle)]
pub extern "C" fn slots_write(slots: &mut [u8], bytes: &[u8]) -> i32
    ensures value { result ≡ write_number slots.old bytes.now }
    ensures slots_after { slots.new ≡ write_slots slots.old bytes.now }
{
    cabinet_slots::write(slots, bytes)
}

#[unsafe(no_mangle)]
pub extern "C" fn slots_select(slots: &mut [u8], slot: u64) -> i32
    ensures value { result ≡ select_number slots.old slot }
    ensures slots_after { slots.new ≡ select_slots slots.old slot }
{
    cabinet_slots::select(slots, slot)
}

#[unsafe(no_mangle)]
pub extern "C" fn slots_read(slots: &[u8], bytes: &mut [u8]) -> i32
    ensures value { result ≡ read_number slots.now bytes.old }
    ensures bytes_after { bytes.new ≡ read_record slots.now bytes.old }
{
    cabinet_slots::read(slots, bytes)
}

#[unsafe(no_mangle)]
pub extern "C" fn image_make(version: u64, payload: &[u8], output: &mut [u8]) -> i32
    ensures value { result ≡ make_number version payload.now output.old }
    ensures output_after { output.new ≡ make_output version payload.now output.old }
{
    abi_images::make(version, payload, output)
}

#[unsafe(no_mangle)]
pub extern "C" fn image_read(image: &[u8], output: &mut [u8]) -> i32
    ensures value { result ≡ read_back_number image.now output.old }
    ensures output_after { output.new ≡ read_output image.now output.old }
{
    abi_images::read(image, output)
}
