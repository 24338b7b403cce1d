// The functions of crate abi for C, under the same names and with the same clauses: the static library that tools/library makes.
// include/module.h is its header.
#![tactic(auto)]

ghost use Rattle.std.specs.Prelude.{◌≡◌};
ghost use Rattle.rules.specs.Record.{whole_of};
ghost use Rattle.rules.specs.Cabinet.{call_result, tick_result, power_result, reading_result};
ghost use Rattle.rules.specs.Health.{new_reading};
ghost use Rattle.cabinet_bytes.specs.Encoding.{decode_cabinet};
ghost use Rattle.cabinet_slots.specs.Slots.{fresh_number, fresh_slots, write_number, write_slots, select_number, select_slots, read_number, read_record};
ghost use Rattle.abi_images.specs.Told.{make_number, make_output, read_number as read_back_number, read_output};
ghost use Rattle.abi.specs.Abi.{Called, Happened, Made, Adopted};

#[unsafe(no_mangle)]
pub extern "C" fn cabinet_fresh(bytes: &mut [u8]) -> i32
    ensures { Made bytes.old result bytes.new }
{
    abi::cabinet_fresh(bytes)
}

#[unsafe(no_mangle)]
pub extern "C" fn cabinet_call(
    bytes: &mut [u8],
    area: &mut [u8],
    named: u64,
    revision: u64,
    function: u64,
    request: &[u8],
    answer: &mut [u8],
) -> i32
    ensures { Called (call_result (whole_of (decode_cabinet bytes.old) area.old) named revision function request.now answer.old) bytes.old result bytes.new area.new answer.new }
{
    abi::cabinet_call(bytes, area, named, revision, function, request, answer)
}

#[unsafe(no_mangle)]
pub extern "C" fn cabinet_tick(bytes: &mut [u8], area: &[u8]) -> i32
    ensures { Happened (tick_result (whole_of (decode_cabinet bytes.old) area.now)) bytes.old result bytes.new }
{
    abi::cabinet_tick(bytes, area)
}

#[unsafe(no_mangle)]
pub extern "C" fn cabinet_power(bytes: &mut [u8], area: &[u8], named: u64) -> i32
    ensures { Happened (power_result (whole_of (decode_cabinet bytes.old) area.now) named) bytes.old result bytes.new }
{
    abi::cabinet_power(bytes, area, named)
}

#[unsafe(no_mangle)]
pub extern "C" fn cabinet_reading(
    bytes: &mut [u8],
    area: &[u8],
    named: u64,
    spare: u8,
    media: u16,
    controller: u16,
) -> i32
    ensures { Happened (reading_result (whole_of (decode_cabinet bytes.old) area.now) named (new_reading spare media controller)) bytes.old result bytes.new }
{
    abi::cabinet_reading(bytes, area, named, spare, media, controller)
}

#[unsafe(no_mangle)]
pub extern "C" fn cabinet_adopt(old: &[u8], bytes: &mut [u8]) -> i32
    ensures { Adopted old.now bytes.old result bytes.new }
{
    abi::cabinet_adopt(old, bytes)
}

#[unsafe(no_mangle)]
pub extern "C" fn slots_fresh(slots: &mut [u8]) -> i32
    ensures value { result ≡ fresh_number slots.old }
    ensures slots_after { slots.new ≡ fresh_slots slots.old }
{
    abi::slots_fresh(slots)
}

#[unsafe(no_mangle)]
pub extern "C" fn slots_write(slots: &mut [u8], bytes: &[u8]) -> i32
    ensures value { result ≡ write_number slots.old bytes.now }
    ensures slots_after { slots.new ≡ write_slots slots.old bytes.now }
{
    abi::slots_write(slots, bytes)
}

#[unsafe(no_mangle)]
pub extern "C" fn slots_select(slots: &mut [u8], slot: u64) -> i32
    ensures value { result ≡ select_number slots.old slot }
    ensures slots_after { slots.new ≡ select_slots slots.old slot }
{
    abi::slots_select(slots, slot)
}

#[unsafe(no_mangle)]
pub extern "C" fn slots_read(slots: &[u8], bytes: &mut [u8]) -> i32
    ensures value { result ≡ read_number slots.now bytes.old }
    ensures bytes_after { bytes.new ≡ read_record slots.now bytes.old }
{
    abi::slots_read(slots, bytes)
}

#[unsafe(no_mangle)]
pub extern "C" fn image_make(version: u64, payload: &[u8], output: &mut [u8]) -> i32
    ensures value { result ≡ make_number version payload.now output.old }
    ensures output_after { output.new ≡ make_output version payload.now output.old }
{
    abi::image_make(version, payload, output)
}

#[unsafe(no_mangle)]
pub extern "C" fn image_read(image: &[u8], output: &mut [u8]) -> i32
    ensures value { result ≡ read_back_number image.now output.old }
    ensures output_after { output.new ≡ read_output image.now output.old }
{
    abi::image_read(image, output)
}
