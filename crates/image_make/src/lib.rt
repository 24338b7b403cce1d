// Document 02, T-02: an image made from a payload and a version, and the payload read back. Neither asks anything of its caller, and a refusal writes nothing.
#![tactic(auto)]

ghost use Rattle.std.specs.Prelude.{◌≡◌, ◌≤◌, ◌+◌, ◌*◌, ◌/◌, length, drop};
ghost use Rattle.rules.specs.Bytes.{le, splice};
ghost use Rattle.rules.specs.Made.{parts_of, first_part, made_record, made_records, made_image, carried, payload_of};
ghost use Rattle.rules.specs.Made.{making_of, output_made, reading_of, output_read};

use bytes_base::ToBytes;
use rules::{
    COUNT_PLACE, IMAGE_RECORD, MOST_RECORDS, Making, NUMBER_PLACE, NotMade, NotRead, PAYLOAD_PLACE,
    ReadingBack, SUM_PLACE, VERSION_PLACE,
};

// The bytes of a payload that one record carries.
const PART: usize = SUM_PLACE - PAYLOAD_PLACE;

// Writes a part at a place. It goes through an array of its own, so that the compiler need not ask whether it lies where it is written to.
fn put_part(part: &[u8], output: &mut [u8], at: usize)
    requires { (length part.now ≡ 112) × (at + 112 ≤ length output.old) }
    ensures { output.new ≡ splice at part.now output.old }
{
    let mut own = [0u8; PART];
    own.copy_from_slice(part);
    bytes_base::copy_at(output, at, &own);
}

// Record i of n, over the whole of a record's bytes.
fn put_record(i: u16, n: u16, version: u64, part: &[u8], record: &mut [u8])
    requires { (length part.now ≡ 112) × (length «record».old ≡ 128) }
    ensures { «record».new ≡ made_record i n version part.now }
{
    i.put(record, NUMBER_PLACE);
    n.put(record, COUNT_PLACE);
    version.put(record, VERSION_PLACE);
    put_part(part, record, PAYLOAD_PLACE);
    image_record::sum(record).put(record, SUM_PLACE);
}

// So many records from number `first` on, whose parts the payload fills, at the front of the output.
#[tactic(auto, unfolding(rules::specs::Made::made_records))]
fn put_records(
    first: usize,
    records: usize,
    n: u16,
    version: u64,
    payload: &[u8],
    output: &mut [u8],
)
    requires { (first + records ≤ 129) × (records * 112 ≤ length payload.now) × (records * 128 ≤ length output.old) }
    ensures { output.new ≡ splice 0 (made_records records first n version payload.now) output.old }
{
    for i in 0..records {
        let from = i * PART;
        let to = i * IMAGE_RECORD;
        put_record(
            (first + i) as u16,
            n,
            version,
            &payload[from..from + PART],
            &mut output[to..to + IMAGE_RECORD],
        );
    }
}

// The record behind so many full ones. The payload does not fill its part, and zeros do the rest. A loop of one turn writes it, since a record is compiled into the
// one loop that writes it.
fn put_last(full: usize, n: u16, version: u64, payload: &[u8], output: &mut [u8])
    requires full_bound { (full ≤ 128) × (full * 112 ≤ length payload.now) × (length payload.now ≤ full * 112 + 112) }
    requires full_in_bounds { full * 128 + 128 ≤ length output.old }
    ensures { output.new ≡ splice (full * 128) (made_record full n version (first_part (drop (full * 112) payload.now))) output.old }
{
    let mut part = [0u8; PART];
    bytes_base::copy(&mut part, &payload[full * PART..]);
    let to = full * IMAGE_RECORD;
    put_records(
        full,
        1,
        n,
        version,
        &part,
        &mut output[to..to + IMAGE_RECORD],
    );
}

// The whole image, at the front of the output.
fn put_image(n: u16, version: u64, payload: &[u8], output: &mut [u8])
    requires { (n ≡ parts_of payload.now) × (n ≤ 128) × (n * 128 ≤ length output.old) }
    ensures { output.new ≡ splice 0 (made_image payload.now version) output.old }
{
    let full = payload.len() / PART;
    put_records(0, full, n, version, payload, output);
    if full < n as usize {
        put_last(full, n, version, payload, output);
    }
}

// How many records a payload makes.
fn parts(payload: &[u8]) -> usize
    requires { length payload.now ≤ 14336 }
    ensures { result ≡ parts_of payload.now }
{
    payload.len().div_ceil(PART).max(1)
}

// Writes the image of a payload at the front of the output, and answers how many bytes that are.
pub fn make(version: u64, payload: &[u8], output: &mut [u8]) -> Making
    ensures value { result ≡ making_of version payload.now output.old }
    ensures output_after { output.new ≡ output_made result (made_image payload.now version) output.old }
{
    if version == 0 {
        return Err(NotMade::VersionZero);
    }
    if MOST_RECORDS * PART < payload.len() {
        return Err(NotMade::PayloadOver128Records);
    }
    let n = parts(payload);
    let length = n * IMAGE_RECORD;
    if output.len() < length {
        return Err(NotMade::OutputTooShort);
    }
    put_image(n as u16, version, payload, output);
    Ok(length)
}

// What n records carry, at the front of the output.
#[tactic(auto, unfolding(rules::specs::Made::carried))]
fn put_parts(n: usize, image: &[u8], output: &mut [u8])
    requires { (n ≤ 128) × (n * 128 ≤ length image.now) × (n * 112 ≤ length output.old) }
    ensures { output.new ≡ splice 0 (carried n image.now) output.old }
{
    for i in 0..n {
        let from = i * IMAGE_RECORD + PAYLOAD_PLACE;
        put_part(&image[from..from + PART], output, i * PART);
    }
}

// Writes the payload that a good image carries, with its padding, at the front of the output, and answers how many bytes that are.
#[tactic(auto, unfolding(rules::specs::Made::payload_of, rules::specs::Made::reading_of))]
pub fn read_back(image: &[u8], output: &mut [u8]) -> ReadingBack
    ensures value { result ≡ reading_of image.now output.old }
    ensures output_after { output.new ≡ output_read result (payload_of image.now) output.old }
{
    image_check::image(image).map_err(|_| NotRead::NotGoodImage)?;
    let n = image.len() / IMAGE_RECORD;
    let length = n * PART;
    if output.len() < length {
        return Err(NotRead::OutputTooShort);
    }
    put_parts(n, image, output);
    Ok(length)
}
