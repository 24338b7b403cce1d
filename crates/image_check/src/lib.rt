// Document 01, "Good image": whether the received bytes are one, records of 128 bytes with no header; and where they are not, document 02, T-03: their first fault.
// One record is crates/image_record. One walk decides: it takes two records a turn as long as both are good, then one by one; it ends at the first bad record, and
// only that one is looked at test by test.
#![tactic(auto)]

ghost use Rattle.std.specs.Prelude.{◌≡◌, ◌*◌, ◌<◌, length, MatchOption};
ghost use Rattle.rules.specs.Fault.{none, record_fault, judged, image_of, image_record};
ghost use Rattle.image_check.specs.Walk.{first_bad, Left};

use bytes_numbers::FromBytes;
use image_record::Record;
use rules::{FirstFault, IMAGE_RECORD, Image, MOST_RECORDS, Reason, VERSION_PLACE};

// The bytes of the two records of a turn: split off at once, which tests the length once.
const TWO_RECORDS: usize = 2 * IMAGE_RECORD;

// The records that are left behind the good ones, by twos: the first bad one of these is that of the whole. The record's front, its first eight bytes, goes up by one
// with its number.
fn good_twos(n: u16, version: u64, bytes: &[u8]) -> &[u8]
    requires { length bytes.now ≡ n * 128 }
    ensures { Left n version result.now bytes.now }
{
    let mut front = (n as u64) * 65536 + version % 4294967296 * 4294967296;
    let mut left = bytes;
    while let Some((two, after)) = left.split_first_chunk::<TWO_RECORDS>() {
        let first = two.first_chunk::<IMAGE_RECORD>().unwrap();
        let second = two.last_chunk::<IMAGE_RECORD>().unwrap();
        if !image_record::good_two(front, version, first, second) {
            return left;
        }
        front += 2;
        left = after;
    }
    left
}

// The first bad record, with its number.
fn first_bad(n: u16, version: u64, bytes: &[u8]) -> Option<(u16, &Record)>
    requires { length bytes.now ≡ n * 128 }
    ensures { MatchOption result (first_bad n 0 n version bytes.now ≡ n) (λ found. (found.0 ≡ first_bad n 0 n version bytes.now) × (found.0 < n) × (found.1.now ≡ image_record found.0 bytes.now)) }
{
    let mut left = good_twos(n, version, bytes);
    while let Some((record, after)) = left.split_first_chunk::<IMAGE_RECORD>() {
        let i = n - (left.len() / IMAGE_RECORD) as u16;
        if !image_record::good_record(i, n, version, record) {
            return Some((i, record));
        }
        left = after;
    }
    None
}

// What an image is by record i, which has a fault.
fn faulty(i: u16, n: u16, version: u64, record: &Record) -> Image
    requires { (i < 256) × (record_fault i n version «record».now ≡ none → ⊥) }
    ensures { result ≡ judged (record_fault i n version «record».now) version }
{
    Err(FirstFault {
        reason: image_record::fault(i, n, version, record),
        number: i as u8,
    })
}

// What the received bytes are: a good image with its version, or a bad one with its first fault.
pub fn image(bytes: &[u8]) -> Image
    ensures { result ≡ image_of bytes.now }
{
    let size_fault = Err(FirstFault {
        reason: Reason::Size,
        number: 0,
    });
    let Some(first) = bytes.first_chunk::<IMAGE_RECORD>() else {
        return size_fault;
    };
    let records = bytes.len() / IMAGE_RECORD;
    if bytes.len() != records * IMAGE_RECORD || records > MOST_RECORDS {
        return size_fault;
    }
    let n = records as u16;
    let version = u64::read(bytes, VERSION_PLACE);
    if version == 0 {
        return faulty(0, n, version, first);
    }
    match first_bad(n, version, bytes) {
        Some((i, record)) => faulty(i, n, version, record),
        None => Ok(version),
    }
}
