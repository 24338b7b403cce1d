// Document 01, "Good image": whether the 128 bytes of one record are good; and of those that are not, document 02, T-03: which test fails first.
#![tactic(auto)]

ghost use Rattle.std.specs.Prelude.{◌≡◌, ◌+◌, ◌%◌, ◌^◌, ◌<◌, ◌≤◌, ◌&&◌, length, drop, ◌≢◌};
ghost use Rattle.rules.specs.Image.{sum_field, number_in, sum_of_words, record_sum, good_record};
ghost use Rattle.rules.specs.Fault.{none, ◌of_record◌, sum_test, record_fault};
ghost use Rattle.image_record.specs.Front.{good_behind};

use bytes_numbers::FromBytes;
use rules::{COUNT_PLACE, IMAGE_RECORD, NUMBER_PLACE, Reason, SUM_PLACE, VERSION_PLACE};

// The bytes of one record.
pub type Record = [u8; IMAGE_RECORD];

// The sum of a record's first 31 words, which wraps at 32 bits. It takes a slice, since image_make sums a part of its output that it is writing, and the library does not
// say what arrays that are lent from such a part (`as_chunks_mut`) leave in it.
#[tactic(auto, unfolding(rules::specs::Image::sum_of_words), using(crate::proofs::Laws::wrapping_sum_of_one_more))]
pub fn sum(record: &[u8]) -> u32
    requires { length «record».now ≡ 128 }
    ensures { result ≡ record_sum «record».now }
{
    let mut sum: u32 = 0;
    for word in 0..31 {
        sum = sum.wrapping_add(u32::read(record, word * 4));
    }
    sum
}

// Record number i of n, with the image's version. The fields are tested first: a record that is wrong there is not summed, and of one that is right the compiler
// knows the version's two words.
#[tactic(auto, unfolding(rules::specs::Image::good_record))]
pub fn good_record(i: u16, n: u16, version: u64, record: &Record) -> bool
    ensures { result ≡ good_record i n version «record».now }
{
    let good_fields = (u16::read(record, NUMBER_PLACE) == i)
        & (u16::read(record, COUNT_PLACE) == n)
        & (u64::read(record, VERSION_PLACE) == version);
    good_fields && u32::read(record, SUM_PLACE) == sum(record)
}

// The sum of the four words at a place, which wraps.
#[tactic(auto, using(crate::proofs::Rows::four_words))]
fn row(record: &Record, at: usize) -> u32
    requires { at + 16 ≤ 128 }
    ensures { result ≡ sum_of_words 4 (drop at «record».now) % 2 ^ 32 }
{
    let front = u32::read(record, at).wrapping_add(u32::read(record, at + 4));
    let back = u32::read(record, at + 8).wrapping_add(u32::read(record, at + 12));
    front.wrapping_add(back)
}

// Twice a record's last word, which wraps: what all its words come to where the last one is the sum of those before it.
fn twice_last(record: &Record) -> u32
    ensures { result ≡ (number_in sum_field «record».now + number_in sum_field «record».now) % 2 ^ 32 }
{
    let last = u32::read(record, SUM_PLACE);
    last.wrapping_add(last)
}

// Whether two records have the right sums. All 32 words of each are added, four a turn, and no word of theirs was read before: so the compiler adds them
// sixteen bytes at a time, and the four sums of a record at its end.
#[tactic(auto, unfolding(rules::specs::Image::sum_of_words))]
fn right_sums(first: &Record, second: &Record) -> bool
    ensures { result ≡ (sum_test first.now && sum_test second.now) }
{
    let mut one: u32 = 0;
    let mut other: u32 = 0;
    for turn in 0..8 {
        let at = turn * 16;
        one = one.wrapping_add(row(first, at));
        other = other.wrapping_add(row(second, at));
    }
    (one == twice_last(first)) & (other == twice_last(second))
}

// Whether two records that follow each other are good, the first with this front and the second with the next.
#[tactic(auto, unfolding(crate::specs::Front::good_behind))]
pub fn good_two(front: u64, version: u64, first: &Record, second: &Record) -> bool
    requires { front + 1 < 2 ^ 64 }
    ensures { result ≡ (good_behind front version first.now && good_behind (front + 1) version second.now) }
{
    let next = front + 1;
    right_sums(first, second)
        && (u64::read(first, NUMBER_PLACE) == front)
            & (u64::read(first, VERSION_PLACE) == version)
            & (u64::read(second, NUMBER_PLACE) == next)
            & (u64::read(second, VERSION_PLACE) == version)
}

// Why a record is not good: the first of its tests that fails. Only a bad record is asked, so that where the three before it pass the sum is what fails.
#[tactic(auto, unfolding(rules::specs::Fault::record_fault))]
pub fn fault(i: u16, n: u16, version: u64, record: &Record) -> Reason
    requires { record_fault i n version «record».now ≢ none }
    ensures { record_fault i n version «record».now ≡ (result of_record i) }
{
    let own = u64::read(record, VERSION_PLACE);
    let first = i == 0;
    let good_version = if first { own != 0 } else { own == version };
    if u16::read(record, NUMBER_PLACE) != i {
        Reason::Number
    } else if u16::read(record, COUNT_PLACE) != n {
        Reason::Count
    } else if !good_version {
        Reason::Version
    } else {
        Reason::Sum
    }
}
