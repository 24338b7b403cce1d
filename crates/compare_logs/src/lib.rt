// Two logs side by side: the report, the list of the places that differ, and the rest of the longer log.
#![tactic(auto)]

ghost use Rattle.std.specs.Prelude.{◌≡◌, length};
ghost use Rattle.rules.specs.Compare.{comparison, list_after, rest_after};
ghost use Rattle.compare_places.specs.SoFar.{none_places, part_counted};
ghost use Rattle.compare_logs.specs.Part.{RestOf, Lies, HandedBack, WithItsReport};

use compare_places::SoFar;
use rules::{Compared, Comparison, ListFull};

// The rest of the longer log; of logs of one length the empty end of the first.
fn rest<'a>(first: &'a [u8], second: &'a [u8]) -> &'a [u8]
    ensures { RestOf first.entry second.entry result }
{
    if second.len() <= first.len() {
        &first[second.len()..]
    } else {
        &second[first.len()..]
    }
}

// The empty end of a log.
fn end<'a>(log: &'a [u8]) -> &'a [u8]
    ensures { Lies log.entry (length log.now) result }
{
    &log[log.len()..]
}

// What is handed back with a report of the two logs: the rest of the longer one, or where the list was full the empty end of the first.
pub fn handed_back<'a>(first: &'a [u8], second: &'a [u8], report: Comparison) -> &'a [u8]
    ensures handed_back { HandedBack report first.entry second.entry result }
    ensures result_value { result.now ≡ rest_after report first.now second.now }
    ensures with_its_report { WithItsReport report first.entry second.entry result }
{
    match report {
        Ok(_) => rest(first, second),
        Err(_) => end(first),
    }
}

// The places of two logs of one length, counted and not listed.
fn count(first: &[u8], second: &[u8]) -> SoFar
    requires { length first.now ≡ length second.now }
    ensures { result ≡ part_counted none_places first.now second.now }
{
    SoFar::none().with_part(first, second, &mut [])
}

// Compares two logs place by place, up to the end of the shorter. The list is filled from its front, where it holds every differing place, and else stays as it came;
// so the places are counted before they are listed.
pub fn compare(first: &[u8], second: &[u8], list: &mut [u64]) -> Comparison
    ensures value { result ≡ comparison first.now second.now (length list.old) }
    ensures list_after { list.new ≡ list_after first.now second.now list.old }
{
    let both = first.len().min(second.len());
    let (one, other) = (&first[..both], &second[..both]);
    let SoFar {
        leading,
        differing,
        ..
    } = count(one, other);
    if (list.len() as u64) < differing {
        return Err(ListFull { differing });
    }
    SoFar::none().with_part(one, other, list);
    Ok(Compared {
        leading,
        differing,
        left: (first.len() - both + (second.len() - both)) as u64,
    })
}
