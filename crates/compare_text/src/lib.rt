// The report of two logs as text: a line for the leading places, one for each place that differs, one for the bytes left over.
#![tactic(auto)]

ghost use Rattle.std.specs.Prelude.{◌∷◌, [], ◌++◌, ◌+◌, ◌*◌, ◌/◌, ◌%◌, ◌≤◌, length, take};
ghost use Rattle.std.specs.Prelude.{if◌then◌else◌};
ghost use Rattle.rules.specs.Tests.{◌=?◌};
ghost use Rattle.rules.specs.Text.{decimal};
ghost use Rattle.text.specs.Wrote.{WroteWithin};
ghost use Rattle.compare_text.specs.Lines.{name_if, entry_line, entry_lines, report_text, report_room, EntriesThere, TextOfReport};
ghost use Rattle.rules.specs.Compare.{report};

use rules::{Compared, Comparison};

// A field's name, if its bit is the lowest and is on.
fn put_name(out: &mut [u8], at: usize, bits: u64, name: &[u8]) -> usize
    requires { at + length name.now ≤ length out.old }
    ensures { WroteWithin (length name.now) out.old at (name_if bits name.now) out.new result }
{
    if bits % 2 == 1 {
        text::put(out, at, name)
    } else {
        at
    }
}

// The names of three fields, the first by the lowest bit.
fn put_names(
    out: &mut [u8],
    at: usize,
    bits: u64,
    first: &[u8],
    second: &[u8],
    third: &[u8],
) -> usize
    requires { at + (length first.now + length second.now + length third.now) ≤ length out.old }
    ensures { WroteWithin (length first.now + length second.now + length third.now) out.old at (name_if bits first.now ++ (name_if (bits / 2) second.now ++ name_if (bits / 4) third.now)) out.new result }
{
    let behind = put_name(out, at, bits, first);
    let last = put_name(out, behind, bits / 2, second);
    put_name(out, last, bits / 4, third)
}

// The line of a place that differs: its number, and the names of the fields that differ.
fn put_line(out: &mut [u8], at: usize, entry: u64) -> usize
    requires { at + 64 ≤ length out.old }
    ensures { WroteWithin 64 out.old at (entry_line entry) out.new result }
{
    let bits = entry % 64;
    let number = text::put_decimal(out, at, entry / 64);
    let half = put_names(out, number, bits, b" kind", b" host", b" revision");
    let names = put_names(out, half, bits / 8, b" function", b" length", b" request");
    text::put(out, names, b"\n")
}

// The lines of entries of the list.
fn put_lines(out: &mut [u8], at: usize, entries: &[u64]) -> usize
    requires { at + 64 * length entries.now ≤ length out.old }
    ensures { WroteWithin (64 * length entries.now) out.old at (entry_lines entries.now) out.new result }
{
    let mut next = at;
    for entry in entries {
        next = put_line(out, next, *entry);
    }
    next
}

// A word, a number and the line's end.
fn put_number(out: &mut [u8], at: usize, word: &[u8], number: u64) -> usize
    requires { (length word.now ≤ 8) × (at + 32 ≤ length out.old) }
    ensures { WroteWithin 32 out.old at (word.now ++ (decimal number ++ (10 ∷ []))) out.new result }
{
    let behind = text::put(out, at, word);
    text::put_field(out, behind, number, b"\n")
}

// The text of logs that were compared, at the front of a buffer.
fn put_compared(out: &mut [u8], compared: Compared, list: &[u64]) -> usize
    requires { (compared.differing ≤ length list.now) × (64 * compared.differing + 64 ≤ length out.old) }
    ensures { WroteWithin (64 * compared.differing + 64) out.old 0 (report_text (report compared.leading compared.differing compared.left) list.now) out.new result }
{
    let first = put_number(out, 0, b"leading ", compared.leading);
    let lines = put_lines(out, first, &list[..compared.differing as usize]);
    put_number(out, lines, b"left ", compared.left)
}

// The whole text of a report, from the list that goes with it.
pub fn put_report(out: &mut [u8], report: Comparison, list: &[u64]) -> usize
    requires { EntriesThere report list.now × (report_room report ≤ length out.old) }
    ensures { WroteWithin (report_room report) out.old 0 (report_text report list.now) out.new result }
{
    match report {
        Ok(compared) => put_compared(out, compared, list),
        Err(full) => put_number(out, 0, b"full ", full.differing),
    }
}

// The text of the entries that a comparison leaves in a list is that of the differing places: the theorem, cited here so that the gate fails where it is gone.
pub fn text_of_report()
    ensures { TextOfReport }
{}
