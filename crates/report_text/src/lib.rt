// The text of a report, written into a lent buffer: a heading, a line for each host, and a line for each count beside the grid.
#![tactic(auto)]

ghost use Rattle.std.specs.Prelude.{◌++◌, ◌+◌, ◌≤◌, length};
ghost use Rattle.rules.specs.Text.{field};
ghost use Rattle.rules.specs.Report.{row_text, host_lines, count_lines, report_text};
ghost use Rattle.text.specs.Wrote.{WroteWithin};
ghost use Rattle.report_tally.specs.Tally.{page_report};
ghost use Rattle.report_text.specs.Lines.{host_line, row_room, host_room, hosts_room, count_room, counts_room, report_room};

use report_tally::Report;
use rules::Counts;

// The counts of a host, each after a space.
fn put_row(out: &mut [u8], at: usize, row: &[u32; 12]) -> usize
    requires { at + row_room ≤ length out.old }
    ensures { WroteWithin row_room out.old at (row_text row.now) out.new result }
{
    let mut next = at;
    for count in row {
        let spaced = text::put(out, next, b" ");
        next = text::put_decimal(out, spaced, u64::from(*count));
    }
    text::put(out, next, b"\n")
}

fn put_host(out: &mut [u8], at: usize, host: u64, row: &[u32; 12]) -> usize
    requires { at + host_room ≤ length out.old }
    ensures { WroteWithin host_room out.old at (host_line host row.now) out.new result }
{
    let named = text::put(out, at, b"host ");
    let numbered = text::put_decimal(out, named, host);
    put_row(out, numbered, row)
}

// The line of each host; the first is host 1.
fn put_hosts(out: &mut [u8], at: usize, grid: &[[u32; 12]; 4]) -> usize
    requires { at + hosts_room ≤ length out.old }
    ensures { WroteWithin hosts_room out.old at (host_lines 1 grid.now) out.new result }
{
    let mut next = at;
    for (before, row) in grid.iter().enumerate() {
        next = put_host(out, next, 1 + before as u64, row);
    }
    next
}

// A count, after what it counts, whose name and space take at most 11 bytes.
fn put_count(out: &mut [u8], at: usize, name: &[u8], count: u32) -> usize
    requires name_len_bound { length name.now ≤ 11 }
    requires count_room_in_bounds { at + count_room ≤ length out.old }
    ensures { WroteWithin count_room out.old at (name.now ++ field count "\n") out.new result }
{
    let named = text::put(out, at, name);
    text::put_field(out, named, u64::from(count), b"\n")
}

// The line of each count beside the grid; each local is the place after its line.
fn put_counts(out: &mut [u8], at: usize, counts: &Counts) -> usize
    requires { at + counts_room ≤ length out.old }
    ensures { WroteWithin counts_room out.old at (count_lines counts.now) out.new result }
{
    let masks = put_count(out, at, b"function 0 ", counts.masks);
    let ticks = put_count(out, masks, b"ticks ", counts.ticks);
    let powers = put_count(out, ticks, b"power ", counts.powers);
    let readings = put_count(out, powers, b"readings ", counts.readings);
    let bads = put_count(out, readings, b"bad ", counts.bads);
    put_count(out, bads, b"short ", counts.shorts)
}

// The whole text, at the buffer's front; the answer is its length.
pub fn put_report(out: &mut [u8], report: &Report) -> usize
    requires { report_room ≤ length out.old }
    ensures { WroteWithin report_room out.old 0 (report_text (page_report report.now)) out.new result }
{
    let headed = text::put(out, 0, b"status 0 1 2 3 4 5 6 7 8 9 10 11\n");
    let hosts = put_hosts(out, headed, &report.grid);
    put_counts(out, hosts, &report.counts)
}
