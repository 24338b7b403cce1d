// Tries the refusal of a log too many, which no log reaches from nothing: the report program, with every count 10 below the largest.
#![tactic(auto)]

use report_tally::Report;
use rules::Counts;
use std::process::ExitCode;

fn main(rt: HostRuntime) -> ExitCode {
    let counts = Counts {
        masks: 4294967285,
        ticks: 4294967285,
        powers: 4294967285,
        readings: 4294967285,
        bads: 4294967285,
        shorts: 4294967285,
    };
    let grid = [[4294967285; 12]; 4];
    program_report::run(&rt, Report { grid, counts })
}
