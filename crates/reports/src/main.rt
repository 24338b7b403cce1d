// Reports on logs: which host was answered what, over all logs that the arguments name (document 02, T-01). `-` is standard input. What cannot be read or written,
// and a log too many, is named on standard error; the other logs are counted all the same.
#![tactic(auto)]

use report_tally::Report;
use std::process::ExitCode;

fn main(rt: HostRuntime) -> ExitCode {
    program_report::run(&rt, Report::default())
}
