// The report program, from any report on: it feeds the logs that its arguments name one after another, and prints the report.
#![tactic(auto)]

use program_files::{System, Unwritten};
use report_tally::Report;
use report_turns::Reporting;
use std::process::ExitCode;

// The report's text, which has room for 2,048 bytes.
const TEXT: usize = 2048;

// Feeds the logs, and prints the report.
fn report<R: System>(rt: &R, report: Report) -> Result<(), Unwritten> {
    let mut reporting = Reporting::on(report);
    program_logs::go_through(rt, |logs, buf, name| {
        if reporting.turn_in(logs, buf).is_err() {
            program_files::refuse(rt, name, b"log too many");
        }
        Ok(())
    })?;
    let mut out = [0u8; TEXT];
    let end = report_text::put_report(&mut out, &reporting.kept);
    program_files::show(rt, &out[..end])
}

pub fn run<R: System>(rt: &R, from: Report) -> ExitCode {
    match report(rt, from) {
        Ok(()) => ExitCode::SUCCESS,
        Err(unwritten) => ExitCode::from(unwritten),
    }
}
