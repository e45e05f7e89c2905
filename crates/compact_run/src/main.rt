//! Runs the commands of standard input, and writes their results to standard output.
#![tactic(auto)]

use compact_lines::run_lines;
use std::io;
use std::io::BufWriter;
use std::process::ExitCode;

fn main(rt: HostRuntime) -> ExitCode {
    let mut reader = rt.stdin();
    // The output of a line is written in pieces; `run_lines` flushes after each line.
    let Ok(mut writer) = BufWriter::new(rt.alloc(), io::writer(&rt)) else {
        return ExitCode::FAILURE;
    };
    ExitCode::from(run_lines(rt.alloc(), &mut reader, &mut writer))
}
