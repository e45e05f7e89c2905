//! Replays 20,000 stored lines, whose expected output is the Rust crate's.
#![tactic(auto)]

use compact_lines::run_lines;
use std::io;
use std::io::BufWriter;
use std::process::ExitCode;

fn main(rt: HostRuntime) -> ExitCode {
    let Ok(mut writer) = BufWriter::new(rt.alloc(), io::writer(&rt)) else {
        return ExitCode::FAILURE;
    };
    ExitCode::from(run_lines(rt.alloc(), &mut rt.stdin(), &mut writer))
}
