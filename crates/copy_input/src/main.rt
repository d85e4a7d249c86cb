//! Copies standard input to standard output through the ends that the program uses, so that a run of it shows that
//! bytes come and go.
#![tactic(auto)]

use screen_io::{RealSink, RealSource, read_all, write_all_of};
use std::process::ExitCode;
use std::rt::Runtime;

/// The most bytes that are copied.
const MOST: u64 = 1_000_000;

fn main(rt: HostRuntime) -> ExitCode {
    match copy_input(&rt) {
        Some(()) => ExitCode::SUCCESS,
        None => ExitCode::FAILURE,
    }
}

/// Copies standard input to standard output; `None` where that fails.
fn copy_input<R: Runtime + AllocGlobal>(rt: &R) -> Option<()> {
    let mut input = RealSource::input(rt.clone().ok()?);
    let bytes = read_all(rt.alloc(), &mut input, MOST).ok()?;
    let mut output = RealSink::output(rt.clone().ok()?);
    write_all_of(&mut output, bytes.as_slice()).ok()
}
