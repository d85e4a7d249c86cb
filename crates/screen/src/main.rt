//! Repairs series of sensor readings that may change only so fast. See the library `screen_tool`.
#![tactic(auto)]

use path_flow::PathSolver;
use screen_tool::{Status, real_ends, run};
use std::alloc::AllocError;
use std::env;
use std::io::ErrorKind;
use std::process::ExitCode;
use std::rt::Runtime;

fn main(rt: HostRuntime) -> ExitCode {
    ExitCode::from(run_on(&rt).unwrap_or(Status::Memory.code()))
}

/// Runs on the program's words, and answers the code to end with.
fn run_on<R: Runtime + AllocGlobal>(rt: &R) -> Result<u8, AllocError> {
    let words = words(rt)?;
    let (mut ins, mut outs) = real_ends(rt, words.as_slice())?;
    let mut solver = PathSolver::new(rt.alloc());
    let status = run(
        rt.alloc(),
        words.as_slice(),
        &mut ins,
        &mut outs,
        &mut solver,
    );
    Ok(status.code())
}

/// The words after the program's name; none where one of them is no text.
fn words<R: Runtime + AllocGlobal>(rt: &R) -> Result<Vec<String>, AllocError> {
    let mut words = Vec::new(rt.alloc());
    let args = match env::args(rt) {
        Ok(args) => args,
        Err(fault) if fault.kind() == ErrorKind::OutOfMemory => return Err(AllocError),
        Err(_) => return Ok(words),
    };
    for word in args.skip(1) {
        words.push(word)?;
    }
    Ok(words)
}
