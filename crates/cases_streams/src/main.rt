//! Cases of medians, ordered windows, the values of a sensor, and files that are repaired as they come.
#![tactic(auto)]

mod medians;
mod online;
mod plain_repair;
mod rules;
mod texts;
mod turns;
mod values;
mod windows;

use case_file::judge;
use std::io;
use std::rt::Runtime;

fn main(rt: HostRuntime) -> io::Result<()> {
    judge(&rt, "medians", &medians::Medians)?;
    judge(&rt, "windows", &turns::Windows)?;
    judge(&rt, "values", &values::Values)?;
    judge(&rt, "online", &online::Streams)
}
