//! Measures proved functions, for `bench/run.sh`. The first word names what is measured, the second, where there is one,
//! the folder of the files on which it is measured.
#![tactic(auto)]

mod bounds;
mod cert;
mod chain;
mod records;
mod repaired;
mod settled;
mod table;
mod text_of;
mod texts;
mod ticks;
mod timed;
mod units;

use bounds::Task;
use records::Form;
use std::rt::Runtime;
use std::{env, io};
use table::Way;

fn main(rt: HostRuntime) -> io::Result<()> {
    let mut words = env::args(&rt)?.skip(1);
    let Some(word) = words.next() else {
        return Ok(());
    };
    match words.next() {
        Some(folder) => measure_files(&rt, word.as_str(), folder.as_str()),
        None => measure(&rt, word.as_str()),
    }
}

/// Measures on files.
fn measure_files<R: Runtime + AllocGlobal>(rt: &R, word: &str, folder: &str) -> io::Result<()> {
    match word {
        "repair" => repaired::measure(rt, folder),
        "texts" => repaired::measure_texts(rt, folder),
        _ => println!(rt; "{word} is not measured"),
    }
}

/// Measures on what is made here.
fn measure<R: Runtime + AllocGlobal>(rt: &R, word: &str) -> io::Result<()> {
    match word {
        "blocked" => settled::measure(rt, true),
        "bounds-speed" => bounds::measure(rt, Task::Make, false),
        "bounds-swing" => bounds::measure(rt, Task::Make, true),
        "broken-speed" => bounds::measure(rt, Task::Test, false),
        "broken-swing" => bounds::measure(rt, Task::Test, true),
        "cert-check" => cert::measure(rt, cert::Task::Check),
        "cert-read" => cert::measure(rt, cert::Task::Read),
        "cert-write" => cert::measure(rt, cert::Task::Write),
        "records" => records::measure(rt, Form::Plain, false),
        "records-quoted" => records::measure(rt, Form::Quoted, false),
        "records-crlf" => records::measure(rt, Form::CrLf, false),
        "slices" => records::measure(rt, Form::Plain, true),
        "slices-quoted" => records::measure(rt, Form::Quoted, true),
        "slices-crlf" => records::measure(rt, Form::CrLf, true),
        "settle" => settled::measure(rt, false),
        "table-read-2" => table::measure(rt, Way::Read, false),
        "table-read-8" => table::measure(rt, Way::Read, true),
        "table-text-2" => table::measure(rt, Way::Write, false),
        "table-text-8" => table::measure(rt, Way::Write, true),
        "text_of" => text_of::measure(rt),
        "ticks" => ticks::measure(rt),
        "units" => units::measure(rt),
        _ => println!(rt; "{word} is not measured"),
    }
}
