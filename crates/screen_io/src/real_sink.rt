//! Sinks over files and standard streams: the only code that writes to the world.
ghost use Rattle.std.specs.Prelude.{◌≡◌, ◌+◌, ◌-◌, ◌^◌, ◌≤◌, min, length, string_bytes, Ok, IfOk, IsOk};
ghost use Rattle.screen_io.specs.Target.{fresh, FileNamed, StandardOutput, StandardError, NoTarget};
ghost use Rattle.screen_io.specs.Ends.{sink_target};

use crate::interrupted::write_again;
use crate::sink::Sink;
use crate::source::Failed;
use std::fmt::{Display, Formatter};
use std::fs::OpenFile;
use std::io::{ErrorKind, Write};
use std::marker::Model;
use std::rt::Runtime;
use std::{fmt, fs, io};

/// A sink over a file, over standard output, over standard error or over nothing. It tells no
/// contents.
///
/// A contract sees it as its target and the count of its faults. That the bytes go to that target is
/// trusted.
#[derive(Drop)]
pub struct RealSink<R: Runtime> {
    end: End<R>,
    faults: u64,
}

/// Where the bytes go.
#[derive(Drop)]
enum End<R: Runtime> {
    /// The file of this name, which is created at the first write.
    File(R, String, Option<R::File>),
    /// Standard output.
    Output(R),
    /// Standard error.
    Error(R),
    /// Nowhere.
    Nothing,
}

impl<R: Runtime> Model for RealSink<R> {
    ghost use Rattle.screen_io.specs.Target.{RealEnd};

    ghost Value = { RealEnd };

    ghost use Rattle.screen_io.specs.Ends.{sink_target};

    ghost view = { λ sink. record { target = sink_target sink.end; faults = sink.faults } };
}

impl<R: Runtime> RealSink<R> {
    /// The file of this name, which is created, or cut to nothing, at the first write.
    pub fn file(rt: R, name: String) -> Self
        ensures { result ≡ fresh (FileNamed (string_bytes name)) }
    {
        RealSink::over(End::File(rt, name, None))
    }

    /// Standard output.
    pub fn output(rt: R) -> Self
        ensures { result ≡ fresh StandardOutput }
    {
        RealSink::over(End::Output(rt))
    }

    /// Standard error, which takes text: bytes that are no text come out as U+FFFD.
    pub fn error(rt: R) -> Self
        ensures { result ≡ fresh StandardError }
    {
        RealSink::over(End::Error(rt))
    }

    /// A sink that takes every byte and drops it.
    pub fn nothing() -> Self
        ensures { result ≡ fresh NoTarget }
    {
        RealSink::over(End::Nothing)
    }

    /// How many calls have failed.
    pub fn fault_count(&self) -> u64
        ensures { result ≡ self.now.faults }
    {
        self.faults
    }

    /// The sink over this end, before its first call.
    fn over(end: End<R>) -> Self
        ensures { result ≡ fresh (sink_target end) }
    {
        RealSink { end, faults: 0 }
    }

    /// Counts a fault.
    fn fail(&mut self) -> Failed
        ensures risen { min (self.old.faults + 1) (2 ^ 64 - 1) ≤ self.new.faults }
        ensures later { self.old.faults ≤ self.new.faults }
        ensures target { self.new.target ≡ self.old.target }
    {
        self.faults = self.faults.saturating_add(1);
        Failed
    }
}

impl<R: Runtime> Sink for RealSink<R> {
    ghost use Rattle.std.specs.Prelude.{◌≡◌, ◌<◌, ◌≤◌, length, None, Ok, IfOk, IsOk, OnOk};
    ghost use Rattle.screen_io.specs.Faults.{CountsFailure};
    ghost use Rattle.screen_io.specs.Target.{NoTarget};

    ghost held = { λ _. None };

    ghost faults = { λ sink. sink.faults };

    fn write(&mut self, bytes: &[u8]) -> Result<usize, Failed>
        ensures bound { IfOk result (λ count. count ≤ length bytes.now) }
        ensures some { IfOk result (λ count. 0 < length bytes.now → 0 < count) }
        ensures cause { CountsFailure self.old.faults self.new.faults result }
        ensures unfailed { OnOk result (self.new.faults ≡ self.old.faults) }

        ensures target { self.new.target ≡ self.old.target }
        ensures nothing { self.old.target ≡ NoTarget → result ≡ Ok (length bytes.now) }
    {
        match write_end(&mut self.end, bytes) {
            Ok(count) if count > 0 || bytes.is_empty() => Ok(count),
            _ => Err(self.fail()),
        }
    }

    fn finish(&mut self) -> Result<(), Failed>
        ensures cause { CountsFailure self.old.faults self.new.faults result }
        ensures unfailed { OnOk result (self.new.faults ≡ self.old.faults) }

        ensures target { self.new.target ≡ self.old.target }
        ensures nothing { self.old.target ≡ NoTarget → IsOk result }
    {
        match finish_end(&mut self.end) {
            Ok(()) => Ok(()),
            Err(_) => Err(self.fail()),
        }
    }
}

/// Writes to the end, which it opens where it is still to be opened.
fn write_end<R: Runtime>(end: &mut End<R>, bytes: &[u8]) -> io::Result<usize>
    ensures bound { IfOk result (λ count. count ≤ length bytes.now) }
    ensures target { sink_target end.new ≡ sink_target end.old }
    ensures nothing { sink_target end.old ≡ NoTarget → result ≡ Ok (length bytes.now) }
{
    match end {
        End::File(rt, name, open) => write_file(rt, name, open, bytes),
        End::Output(rt) => write_again(&mut io::writer(rt), bytes),
        End::Error(rt) => {
            rt.eprint(Text(bytes))?;
            Ok(bytes.len())
        }
        End::Nothing => Ok(bytes.len()),
    }
}

/// Writes to the file of this name, which it creates where it is not open.
fn write_file<R: Runtime>(
    rt: &R,
    name: &str,
    open: &mut Option<R::File>,
    bytes: &[u8],
) -> io::Result<usize>
    ensures { IfOk result (λ count. count ≤ length bytes.now) }
{
    if let Some(file) = open {
        return write_again(file, bytes);
    }
    let mut file = fs::create(rt, name)?;
    let outcome = write_again(&mut file, bytes);
    *open = Some(file);
    outcome
}

/// Hands on what an end may have buffered, and waits until the bytes of a file are stored.
fn finish_end<R: Runtime>(end: &mut End<R>) -> io::Result<()>
    ensures target { sink_target end.new ≡ sink_target end.old }
    ensures nothing { sink_target end.old ≡ NoTarget → IsOk result }
{
    match end {
        End::File(_, _, Some(file)) => {
            file.flush()?;
            store(file)
        }
        End::Output(rt) => io::writer(rt).flush(),
        End::File(..) | End::Error(_) | End::Nothing => Ok(()),
    }
}

/// Waits until the bytes of a file are stored. A quota or a network file system may refuse them only
/// now.
fn store<F: OpenFile>(file: &F) -> io::Result<()> {
    match file.sync_all() {
        Err(fault) if stores_nothing(fault.kind()) => Ok(()),
        outcome => outcome,
    }
}

/// What a pipe or a device answers, which has no store to wait for.
fn stores_nothing(kind: ErrorKind) -> bool {
    matches!(kind, ErrorKind::InvalidInput | ErrorKind::Unsupported)
}

/// Bytes as text.
#[derive(Drop)]
struct Text<'a>(&'a [u8]);

impl Display for Text<'_> {
    fn fmt<W: fmt::Write>(&self, f: &mut Formatter<W>) -> fmt::Result {
        for chunk in self.0.utf8_chunks() {
            f.write_str(chunk.valid())?;
            if !chunk.invalid().is_empty() {
                f.write_str("\u{FFFD}")?;
            }
        }
        Ok(())
    }
}
