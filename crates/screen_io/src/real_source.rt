//! Sources over files and standard input: the only code that reads from the world.
ghost use Rattle.std.specs.Prelude.{◌≡◌, ◌≤◌, length, string_bytes, Ok, IfOk};
ghost use Rattle.screen_io.specs.Target.{fresh, FileNamed, StandardInput, NoTarget};
ghost use Rattle.screen_io.specs.Ends.{source_target};

use crate::interrupted::read_again;
use crate::source::{Failed, Source};
use std::marker::Model;
use std::rt::Runtime;
use std::{fs, io};

/// A source over a file, over standard input or over nothing. It tells no contents.
///
/// A contract sees it as its target and the count of its faults. That bytes come from that target is
/// trusted.
#[derive(Drop)]
pub struct RealSource<R: Runtime> {
    end: End<R>,
    faults: u64,
}

/// Where the bytes come from.
#[derive(Drop)]
enum End<R: Runtime> {
    /// The file of this name, which is opened at the first call.
    File(R, String, Option<R::File>),
    /// Standard input.
    Input(R::Reader),
    /// No bytes.
    Nothing,
}

impl<R: Runtime> Model for RealSource<R> {
    ghost use Rattle.screen_io.specs.Target.{RealEnd};

    ghost Value = { RealEnd };

    ghost use Rattle.screen_io.specs.Ends.{source_target};

    ghost view = { λ source. record { target = source_target source.end; faults = source.faults } };
}

impl<R: Runtime> RealSource<R> {
    /// The file of this name, which is opened for reading at the first call.
    pub fn file(rt: R, name: String) -> Self
        ensures { result ≡ fresh (FileNamed (string_bytes name)) }
    {
        RealSource::over(End::File(rt, name, None))
    }

    /// Standard input.
    pub fn input(rt: R) -> Self
        ensures { result ≡ fresh StandardInput }
    {
        RealSource::over(End::Input(rt.reader()))
    }

    /// A source that is at its end.
    pub fn nothing() -> Self
        ensures { result ≡ fresh NoTarget }
    {
        RealSource::over(End::Nothing)
    }

    /// How many calls have failed.
    pub fn fault_count(&self) -> u64
        ensures { result ≡ self.now.faults }
    {
        self.faults
    }

    /// The source over this end, before its first call.
    fn over(end: End<R>) -> Self
        ensures { result ≡ fresh (source_target end) }
    {
        RealSource { end, faults: 0 }
    }
}

impl<R: Runtime> Source for RealSource<R> {
    ghost use Rattle.std.specs.Prelude.{◌≡◌, ◌≤◌, length, None, Ok, IfOk, OnOk};
    ghost use Rattle.screen_io.specs.Faults.{CountsFailure};
    ghost use Rattle.screen_io.specs.Target.{NoTarget};

    ghost left = { λ _. None };

    ghost faults = { λ source. source.faults };

    fn read(&mut self, buf: &mut [u8]) -> Result<usize, Failed>
        ensures bound { IfOk result (λ count. count ≤ length buf.new) }
        ensures cause { CountsFailure self.old.faults self.new.faults result }
        ensures unfailed { OnOk result (self.new.faults ≡ self.old.faults) }

        ensures target { self.new.target ≡ self.old.target }
        ensures nothing { self.old.target ≡ NoTarget → result ≡ Ok 0 }
    {
        match read_end(&mut self.end, buf) {
            Ok(count) => Ok(count),
            Err(_) => {
                self.faults = self.faults.saturating_add(1);
                Err(Failed)
            }
        }
    }
}

/// Reads from the end, which it opens where it is still to be opened.
fn read_end<R: Runtime>(end: &mut End<R>, buf: &mut [u8]) -> io::Result<usize>
    ensures bound { IfOk result (λ count. count ≤ length buf.new) }
    ensures target { source_target end.new ≡ source_target end.old }
    ensures nothing { source_target end.old ≡ NoTarget → result ≡ Ok 0 }
{
    match end {
        End::File(rt, name, open) => read_file(rt, name, open, buf),
        End::Input(reader) => read_again(reader, buf),
        End::Nothing => Ok(0),
    }
}

/// Reads from the file of this name, which it opens where it is not open.
fn read_file<R: Runtime>(
    rt: &R,
    name: &str,
    open: &mut Option<R::File>,
    buf: &mut [u8],
) -> io::Result<usize>
    ensures { IfOk result (λ count. count ≤ length buf.new) }
{
    if let Some(file) = open {
        return read_again(file, buf);
    }
    let mut file = fs::open(rt, name)?;
    let outcome = read_again(&mut file, buf);
    *open = Some(file);
    outcome
}
