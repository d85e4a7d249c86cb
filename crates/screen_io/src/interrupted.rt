//! Calls on the system that are made again where a signal cut them off.
ghost use Rattle.std.specs.Prelude.{◌≤◌, length, IfOk};
ghost use Rattle.std.specs.Io.KnownBytes.{ReadConsumes, WriteAppends};

use std::io;
use std::io::{ErrorKind, Read, Write};

/// How often a call is made again.
const RETRIES: u32 = 64;

/// Reads once, and again where a signal interrupted the call.
pub fn read_again<T: Read>(from: &mut T, buf: &mut [u8]) -> io::Result<usize>
    ensures bound { IfOk result (λ count. count ≤ length buf.new) }
    ensures bytes { ReadConsumes (T.remaining from.old) (T.remaining from.new) result buf.new }
{
    for _ in 0..RETRIES {
        match from.read(buf) {
            Err(fault) if fault.kind() == ErrorKind::Interrupted => {}
            outcome => return outcome,
        }
    }
    from.read(buf)
}

/// Writes once, and again where a signal interrupted the call.
pub fn write_again<T: Write>(to: &mut T, bytes: &[u8]) -> io::Result<usize>
    ensures bound { IfOk result (λ count. count ≤ length bytes.now) }
    ensures bytes { WriteAppends (T.contents to.old) (T.contents to.new) result bytes.now }
{
    for _ in 0..RETRIES {
        match to.write(bytes) {
            Err(fault) if fault.kind() == ErrorKind::Interrupted => {}
            outcome => return outcome,
        }
    }
    to.write(bytes)
}
