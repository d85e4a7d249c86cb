//! Reading a source to its end, within a limit.
ghost use Rattle.std.specs.Prelude.{◌≡◌, ◌≢◌, ◌+◌, ◌<◌, ◌≤◌, List, ℕ, length, Err, IfOk, OnErr, IsErrOf};
ghost use Rattle.screen_io.specs.Faults.{Rose};
ghost use Rattle.screen_io.specs.Source.{Takes, IsAtEnd};

use crate::source::Source;
use std::alloc::{AllocError, Global};
use thiserror::Error;

/// How many bytes a call asks for at most.
const PIECE: usize = 64 * 1024;

/// Why [`read_all`] did not read a source to its end.
#[derive(Clone, Copy, Debug, PartialEq, Eq, Error)]
pub enum ReadFault {
    /// A read failed, and the source counted it.
    #[error("a read failed")]
    Failed,
    /// More bytes came than the limit allows.
    #[error("more bytes came than the limit allows")]
    TooLong,
    /// Memory ran out.
    #[error("memory ran out")]
    Memory,
}

/// Reads a source to its end, at most `limit` bytes.
///
/// The loop ends, whatever the source does: each turn takes a byte at least.
pub fn read_all<S: Source>(alloc: Global, src: &mut S, limit: u64) -> Result<Vec<u8>, ReadFault>
    ensures all { IfOk result (λ bytes. Takes (S.left src.old) bytes.items (S.left src.new)) }
    ensures to_the_end { IfOk result (λ _. IsAtEnd (S.left src.new)) }
    ensures within { IfOk result (λ bytes. length bytes.items ≤ limit) }

    // Whatever stopped it, one byte more than the limit was taken at most.
    ensures rest { OnErr result
        ((taken : List ℕ) × (length taken ≤ limit + 1) × Takes (S.left src.old) taken (S.left src.new)) }
    ensures failed { IsErrOf result ReadFault.Failed → Rose (S.faults src.old) (S.faults src.new) }
    ensures failed_within { IsErrOf result ReadFault.Failed →
        (taken : List ℕ) × (length taken ≤ limit) × Takes (S.left src.old) taken (S.left src.new) }
    // A byte more than the limit came, and no further one was taken.
    ensures too_long { IsErrOf result ReadFault.TooLong →
        (taken : List ℕ) × (length taken ≡ limit + 1) × Takes (S.left src.old) taken (S.left src.new) }

    ensures later { S.faults src.old ≤ S.faults src.new }
    ensures unfailed { result ≢ Err ReadFault.Failed → S.faults src.new ≡ S.faults src.old }
{
    let mut piece = [0u8; PIECE];
    let mut bytes = Vec::new(alloc);
    while bytes.len() as u64 <= limit {
        let wanted = wanted_of(limit - bytes.len() as u64);
        let Ok(count) = src.read(&mut piece[..wanted]) else {
            return Err(ReadFault::Failed);
        };
        if count == 0 {
            return Ok(bytes);
        }
        bytes
            .extend_from_slice(&piece[..count])
            .map_err(|_| ReadFault::Memory)?;
    }
    Err(ReadFault::TooLong)
}

/// How many bytes to ask for where `room` more are allowed: one more than these, so that a byte too
/// many is seen, but no more than a piece.
fn wanted_of(room: u64) -> usize
    ensures some { 0 < result }
    ensures piece { result ≤ PIECE }
    ensures one_more { result ≤ room + 1 }
{
    if room < PIECE as u64 {
        room as usize + 1
    } else {
        PIECE
    }
}
