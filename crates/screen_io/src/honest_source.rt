//! A source in memory that never fails.
ghost use Rattle.std.specs.Prelude.{◌≡◌, ◌≤◌, min, length, Some};
ghost use Rattle.screen_io.specs.Source.{TakesInto};

use crate::source::{Failed, Source};
use std::marker::Model;

/// A source over bytes in memory that gives all of them and never fails. It takes no memory.
///
/// A contract sees it as the bytes that are left.
#[derive(Drop)]
pub struct HonestSource {
    bytes: Vec<u8>,
    position: usize,
}

impl Model for HonestSource {
    ghost use Rattle.std.specs.Prelude.{◌≤◌, ℕ, List, drop, vec_len};

    ghost Value = { List ℕ };

    ghost view = { λ source. drop source.position source.bytes.items };

    ghost invariant = { λ source. source.position ≤ vec_len source.bytes };
}

impl HonestSource {
    /// A source of these bytes.
    pub fn new(bytes: Vec<u8>) -> HonestSource
        ensures { result ≡ bytes.items }
    {
        HonestSource { bytes, position: 0 }
    }

    /// Moves the next bytes into `buf` and answers how many, as many as fit.
    pub(crate) fn give(&mut self, buf: &mut [u8]) -> usize
        ensures amount { result ≡ min (length self.old) (length buf.old) }
        ensures bytes { TakesInto (Some self.old) (Some self.new) buf.new result }
    {
        let left = &self.bytes[self.position..];
        let count = left.len().min(buf.len());
        buf[..count].copy_from_slice(&left[..count]);
        self.position += count;
        count
    }
}

impl Source for HonestSource {
    ghost use Rattle.std.specs.Prelude.{Some};

    ghost left = { λ left. Some left };

    ghost faults = { λ _. 0 };

    fn read(&mut self, buf: &mut [u8]) -> Result<usize, Failed> {
        Ok(self.give(buf))
    }
}
