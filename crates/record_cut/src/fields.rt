//! Lists of byte fields.

use crate::split::{piece_at, push_piece};
use std::alloc::{AllocError, Global};
use std::marker::Model;

/// A list of byte fields, as of a record, of less than 2^32 bytes in all. They stand in one buffer, with the
/// place where each ends.
#[derive(Drop)]
pub struct Fields {
    bytes: Vec<u8>,
    ends: Vec<u32>,
}

impl Model for Fields {
    ghost use Rattle.std.specs.Prelude.{ℕ, ◌^◌, ◌<◌, List, length};
    ghost use Rattle.record_cut.specs.Split.{pieces, Rises};

    ghost Value = { List (List ℕ) };

    ghost view = { λ f. pieces f.bytes.items 0 f.ends.items };

    ghost invariant = { λ f. Rises 0 f.ends.items (length f.bytes.items) × (length f.ends.items < 2 ^ 32) };
}

impl Fields {
    ghost use Rattle.std.specs.Prelude.{◌≡◌, ◌+◌, ◌-◌, ◌<◌, ◌^◌, List, ℕ, [], ◌∷◌, ◌++◌, length, slice_get, slice_index_or, option_copied, OnOk, OnErr};
    ghost use Rattle.record_cut.specs.Split.{pieces, Rises};

    /// No field. It takes no memory.
    pub fn new(alloc: Global) -> Fields
        ensures { result ≡ [] }
    {
        Fields {
            bytes: Vec::new(alloc),
            ends: Vec::new(alloc),
        }
    }

    /// The fields that end at these places of the bytes, where the last ends with the bytes.
    pub(crate) fn from_parts(bytes: Vec<u8>, ends: Vec<u32>) -> Fields
        requires rises { Rises 0 ends.items (length bytes.items) }
        requires few { length ends.items < 2 ^ 32 }
        ensures { result ≡ pieces bytes.items 0 ends.items }
    {
        Fields { bytes, ends }
    }

    /// Adds a copy of the field at the end. Where memory runs out the list stays as it was. A list whose
    /// fields would come to 2^32 bytes has no memory for them either.
    pub fn push(&mut self, field: &[u8]) -> Result<(), AllocError>
        requires { length self.old < 2 ^ 32 - 1 }
        ensures ok { OnOk result (self.new ≡ self.old ++ field.now ∷ []) }
        ensures err { OnErr result (self.new ≡ self.old) }
    {
        push_piece(&mut self.bytes, &mut self.ends, field)
    }

    /// How many fields there are.
    pub fn width(&self) -> u32
        ensures { result ≡ length self.now }
    {
        self.ends.len() as u32
    }

    /// The field at this place, counted from 0.
    pub fn field(&self, i: u32) -> Option<&[u8]>
        ensures { option_copied result ≡ slice_get self.now i }
    {
        if i < self.width() {
            Some(self.at(i))
        } else {
            None
        }
    }

    /// The field at this place, counted from 0, where there is one.
    pub(crate) fn at(&self, i: u32) -> &[u8]
        requires { i < length self.now }
        ensures { result.now ≡ slice_index_or self.now i result.now }
    {
        piece_at(&self.bytes, &self.ends, i as usize)
    }

    /// How many bytes the fields have.
    pub(crate) fn size(&self) -> usize {
        self.bytes.len()
    }
}

impl Clone for Fields {
    ghost use Rattle.std.specs.Prelude.{◌≡◌};

    ghost is_clone = { λ fields copy. copy ≡ fields };

    fn clone(&self) -> Result<Fields, AllocError> {
        let alloc = *self.bytes.allocator();
        let bytes = Vec::from_slice(alloc, self.bytes.as_slice())?;
        let ends = Vec::from_slice(alloc, self.ends.as_slice())?;
        Ok(Fields { bytes, ends })
    }
}
