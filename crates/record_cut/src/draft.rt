//! The record that a cutter is in.

ghost use Rattle.std.specs.Prelude.{◌≡◌, ◌+◌, ◌≤◌, ◌<◌, ◌^◌, [], ◌∷◌, ◌++◌, length, IfOk, OnOk, OnErr};
ghost use Rattle.record_cut.specs.Drafted.{size_of};

use crate::fields::Fields;
use std::alloc::{AllocError, Global};
use std::marker::Model;

/// The fields of a record that have ended, and the bytes of the next one so far. Its buffers stay for the
/// next record.
#[derive(Drop)]
pub(crate) struct Draft {
    bytes: Vec<u8>,
    ends: Vec<u32>,
    start: usize,
}

impl Model for Draft {
    ghost use Rattle.std.specs.Prelude.{◌≤◌, length, drop};
    ghost use Rattle.record_cut.specs.Split.{pieces, Rises};
    ghost use Rattle.record_cut.specs.Drafted.{Drafted};

    ghost Value = { Drafted };

    ghost view = { λ d. record { fields = pieces d.bytes.items 0 d.ends.items; field = drop d.start d.bytes.items } };

    ghost invariant = { λ d. Rises 0 d.ends.items d.start × (d.start ≤ length d.bytes.items) };
}

impl Draft {
    /// No field and no byte. It takes no memory.
    pub(crate) fn new(alloc: Global) -> Draft
        ensures fields { result.fields ≡ [] }
        ensures field { result.field ≡ [] }
    {
        Draft {
            bytes: Vec::new(alloc),
            ends: Vec::new(alloc),
            start: 0,
        }
    }

    /// Drops all fields and bytes.
    pub(crate) fn clear(&mut self)
        ensures fields { self.new.fields ≡ [] }
        ensures field { self.new.field ≡ [] }
    {
        self.bytes.clear();
        self.ends.clear();
        self.start = 0;
    }

    /// Adds a byte to the field.
    pub(crate) fn add(&mut self, byte: u8) -> Result<(), AllocError>
        ensures fields { self.new.fields ≡ self.old.fields }
        ensures field { OnOk result (self.new.field ≡ self.old.field ++ byte ∷ []) }
        ensures size { size_of self.new ≤ size_of self.old + 1 }
    {
        self.bytes.push(byte)?;
        Ok(())
    }

    /// Adds bytes to the field.
    pub(crate) fn extend(&mut self, bytes: &[u8]) -> Result<(), AllocError>
        ensures fields { self.new.fields ≡ self.old.fields }
        ensures field { OnOk result (self.new.field ≡ self.old.field ++ bytes.now) }
        ensures size { size_of self.new ≤ size_of self.old + length bytes.now }
        ensures err { OnErr result (size_of self.new ≡ size_of self.old) }
    {
        self.bytes.extend_from_slice(bytes)?;
        Ok(())
    }

    /// Ends the field.
    pub(crate) fn end_field(&mut self) -> Result<(), AllocError>
        requires { size_of self.old < 2 ^ 32 }
        ensures fields { OnOk result (self.new.fields ≡ self.old.fields ++ self.old.field ∷ []) }
        ensures field { OnOk result (self.new.field ≡ []) }
        ensures size { size_of self.new ≤ size_of self.old + 1 }
    {
        self.ends.push(self.bytes.len() as u32)?;
        self.start = self.bytes.len();
        Ok(())
    }

    /// Ends the field with these bytes, hands out all fields in buffers of their size, and drops them here.
    pub(crate) fn take_fields(&mut self, alloc: Global, last: &[u8]) -> Result<Fields, AllocError>
        requires { size_of self.old + length last.now + 1 < 2 ^ 32 }
        ensures ok { IfOk result
            (λ fields. fields ≡ self.old.fields ++ (self.old.field ++ last.now) ∷ []) }
        ensures fields { self.new.fields ≡ [] }
        ensures field { self.new.field ≡ [] }
    {
        let fields = self.end_record(alloc, last);
        self.clear();
        fields
    }

    /// Ends the field with these bytes, and copies all fields.
    fn end_record(&mut self, alloc: Global, last: &[u8]) -> Result<Fields, AllocError>
        requires { size_of self.old + length last.now + 1 < 2 ^ 32 }
        ensures { IfOk result
            (λ fields. fields ≡ self.old.fields ++ (self.old.field ++ last.now) ∷ []) }
    {
        self.extend(last)?;
        self.end_field()?;
        self.copied(alloc)
    }

    /// A copy of the fields, where no byte follows them.
    fn copied(&self, alloc: Global) -> Result<Fields, AllocError>
        requires ended { self.now.field ≡ [] }
        requires few { size_of self.now < 2 ^ 32 }
        ensures { IfOk result (λ fields. fields ≡ self.now.fields) }
    {
        let bytes = Vec::from_slice(alloc, self.bytes.as_slice())?;
        let ends = Vec::from_slice(alloc, self.ends.as_slice())?;
        Ok(Fields::from_parts(bytes, ends))
    }
}
