//! A growing list whose contracts see its elements alone, and not where they lie in memory.
#![tactic(auto)]

ghost use Rattle.std.specs.Prelude.{◌≡◌, [], ◌∷◌, ◌++◌, length, slice_get, slice_set, option_copied, IfOk, OnOk, OnErr, ◌==◌, ◌<◌};

use std::alloc::{AllocError, Global};
use std::marker::Model;

/// A list that grows at its end, over a vector.
///
/// Two lists with the same elements are equal in every contract, whatever room they have taken.
#[derive(Drop)]
pub struct Sequence<T> {
    elements: Vec<T>,
}

impl<T> Model for Sequence<T> {
    ghost use Rattle.std.specs.Prelude.{List};

    ghost Value = { List T };

    ghost view = { λ s. s.elements.items };
}

impl<T: Drop> Sequence<T> {
    /// The empty list. It takes no memory until the first push.
    pub fn new(alloc: Global) -> Self
        ensures { result ≡ [] }
    {
        Sequence {
            elements: Vec::new(alloc),
        }
    }

    /// The empty list with room for `room` elements, all taken at once; more of them take further memory.
    pub fn with_capacity(alloc: Global, room: usize) -> Result<Self, AllocError>
        ensures { IfOk result (λ list. list ≡ []) }
    {
        Ok(Sequence {
            elements: Vec::with_capacity(alloc, room)?,
        })
    }

    /// The list of a vector's elements. Takes no memory.
    pub fn from_vec(elements: Vec<T>) -> Self
        ensures { result ≡ elements.items }
    {
        Sequence { elements }
    }

    /// Adds an element at the end. Where memory runs out the list is as it was.
    pub fn push(&mut self, element: T) -> Result<(), AllocError>
        ensures ok { OnOk result (self.new ≡ self.old ++ element ∷ []) }
        ensures err { OnErr result (self.new ≡ self.old) }
    {
        self.elements.push(element)?;
        Ok(())
    }

    /// The number of elements.
    pub fn len(&self) -> usize
        ensures { result ≡ length self.now }
    {
        self.elements.len()
    }

    /// Whether there is no element.
    pub fn is_empty(&self) -> bool
        ensures { result ≡ (length self.now == 0) }
    {
        self.elements.is_empty()
    }

    /// Puts another element in the place of the one at `index`, counted from 0.
    pub fn set(&mut self, index: usize, element: T)
        requires { index < length self.old }
        ensures { self.new ≡ slice_set self.old index element }
    {
        self.elements[index] = element;
    }

    /// The element at a place counted from 0, and `None` where the list is not that long.
    pub fn get(&self, index: usize) -> Option<&T>
        ensures { option_copied result ≡ slice_get self.now index }
    {
        self.elements.get(index)
    }

    /// All elements in order.
    pub fn as_slice(&self) -> &[T]
        ensures { result.now ≡ self.now }
    {
        self.elements.as_slice()
    }

    /// The elements as a vector. Takes no memory.
    pub fn into_vec(self) -> Vec<T>
        ensures { result.items ≡ self }
    {
        self.elements
    }
}

impl<T: Copy> Sequence<T> {
    /// A copy of the elements, in a list with room for just these.
    pub fn from_slice(alloc: Global, elements: &[T]) -> Result<Self, AllocError>
        ensures { IfOk result (λ list. list ≡ elements.now) }
    {
        Ok(Sequence {
            elements: Vec::from_slice(alloc, elements)?,
        })
    }

    /// Adds a copy of the elements at the end. Where memory runs out the list is as it was.
    pub fn extend_from_slice(&mut self, elements: &[T]) -> Result<(), AllocError>
        ensures ok { OnOk result (self.new ≡ self.old ++ elements.now) }
        ensures err { OnErr result (self.new ≡ self.old) }
    {
        self.elements.extend_from_slice(elements)
    }
}

impl Sequence<u8> {
    /// The bytes of a list of bytes.
    pub fn bytes(&self) -> &[u8]
        ensures { result.now ≡ self.now }
    {
        self.elements.as_slice()
    }
}
