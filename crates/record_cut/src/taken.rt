//! What a cutter takes of a slice.

use crate::fault::CutFault;
use crate::fields::Fields;

/// How many bytes of a slice were taken, and the answer to the last of them. The byte that ended a record
/// or was refused is among them.
#[derive(Drop)]
pub struct Taken {
    /// How many bytes, from the first on.
    pub count: usize,
    /// The fields of the record that the last byte ended, none where no byte ended one, or why the last byte
    /// was refused.
    pub answer: Result<Option<Fields>, CutFault>,
}

impl Taken {
    ghost use Rattle.std.specs.Prelude.{◌≡◌, ◌↔◌, IsTrue, None, Ok};

    /// Whether no byte ended a record or was refused.
    pub fn goes_on(&self) -> bool
        ensures { IsTrue result ↔ (self.now.answer ≡ Ok None) }
    {
        match &self.answer {
            Ok(found) => found.is_none(),
            Err(_) => false,
        }
    }
}
