//! The words of the program `screen`: what its words ask for, which ends they name, how a run may end, and what it says then.
#![tactic(auto)]

mod cert_note;
mod command;
mod ends;
mod note;
mod outside;
mod status;
mod step;

pub use command::{Command, command_from, roles};
pub use ends::{EndUse, Inputs, Outputs, Roles};
pub use note::{Note, note_of};
pub use outside::real_ends;
pub use status::{Ending, Outcome, Status};
pub use step::StepFault;
