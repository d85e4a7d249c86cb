//! Sources and sinks of bytes that count their faults: the only ends by which the program meets files.
//!
//! A failure is always counted by the object that failed, and a call that succeeds counts none. So a
//! failure that is answered came from outside and was not made up, and none is passed over.
#![tactic(auto)]

mod calls;
mod honest_source;
mod interrupted;
mod memory_sink;
mod memory_source;
mod read;
mod real_sink;
mod real_source;
mod sink;
mod source;
mod write;

pub use honest_source::HonestSource;
pub use memory_sink::MemSink;
pub use memory_source::MemSource;
pub use read::{ReadFault, read_all};
pub use real_sink::RealSink;
pub use real_source::RealSource;
pub use sink::Sink;
pub use source::{Failed, Source};
pub use write::write_all_of;
