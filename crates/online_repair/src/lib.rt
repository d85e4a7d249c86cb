//! The online repair of a readings file: its bytes come in pieces, and each row is written, repaired, as soon as the rows
//! after it show that it is ready.
#![tactic(auto)]

mod engine;
mod fault;
mod laws;
mod online;
mod sensors;
mod start;
mod stream;
mod track;

pub use fault::OnlineFault;
pub use laws::{
    outputs_are_one, outputs_exist, refusals_stay, repairs_cost_least, repairs_keep_the_rates,
};
pub use online::Online;
