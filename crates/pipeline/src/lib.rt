// The five-stage core: slots, stage rules, one clock, and the calls that users make.
#![tactic(auto)]

pub mod calls;
pub mod clock;
mod decode_stage;
mod execute_stage;
mod fetch_stage;
mod memory_stage;
pub mod signals;
mod slots;
pub mod state;
mod writeback_stage;
