//! The clock law in code: from the events of a routine alone, the clock of each event, and what cost the clocks between.
#![tactic(auto)]

pub mod due;
mod sorts;
