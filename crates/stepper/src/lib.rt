// The stepper: one instruction at a time, no clocks. What it does is the meaning of a routine.
#![tactic(auto)]

pub mod access;
pub mod event;
pub mod execute;
pub mod registers;
pub mod run;
pub mod stepper;
