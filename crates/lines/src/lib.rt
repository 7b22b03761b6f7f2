//! Events as text: a trace with each event of a routine on a line of its own, and columns for other tables.
#![tactic(auto)]

mod columns;
mod line;

pub use columns::{instruction_column, kind_column};
pub use line::Line;
