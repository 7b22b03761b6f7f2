//! The listing's lines, each made in a buffer that the caller lends. Nothing here prints.
#![tactic(auto)]

pub mod clocking;
pub mod line;
mod text;
