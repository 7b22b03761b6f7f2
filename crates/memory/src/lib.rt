// Memories as the layers above see them: a map from addresses to words, a tag for every address, and for some
// addresses leave to write. Nothing here knows what a word stands for.
#![tactic(auto)]

pub mod bank;
pub mod fault;
pub mod split;
pub mod store;
