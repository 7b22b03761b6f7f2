// The edge that the programs share. What is read no contract can say; what is written, the contracts say where a line's
// text is promised.
#![tactic(auto)]

mod input;
mod memories;
mod output;

pub use input::{read_image, show_image, show_input};
pub use memories::{DATA_WORDS, stepped, with_memories};
pub use output::{print_events, print_listing};
