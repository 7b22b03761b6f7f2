// A program image: its blocks are tested and read once, by `Image::open`, and its words are looked up from then on.
#![tactic(auto)]

mod block;
mod faults;
mod image;
mod layout;
mod refusal;
mod store;
mod sum;
mod text;
mod words;

pub use image::Image;
pub use layout::PAYLOAD_WORDS;
pub use refusal::{OpenError, Refusal};
pub use store::ImageStore;
pub use sum::{RIGHT_SUM, sum_of};
pub use words::Words;
