//! Bytes in and bytes out: a text cut at a byte, room in a lent buffer, and numbers of one to five digits.
#![tactic(auto)]

mod buffer;
mod cut;
mod number;

pub use buffer::{Writer, has_room};
pub use cut::cut_at;
pub use number::{number_length, read_number};
