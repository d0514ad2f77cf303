// The written notation of program texts, for people: command letters and marks stand for themselves,
// every other byte is two hexadecimal digits (small letters), and blanks are ignored.
#![tactic(auto)]

mod decoding;
mod encoding;
mod sign;

pub use decoding::{Unreadable, decode};
pub use encoding::encode;
pub use sign::is_command;
