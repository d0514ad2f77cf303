// The rules of the hall as definitions, and what is proved of them over every station. No code of a hall is here.
#![tactic(auto)]

mod answer;
mod record;
mod scan;
mod standing;
mod theorems;

pub use answer::{Answer, Layer, Refusal, Served, Turn};
pub use record::Record;
pub use scan::Request;
pub use standing::{Aim, Direction, Standing};
pub use theorems::{bounds_stay, calls_have_one_outcome, room_stays, runs_agree_and_pivots_stay};
