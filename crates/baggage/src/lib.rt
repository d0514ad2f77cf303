// The stations of a baggage hall: Lanes, the early bag store, and the Register of bags.
#![tactic(auto)]

mod catalogue;
mod cell;
mod lanes;
mod register;
mod row;

pub use lanes::Lanes;
pub use register::Register;
