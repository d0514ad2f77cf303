// Stations: a state that activities change, with two stations that are made of others.
#![tactic(auto)]

mod pair;
mod renumbering;
mod station;

pub use pair::Pair;
pub use renumbering::Renumbering;
pub use station::Station;
