// The hall's tables, and what its steps do to them. Nothing here can be called from outside yet.
#![tactic(auto)]

mod claim;
mod log;
mod process;
mod tables;
