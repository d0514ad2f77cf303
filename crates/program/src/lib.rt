// Program texts: reading them, and going through the programs that reading gives. Nothing here allocates.
#![tactic(auto)]

mod check;
mod command;
mod cursor;
mod positions;
mod program;
mod reader;
mod reading;
mod refusal;
mod worked;

pub use check::program_text_check;
pub use command::{Command, Kind, Step};
pub use cursor::Cursor;
pub use positions::programs_spell_their_trees;
pub use program::Program;
pub use reader::parse;
pub use reading::{Reading, read};
pub use refusal::{Fault, Refusal};
pub use worked::worked_texts;
