// The hall's tables.
ghost use Rattle.std.specs.Prelude.{◌≡◌, ◌≤◌, length, vec_capacity};

use crate::process::Process;
use program::Program;
use protocol::Record;

mod blockers;
mod finds;
mod moves;
mod programs;
mod rules;
mod steps;

// Plain tables with room reserved, so that no later call needs memory: a rule of the project.
pub struct Tables<S> {
    station: S,
    log: Vec<Record>,
    processes: Vec<Process>,
    programs: [Option<Program>; 8],
    given: u16,
    committed: u32,
    // the log never grows past what was reserved when the hall was made
    ghost room_for_records: { 1024 ≤ vec_capacity log },
    // nor do the processes
    ghost room_for_processes: { 16 ≤ vec_capacity processes },
    // there are as many places for programs as the array has
    ghost eight_places: { length programs ≡ 8 },
}
