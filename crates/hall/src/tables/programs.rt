// The programs of the table: what a process has next, and where that leads.
ghost use Rattle.std.specs.Prelude.{◌≡◌, ◌+◌, ◌≤◌, None, slice_index_or};
ghost use Rattle.std.specs.Option.{option_map};
ghost use Rattle.program.specs.Positions.{onward, alternative_of, into};
ghost use Rattle.protocol.specs.Ahead.{next};
ghost use Rattle.hall.specs.Model.{here, position_at, step_to};

use super::Tables;
use crate::process::Process;
use program::{Cursor, Program, Step};
use station::Station;

impl<S: Station> Tables<S> {
    // The program at a place, if there is one.
    fn program_at(&self, place: u8) -> Option<&Program>
        ensures { option_map (λ x. x.now) result ≡ slice_index_or self.now.programs place None }
    {
        self.programs.get(usize::from(place))?.as_ref()
    }

    // The step that a process has next, if its program has one.
    pub(super) fn next_step(&self, p: Process) -> Option<Step>
        ensures { step_to result (onward (here self.now.programs p)) ≡ next (here self.now.programs p) }
    {
        self.program_at(p.place)
            .and_then(|program| program.next(p.cursor))
    }

    // Where what is next leads.
    pub(super) fn onward(&self, p: Process) -> Cursor
        ensures { position_at self.now.programs p result ≡ onward (here self.now.programs p) }
    {
        self.program_at(p.place)
            .map_or(p.cursor, |program| program.onward(p.cursor))
    }

    // The beginning of the next alternative of a process's last pivot.
    pub(super) fn next_alternative(&self, p: Process) -> Cursor
        ensures { position_at self.now.programs p result ≡ into (alternative_of (here self.now.programs p) + 1) (here self.now.programs p) }
    {
        self.program_at(p.place)
            .map_or(p.cursor, |program| program.next_alternative(p.cursor))
    }

    // The ordinal of the alternative that the process has taken: the one after it fits a byte.
    pub(super) fn alternative(&self, p: Process) -> u32
        ensures is { result ≡ alternative_of (here self.now.programs p) }
        ensures low { result ≤ 254 }
    {
        self.program_at(p.place)
            .map_or(0, |_| p.cursor.alternative())
    }
}
