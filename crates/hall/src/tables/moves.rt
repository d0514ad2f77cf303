// A process of the table moved, set to another standing, or taken out.
ghost use Rattle.std.specs.Prelude.{◌≡◌};
ghost use Rattle.protocol.specs.Hall.{changed, without, stand, move, with_processes};
ghost use Rattle.hall.specs.Model.{model, position_at, IsOnly};

use super::Tables;
use crate::process::Process;
use program::Cursor;
use protocol::Standing;
use station::Station;

impl<S: Station> Tables<S> {
    // The process gets another standing, and goes to another place of its program, or stays where it is.
    pub(super) fn relocate(&mut self, p: Process, s: Standing, to: Cursor)
        requires { IsOnly p self.old.processes.items }
        ensures moved { model S.Station.view self.new ≡ with_processes (model S.Station.view self.old) (changed p.start (move s (position_at self.old.programs p to)) (model S.Station.view self.old).processes) }
        ensures stays { to ≡ p.cursor → model S.Station.view self.new ≡ with_processes (model S.Station.view self.old) (changed p.start (stand s) (model S.Station.view self.old).processes) }
    {
        let moved = Process {
            standing: s,
            cursor: to,
            ..p
        };
        // a loop that writes each match, though there is one: after an adapter of iter_mut nothing is known of the rest
        for q in self.processes.iter_mut() {
            if q.start == p.start {
                *q = moved;
            }
        }
    }

    // The process of that number leaves the table.
    pub(super) fn leave(&mut self, start: u16)
        ensures { model S.Station.view self.new ≡ with_processes (model S.Station.view self.old) (without start (model S.Station.view self.old).processes) }
    {
        self.processes.retain(|q| q.start != start);
    }
}
