// Who blocks a step, and who is marked.
ghost use Rattle.std.specs.Prelude.{◌≡◌, ◌&&◌, map};
ghost use Rattle.protocol.specs.Hall.{least, with_processes};
ghost use Rattle.protocol.specs.StepFunction as rules;
ghost use Rattle.hall.specs.Claims.{blocker, marks_it};
ghost use Rattle.hall.specs.Model.{model};

use super::Tables;
use crate::claim::Claim;
use crate::log::Log;
use protocol::{Aim, Standing};
use station::Station;

impl<S: Station> Tables<S> {
    // The smallest start number of those that block the claim.
    pub(super) fn first_blocker(&self, c: Claim) -> Option<u16>
        ensures { result ≡ least (blocker S.Station.meaning.conflict self.now.log.items c) (model S.Station.view self.now).processes }
    {
        let log = Log {
            station: &self.station,
            records: self.log.as_slice(),
        };
        self.processes
            .iter()
            .filter(|q| c.is_blocked_by(&log, **q))
            .map(|q| q.start)
            .min()
    }

    // Sets the running ones that block the claim, and that it marks, to withdraw.
    pub(super) fn mark(&mut self, c: Claim)
        ensures { model S.Station.view self.new ≡ with_processes (model S.Station.view self.old) (map (rules.marked (λ q. blocker S.Station.meaning.conflict self.old.log.items c q && marks_it c q)) (model S.Station.view self.old).processes) }
    {
        // Built in place, as above: a method would lend all of the tables, and the processes are changed beside it.
        let log = Log {
            station: &self.station,
            records: self.log.as_slice(),
        };
        for q in self.processes.iter_mut() {
            if q.standing == Standing::Running && c.marks(&log, *q) {
                q.standing = Standing::Withdrawing(Aim::Restart);
            }
        }
    }
}
