// What the tables have where.
ghost use Rattle.std.specs.Prelude.{◌≡◌, ◌==◌, ◌<◌, get_or, drop, IfSome, vec_len};
ghost use Rattle.std.specs.List.{find as first};
ghost use Rattle.std.specs.Option.{option_map};
ghost use Rattle.protocol.specs.Log.{own, from_pivot, last_of};
ghost use Rattle.protocol.specs.Hall.{find};
ghost use Rattle.hall.specs.Model.{model, seen, split_of};

use super::Tables;
use crate::process::Process;
use protocol::Record;
use station::Station;

impl<S: Station> Tables<S> {
    // The process of that number.
    pub(super) fn process(&self, start: u16) -> Option<Process>
        ensures there { result ≡ first (λ q. q.start == start) self.now.processes.items }
        ensures seen { option_map (seen self.now.programs) result ≡ find start (model S.Station.view self.now).processes }
    {
        self.processes.iter().find(|q| q.start == start).copied()
    }

    // The last record of that number, with its place.
    pub(super) fn last_record(&self, start: u16) -> Option<(usize, Record)>
        ensures value { split_of self.now.log.items result ≡ last_of start self.now.log.items }
        ensures item { IfSome result (λ s. (s.0 < vec_len self.now.log) × (s.1 ≡ get_or self.now.log.items s.0 s.1)) }
    {
        let k = self.log.iter().rposition(|r| r.start == start)?;
        Some((k, self.log[k]))
    }

    // The place after the last pivot of that number, or 0.
    pub(super) fn after_pivot(&self, start: u16) -> usize
        ensures { own start (drop result self.now.log.items) ≡ from_pivot (own start self.now.log.items) }
    {
        self.log
            .iter()
            .rposition(|r| r.start == start && r.pivot)
            .map_or(0, |k| k + 1)
    }
}
