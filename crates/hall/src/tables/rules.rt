// The rules of a step.
ghost use Rattle.std.specs.Prelude.{◌≡◌, ◌+◌, ◌<◌, false, get_or, take, drop, IfSome, vec_len};
ghost use Rattle.program.specs.Positions.{onward as led_on};
ghost use Rattle.protocol.specs.declared.answer.Served.TheVariants.{Stepped};
ghost use Rattle.protocol.specs.Ahead.{nothing, plain, crossing};
ghost use Rattle.protocol.specs.Log.{returnable};
ghost use Rattle.protocol.specs.Hall.{answered, failed, standing_after, Outcome};
ghost use Rattle.protocol.specs.StepFunction.{performed, undone, committing, backward, forward};
ghost use Rattle.hall.specs.Model.{model, seen, here, IsOnly};
ghost use Rattle.hall.specs.Rules.{is_pivot, with_nothing_left, pivot_unless_met, claimed};

use super::Tables;
use crate::claim::{Claim, Deed};
use crate::process::Process;
use activity::Activity;
use program::{Cursor, Kind, Step};
use protocol::{Aim, Direction, Record, Standing, Turn};
use station::Station;

// The standing after a step that was not possible.
fn after_failure(s: Standing) -> Standing
    ensures { result ≡ failed s }
{
    match s {
        Standing::PastPivot(_) => Standing::PastPivot(Direction::Back),
        _ => Standing::Withdrawing(Aim::End),
    }
}

// The standing after a step.
fn after_step(kind: Kind, s: Standing) -> Standing
    ensures { result ≡ standing_after (is_pivot kind) s }
{
    match kind {
        Kind::Pivot => Standing::PastPivot(Direction::Forward),
        Kind::Compensatable | Kind::Retriable => s,
    }
}

// `only` and `room` are clauses, and no fields of the tables: they speak of one process and what it has next, not of every table.
impl<S: Station> Tables<S> {
    // The step is performed and recorded, or fails.
    fn perform(&mut self, p: Process, step: Step) -> Turn
        requires only { IsOnly p self.old.processes.items }
        requires room { vec_len self.old.log < 1024 }
        ensures { answered (model S.Station.view self.new) (Ok (Stepped result)) ≡ performed (model S.Station.view self.old) (seen self.old.programs p) (is_pivot step.kind) step.activity (led_on (here self.old.programs p)) (S.Station.meaning.performed (S.Station.view self.old.station) step.activity) }
    {
        let to = self.onward(p);
        match self.station.perform(step.activity) {
            Some(answer) => {
                self.log.push_reserved(Record {
                    start: p.start,
                    activity: step.activity,
                    answer,
                    commit: 0,
                    pivot: step.kind == Kind::Pivot,
                });
                self.relocate(p, after_step(step.kind, p.standing), to);
                Turn::Done(answer)
            }
            None => {
                self.relocate(p, after_failure(p.standing), p.cursor);
                Turn::Failed
            }
        }
    }

    // The turn of a process that waits: those that block what it is about to do are marked.
    fn wait_for(&mut self, process: Process, deed: Deed) -> Option<Turn>
        ensures waits { IfSome result (λ turn. (on : Outcome S.Station.State) → answered (model S.Station.view self.new) (Ok (Stepped turn)) ≡ claimed S.Station.meaning (model S.Station.view self.old) (record { process = process; deed = deed }) on) }
        ensures free { result ≡ None → (on : Outcome S.Station.State) → on ≡ claimed S.Station.meaning (model S.Station.view self.old) (record { process = process; deed = deed }) on }
        ensures same { result ≡ None → self.new ≡ self.old }
    {
        let claim = Claim { process, deed };
        let first = self.first_blocker(claim)?;
        self.mark(claim);
        Some(Turn::Wait(first))
    }

    // A step that is no pivot is next.
    pub(super) fn go(&mut self, p: Process, step: Step) -> Turn
        requires no_pivot { is_pivot step.kind ≡ false }
        requires only { IsOnly p self.old.processes.items }
        requires room { vec_len self.old.log < 1024 }
        ensures { answered (model S.Station.view self.new) (Ok (Stepped result)) ≡ forward S.Station.meaning (model S.Station.view self.old) (seen self.old.programs p) (plain step.activity (led_on (here self.old.programs p))) }
    {
        let deed = Deed::Plain {
            activity: step.activity.number,
        };
        if let Some(turn) = self.wait_for(p, deed) {
            return turn;
        }
        self.perform(p, step)
    }

    // A pivot that no other process past its pivot holds up. It waits for those with records in conflict with it, or with the records of its process after its last pivot.
    fn cross(&mut self, p: Process, activity: Activity) -> Turn
        requires only { IsOnly p self.old.processes.items }
        requires room { vec_len self.old.log < 1024 }
        ensures { answered (model S.Station.view self.new) (Ok (Stepped result)) ≡ pivot_unless_met S.Station.meaning (model S.Station.view self.old) (seen self.old.programs p) activity (led_on (here self.old.programs p)) }
    {
        let deed = Deed::Pivot {
            activity: activity.number,
            from: self.after_pivot(p.start),
        };
        if let Some(turn) = self.wait_for(p, deed) {
            return turn;
        }
        let kind = Kind::Pivot;
        self.perform(p, Step { kind, activity })
    }

    // A pivot is next: of a running process, it waits first for another past its pivot, which nobody is marked for.
    pub(super) fn pivot(&mut self, p: Process, activity: Activity) -> Turn
        requires only { IsOnly p self.old.processes.items }
        requires room { vec_len self.old.log < 1024 }
        ensures { answered (model S.Station.view self.new) (Ok (Stepped result)) ≡ forward S.Station.meaning (model S.Station.view self.old) (seen self.old.programs p) (crossing activity (led_on (here self.old.programs p))) }
    {
        if let Some(turn) = self.wait_for(p, Deed::Alone) {
            return turn;
        }
        self.cross(p, activity)
    }

    // The process withdraws or goes back.
    pub(super) fn back(&mut self, p: Process) -> Turn
        requires { IsOnly p self.old.processes.items }
        ensures { answered (model S.Station.view self.new) (Ok (Stepped result)) ≡ backward S.Station.meaning (model S.Station.view self.old) (seen self.old.programs p) (with_nothing_left (model S.Station.view self.old) (seen self.old.programs p) p.standing) (returnable p.start self.old.log.items) }
    {
        let Some((k, r)) = self.last_record(p.start).filter(|(_, r)| !r.pivot) else {
            return self.with_nothing_left(p);
        };
        let deed = Deed::Back {
            activity: r.activity.number,
            from: k + 1,
        };
        if let Some(turn) = self.wait_for(p, deed) {
            return turn;
        }
        self.undo(k)
    }

    // The record at a place is removed, and taken back at the station.
    fn undo(&mut self, k: usize) -> Turn
        requires within { k < vec_len self.old.log }
        ensures { (r : Record) → r ≡ get_or self.old.log.items k r → answered (model S.Station.view self.new) (Ok (Stepped result)) ≡ undone S.Station.meaning (model S.Station.view self.old) (record { before = take k self.old.log.items; at = r; after = drop (k + 1) self.old.log.items }) }
    {
        let r = self.log.remove(k);
        self.station.take_back(r.activity, r.answer);
        Turn::Undone(r.activity.number)
    }

    // Nothing is left to take back.
    fn with_nothing_left(&mut self, p: Process) -> Turn
        requires { IsOnly p self.old.processes.items }
        ensures { answered (model S.Station.view self.new) (Ok (Stepped result)) ≡ with_nothing_left (model S.Station.view self.old) (seen self.old.programs p) p.standing }
    {
        match p.standing {
            Standing::Withdrawing(Aim::Restart) => {
                self.relocate(p, Standing::Running, Cursor::start());
                Turn::Restarted
            }
            Standing::Withdrawing(Aim::End) => {
                self.leave(p.start);
                Turn::Gone
            }
            _ => {
                let k = self.alternative(p) + 1;
                let to = self.next_alternative(p);
                self.relocate(p, Standing::PastPivot(Direction::Forward), to);
                Turn::Next(k as u8)
            }
        }
    }

    // Nothing is next: the process commits, once nobody has a record before a conflicting one of it.
    pub(super) fn commit(&mut self, p: Process) -> Turn
        requires { self.old.committed < 65536 }
        ensures { answered (model S.Station.view self.new) (Ok (Stepped result)) ≡ forward S.Station.meaning (model S.Station.view self.old) (seen self.old.programs p) nothing }
    {
        if let Some(turn) = self.wait_for(p, Deed::Commit) {
            return turn;
        }
        self.conclude(p)
    }

    // The records of the process get the next commit number, and it leaves.
    fn conclude(&mut self, p: Process) -> Turn
        requires { self.old.committed < 65536 }
        ensures { answered (model S.Station.view self.new) (Ok (Stepped result)) ≡ committing (model S.Station.view self.old) (seen self.old.programs p) }
    {
        let n = self.committed + 1;
        for r in self.log.iter_mut() {
            if r.start == p.start {
                r.commit = n;
            }
        }
        self.leave(p.start);
        self.committed = n;
        Turn::Committed(n)
    }
}
