// What a process is about to do, who blocks it, and who is marked.
ghost use Rattle.std.specs.Prelude.{◌≡◌, ◌||◌, nat_lt};
ghost use Rattle.protocol.specs.Hall.{past_pivot, retreating};
ghost use Rattle.hall.specs.Claims.{stops, blocks, may_mark, told};

use crate::log::Log;
use crate::process::Process;
use protocol::{Direction, Standing};
use station::Station;

// What a process is about to do. A value, and no closures, since it is asked twice: who blocks it, and who is marked for it.
#[derive(Clone, Copy, Debug, PartialEq, Eq)]
pub enum Deed {
    // To take back the activity of a record. The records after it begin at a place.
    Back { activity: u8, from: usize },
    // To perform a step that is no pivot.
    Plain { activity: u8 },
    // To perform a pivot. The records after the log's last pivot of the process begin at a place.
    Pivot { activity: u8, from: usize },
    // To pass a pivot, which one process does at a time.
    Alone,
    Commit,
}

// A process with what it is about to do.
#[derive(Clone, Copy, Debug, PartialEq, Eq)]
pub struct Claim {
    pub process: Process,
    pub deed: Deed,
}

// Withdrawing or going back.
fn retreats(s: Standing) -> bool
    ensures { result ≡ retreating s }
{
    matches!(
        s,
        Standing::Withdrawing(_) | Standing::PastPivot(Direction::Back)
    )
}

// Past the pivot.
fn is_past(s: Standing) -> bool
    ensures { result ≡ past_pivot s }
{
    matches!(s, Standing::PastPivot(_))
}

impl Claim {
    // Whether a process counts before a step that is no pivot, by its age and its standing.
    fn counts(self, q: Process) -> bool
        ensures { result ≡ (past_pivot self.process.standing || (nat_lt self.process.start q.start || retreating q.standing)) }
    {
        let p = self.process;
        is_past(p.standing) || p.start < q.start || retreats(q.standing)
    }

    // Whether another process stops the deed.
    fn is_stopped<S: Station>(self, log: &Log<S>, q: Process) -> bool
        ensures { result ≡ stops S.Station.meaning.conflict log.now.records.now self q.start q.standing }
    {
        let p = self.process;
        match self.deed {
            Deed::Back { activity, from } => log.holds_conflict(from, q.start, activity),
            Deed::Plain { activity } => self.counts(q) && log.holds_conflict(0, q.start, activity),
            Deed::Pivot { activity, from } => {
                log.holds_conflict(0, q.start, activity)
                    || log.holds_any_conflict(from, q.start, p.start)
            }
            Deed::Alone => !is_past(p.standing) && is_past(q.standing),
            Deed::Commit => log.stands_before_conflict(q.start, p.start),
        }
    }

    // Whether a process blocks the claim.
    pub fn is_blocked_by<S: Station>(self, log: &Log<S>, q: Process) -> bool
        ensures { result ≡ blocks S.Station.meaning.conflict log.now.records.now self q.start q.standing }
    {
        q.start != self.process.start && self.is_stopped(log, q)
    }

    // Whether the claim marks a process of that number, if it blocks.
    fn may_mark(self, n: u16) -> bool
        ensures { result ≡ may_mark self n }
    {
        match self.deed {
            Deed::Back { .. } | Deed::Plain { .. } => true,
            Deed::Pivot { .. } => is_past(self.process.standing) || self.process.start < n,
            Deed::Alone | Deed::Commit => false,
        }
    }

    // Whether the claim marks a process.
    pub fn marks<S: Station>(self, log: &Log<S>, q: Process) -> bool
        ensures { result ≡ told S.Station.meaning.conflict log.now.records.now self q }
    {
        self.is_blocked_by(log, q) && self.may_mark(q.start)
    }
}
