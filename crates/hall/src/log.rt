// Questions to the log that the rules ask.
ghost use Rattle.std.specs.Prelude.{◌≡◌, ◌+◌, ◌<◌, ◌&&◌, length, get_or, drop};
ghost use Rattle.protocol.specs.Log.{owned, own};
ghost use Rattle.protocol.specs.StepFunction.{holds_conflict, holds_any_conflict, stands_before_conflict};
ghost use Rattle.hall.specs.Claims.{leads};

use protocol::Record;
use station::Station;

// The records of a log, and the station that tells which of their activities conflict.
#[derive_where(Clone, Copy)]
pub struct Log<'a, S> {
    pub station: &'a S,
    pub records: &'a [Record],
}

// The loops that look for blockers go by index: the rules of the project ask for it.
impl<'a, S: Station> Log<'a, S> {
    // Whether the record is the process's, and in conflict with the activity.
    fn meets_activity(&self, r: Record, n: u16, activity: u8) -> bool
        ensures { result ≡ (owned n r && S.Station.meaning.conflict r.activity.number activity) }
    {
        r.start == n && self.station.conflict(r.activity.number, activity)
    }

    // Whether the process has a record, from a place on, in conflict with the activity.
    pub fn holds_conflict(&self, from: usize, n: u16, activity: u8) -> bool
        ensures { result ≡ holds_conflict S.Station.meaning.conflict n activity (drop from self.now.records.now) }
    {
        for i in from..self.records.len() {
            if self.meets_activity(self.records[i], n, activity) {
                return true;
            }
        }
        false
    }

    // Whether the record is the process m's, and the process n has one in conflict with it.
    fn meets(&self, r: Record, n: u16, m: u16) -> bool
        ensures { result ≡ (owned m r && holds_conflict S.Station.meaning.conflict n r.activity.number self.now.records.now) }
    {
        r.start == m && self.holds_conflict(0, n, r.activity.number)
    }

    // Whether the process n has a record in conflict with one of the process m from a place on.
    pub fn holds_any_conflict(&self, from: usize, n: u16, m: u16) -> bool
        ensures { result ≡ holds_any_conflict S.Station.meaning.conflict n self.now.records.now (own m (drop from self.now.records.now)) }
    {
        for i in from..self.records.len() {
            if self.meets(self.records[i], n, m) {
                return true;
            }
        }
        false
    }

    // Whether the record at a place is the process n's, and the process m has a later one in conflict.
    fn leads(&self, i: usize, n: u16, m: u16) -> bool
        requires { i < length self.now.records.now }
        ensures { (r : Record) → r ≡ get_or self.now.records.now i r → result ≡ leads S.Station.meaning.conflict n m r (drop (i + 1) self.now.records.now) }
    {
        let r = self.records[i];
        r.start == n && self.holds_conflict(i + 1, m, r.activity.number)
    }

    // Whether the process n has a record before a conflicting one of the process m.
    pub fn stands_before_conflict(&self, n: u16, m: u16) -> bool
        ensures { result ≡ stands_before_conflict S.Station.meaning.conflict n m self.now.records.now }
    {
        for i in 0..self.records.len() {
            if self.leads(i, n, m) {
                return true;
            }
        }
        false
    }
}
