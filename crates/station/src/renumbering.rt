// A station over another one, which adds a fixed number to each parameter.
ghost use Rattle.station.specs.Renumbering.{renumbered, shifted_by, Renumbered};
ghost use Rattle.std.specs.Prelude.{◌≡◌};
ghost use Rattle.station.specs.Renumbered as RenumberedLaws;

use crate::Station;
use activity::Activity;

// The station below, and the number that is added.
#[derive(Drop)]
pub struct Renumbering<S> {
    inner: S,
    offset: u16,
}

impl<S> Renumbering<S> {
    pub fn new(inner: S, offset: u16) -> Renumbering<S>
        ensures inner { result.inner ≡ inner }
        ensures offset { result.offset ≡ offset }
    {
        Renumbering { inner, offset }
    }

    // The station below, to look at.
    pub fn inner(&self) -> &S
        ensures { result.now ≡ self.now.inner }
    {
        &self.inner
    }

    // The number that is added.
    pub fn offset(&self) -> u16
        ensures { result ≡ self.now.offset }
    {
        self.offset
    }

    // The station below, given back.
    pub fn into_inner(self) -> S
        ensures { result ≡ self.inner }
    {
        let Renumbering { inner, offset: _ } = self;
        inner
    }
}

// The activity with the number added to its parameter, modulo 65,536.
fn shifted(activity: Activity, offset: u16) -> Activity
    ensures { result ≡ shifted_by offset activity }
{
    Activity {
        parameter: activity.parameter.wrapping_add(offset),
        ..activity
    }
}

impl<S: Station> Station for Renumbering<S> {
    const ACTIVITIES: u32 = S::ACTIVITIES;

    ghost ACTIVITIES = { S.Station.ACTIVITIES };

    ghost State = { Renumbered S.Station.State };

    ghost view = { λ s. record { inner = S.Station.view s.inner; offset = s.offset } };

    ghost meaning = { renumbered S.Station.meaning };

    ghost counted = { S.Station.counted };

    ghost restores = { RenumberedLaws.restores S.Station.meaning S.Station.restores };

    ghost commutes = { RenumberedLaws.commutes S.Station.meaning S.Station.commutes };

    ghost symmetric = { RenumberedLaws.symmetric S.Station.meaning S.Station.symmetric };

    ghost retries = { RenumberedLaws.retries S.Station.meaning S.Station.retries };

    ghost bounded = { RenumberedLaws.bounded S.Station.meaning S.Station.bounded };

    fn perform(&mut self, activity: Activity) -> Option<u32> {
        let below = shifted(activity, self.offset);
        self.inner.perform(below)
    }

    fn take_back(&mut self, activity: Activity, answer: u32) {
        let below = shifted(activity, self.offset);
        self.inner.take_back(below, answer)
    }

    fn compensatable(&self, number: u8) -> bool {
        self.inner.compensatable(number)
    }

    fn retriable(&self, number: u8) -> bool {
        self.inner.retriable(number)
    }

    fn conflict(&self, a: u8, b: u8) -> bool {
        self.inner.conflict(a, b)
    }
}
