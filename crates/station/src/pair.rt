// Two stations side by side.
ghost use Rattle.station.specs.Pair.{paired, half, Both};
ghost use Rattle.std.specs.Prelude.{◌≡◌, refl};
ghost use Rattle.station.specs.Paired;

use crate::Station;
use activity::Activity;

// How many numbers each half has.
const HALF: u8 = 32;

const WHOLE: u8 = 64;

// Numbers from 0 to 31 belong to the first station, those from 32 to 63, less 32, to the second.
#[derive(Drop)]
pub struct Pair<A, B> {
    first: A,
    second: B,
}

impl<A, B> Pair<A, B> {
    pub fn new(first: A, second: B) -> Pair<A, B>
        ensures first { result.first ≡ first }
        ensures second { result.second ≡ second }
    {
        Pair { first, second }
    }

    // The first station, to look at.
    pub fn first(&self) -> &A
        ensures { result.now ≡ self.now.first }
    {
        &self.first
    }

    // The second station, to look at.
    pub fn second(&self) -> &B
        ensures { result.now ≡ self.now.second }
    {
        &self.second
    }

    // Both stations, given back.
    pub fn into_parts(self) -> (A, B)
        ensures first { result.0 ≡ self.first }
        ensures second { result.1 ≡ self.second }
    {
        let Pair { first, second } = self;
        (first, second)
    }
}

// The half of a pair that a number belongs to, with its number there.
#[derive(Clone, Copy, Debug, PartialEq, Eq)]
enum Half {
    First(u8),
    Second(u8),
}

// Numbers from 64 on belong to neither.
fn half_of(number: u8) -> Option<Half>
    ensures { result ≡ half number }
{
    match number {
        0..HALF => Some(Half::First(number)),
        HALF..WHOLE => Some(Half::Second(number - HALF)),
        _ => None,
    }
}

// Each method names both halves: they have two types, so one method that picks would take a closure for each, no plainer than an arm.
impl<A: Station, B: Station> Station for Pair<A, B> {
    const ACTIVITIES: u32 = WHOLE as u32;

    ghost ACTIVITIES = { 64 };

    ghost State = { Both A.Station.State B.Station.State };

    ghost view = { λ s. record { first = A.Station.view s.first; second = B.Station.view s.second } };

    ghost meaning = { paired A.Station.meaning B.Station.meaning };

    ghost counted = { refl };

    ghost restores = { Paired.restores A.Station.meaning B.Station.meaning A.Station.restores B.Station.restores };

    ghost commutes = { Paired.commutes A.Station.meaning B.Station.meaning A.Station.commutes B.Station.commutes };

    ghost symmetric = { Paired.symmetric A.Station.meaning B.Station.meaning A.Station.symmetric B.Station.symmetric };

    ghost retries = { Paired.retries A.Station.meaning B.Station.meaning A.Station.retries B.Station.retries };

    ghost bounded = { Paired.bounded A.Station.meaning B.Station.meaning };

    fn perform(&mut self, activity: Activity) -> Option<u32> {
        match half_of(activity.number)? {
            Half::First(number) => self.first.perform(Activity { number, ..activity }),
            Half::Second(number) => self.second.perform(Activity { number, ..activity }),
        }
    }

    fn take_back(&mut self, activity: Activity, answer: u32) {
        match half_of(activity.number) {
            Some(Half::First(number)) => {
                let below = Activity { number, ..activity };
                self.first.take_back(below, answer)
            }
            Some(Half::Second(number)) => {
                let below = Activity { number, ..activity };
                self.second.take_back(below, answer)
            }
            None => {}
        }
    }

    fn compensatable(&self, number: u8) -> bool {
        match half_of(number) {
            Some(Half::First(number)) => self.first.compensatable(number),
            Some(Half::Second(number)) => self.second.compensatable(number),
            None => false,
        }
    }

    fn retriable(&self, number: u8) -> bool {
        match half_of(number) {
            Some(Half::First(number)) => self.first.retriable(number),
            Some(Half::Second(number)) => self.second.retriable(number),
            None => false,
        }
    }

    fn conflict(&self, a: u8, b: u8) -> bool {
        match (half_of(a), half_of(b)) {
            (Some(Half::First(a)), Some(Half::First(b))) => self.first.conflict(a, b),
            (Some(Half::Second(a)), Some(Half::Second(b))) => self.second.conflict(a, b),
            _ => false,
        }
    }
}
