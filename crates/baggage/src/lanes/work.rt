// What the activities do to a lane, and how the sixteen are asked.
ghost use Rattle.std.specs.Prelude.{◌≡◌};
ghost use Rattle.baggage.specs.Lanes.{counted, raised, lowered, recounted, lane_meaning, count_at, flag_at};
ghost use Rattle.baggage.specs.LaneLaws;

use super::{Lane, LaneActivity, LaneCount, Lanes};
use crate::catalogue::{Catalogue, KINDS};
use crate::cell::Cell;

// How many bags a lane holds at most.
const FULL: u8 = 200;

// The activities by number.
const ACTIVITIES: [LaneActivity; 5] = [
    LaneActivity::Take,
    LaneActivity::Give,
    LaneActivity::Count,
    LaneActivity::Send,
    LaneActivity::Flag,
];

// The pairs 0-1, 0-2, 0-3, 1-2 and 2-3 conflict.
// A table of constants, the form in which the rules of the project want a catalogue in the code.
const CATALOGUE: Catalogue = Catalogue {
    kinds: KINDS,
    conflicts: [
        [false, true, true, true, false],
        [true, false, true, false, false],
        [true, true, false, true, false],
        [true, false, true, false, false],
        [false, false, false, false, false],
    ],
};

impl LaneCount {
    // An Option, as of std's NonZero: with TryFrom both callers below would throw its error away by ok().
    fn new(value: u8) -> Option<LaneCount>
        ensures { result ≡ counted value }
    {
        if value <= FULL {
            Some(LaneCount { value })
        } else {
            None
        }
    }

    // One more, unless the lane is full.
    fn raised(self) -> Option<LaneCount>
        ensures { result ≡ raised self }
    {
        LaneCount::new(self.value + 1)
    }

    // One less, unless the lane is empty.
    fn lowered(self) -> Option<LaneCount>
        ensures { result ≡ lowered self }
    {
        LaneCount::new(self.value.checked_sub(1)?)
    }
}

impl Lane {
    // The answer 0 and the lane with another count, if there is one.
    fn recounted(self, count: Option<LaneCount>) -> Option<(u32, Lane)>
        ensures { result ≡ recounted self count }
    {
        let count = count?;
        Some((0, Lane { count, ..self }))
    }
}

impl Cell for Lane {
    type Activity = LaneActivity;

    ghost meaning = { lane_meaning };

    ghost laws = { LaneLaws.laws };

    fn first() -> Lane {
        Lane {
            count: LaneCount { value: 0 },
            flag: false,
        }
    }

    // The register's body is the same: a table in the trait, of the cell's own type, would need a law that it fits in memory, and one of its names.
    fn named(number: u8) -> Option<LaneActivity> {
        ACTIVITIES.get(usize::from(number)).copied()
    }

    fn place(parameter: u16) -> usize {
        usize::from(parameter)
    }

    fn perform(self, activity: LaneActivity, _parameter: u16) -> Option<(u32, Lane)> {
        match activity {
            LaneActivity::Take => self.recounted(self.count.raised()),
            LaneActivity::Give | LaneActivity::Send => self.recounted(self.count.lowered()),
            LaneActivity::Count => Some((u32::from(self.count.value), self)),
            LaneActivity::Flag => Some((0, Lane { flag: true, ..self })),
        }
    }

    fn take_back(self, activity: LaneActivity, _answer: u32) -> Lane {
        let count = match activity {
            LaneActivity::Take => self.count.lowered(),
            LaneActivity::Give => self.count.raised(),
            LaneActivity::Count | LaneActivity::Send | LaneActivity::Flag => None,
        };
        Lane {
            count: count.unwrap_or(self.count),
            ..self
        }
    }

    fn anywhere(activity: LaneActivity) -> bool {
        matches!(activity, LaneActivity::Count | LaneActivity::Flag)
    }

    fn catalogue() -> Catalogue {
        CATALOGUE
    }
}

impl Lanes {
    // How many bags are in the lane, if there is such a lane.
    pub fn count(&self, lane: u8) -> Option<u8>
        ensures { result ≡ count_at self.now lane }
    {
        self.cell(usize::from(lane)).map(|lane| lane.count.value)
    }

    // Whether the lane is flagged, if there is such a lane.
    pub fn flag(&self, lane: u8) -> Option<bool>
        ensures { result ≡ flag_at self.now lane }
    {
        self.cell(usize::from(lane)).map(|lane| lane.flag)
    }
}
