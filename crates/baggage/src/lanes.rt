// Lanes, the early bag store: sixteen lanes, each with a count of bags and a flag.
ghost use Rattle.std.specs.Prelude.{◌≡◌, ◌≤◌};

use crate::row::Row;

mod work;

// A number of bags, from 0 to 200.
#[derive(Clone, Copy, Debug, PartialEq, Eq)]
pub struct LaneCount {
    value: u8,
    ghost bounded: { value ≤ 200 },
}

// A lane holds bags that came early; the flag marks it.
#[derive(Clone, Copy, Debug, PartialEq, Eq)]
pub struct Lane {
    count: LaneCount,
    flag: bool,
}

// The activities, in the order of their numbers.
#[derive(Clone, Copy, Debug, PartialEq, Eq)]
pub enum LaneActivity {
    // a bag is taken in
    Take,
    // a bag is given out
    Give,
    // the bags are counted
    Count,
    // a bag is sent on
    Send,
    // the lane is flagged
    Flag,
}

pub type Lanes = Row<Lane, 16>;
