// Logs of records of actions, and the serial order of a log: what may change its place, or be taken back, without changing where the log leads.
// Knows neither who asks for actions nor what they work on.
#![tactic(auto)]

ghost use Rattle.serial.specs.Actions.{Meaning, KeepsGood, Commutes, Restores};
ghost use Rattle.serial.specs.Worked.{WorkedAccount};
ghost use Rattle.serial.specs.Statements.{SortingSorts, SortingByRankSorts, OneSerialOrder, SortingReplays, SortingByRankReplays, LowOnesFirstReplays, TakingBackReplays};

// Actions on some states. The laws are asked in good states only: a set of states that performing does not leave.
pub trait Actions {
    ghost State: { Type 0 };

    ghost means: { Meaning Self State };

    ghost good: { State → Type 0 };

    ghost closed: { KeepsGood means good };

    ghost commutes: { Commutes means good };

    ghost restores: { Restores means good };
}

// Sorting is a stable sort.
pub fn sorting_sorts<R>()
    ensures { SortingSorts R }
{}

// Sorting by rank is a stable sort by rank.
pub fn sorting_by_rank_sorts<R>()
    ensures { SortingByRankSorts R }
{}

// There is one serial order.
pub fn serial_order_is_one<R>()
    ensures { OneSerialOrder R }
{}

// A log in which records in the wrong order never conflict replays the same when it is sorted.
pub fn sorting_replays<A: Actions, R>()
    ensures { SortingReplays A.Actions.means A.Actions.good R }
{}

// The same of the serial order by rank.
pub fn sorting_by_rank_replays<A: Actions, R>()
    ensures { SortingByRankReplays A.Actions.means A.Actions.good R }
{}

// Records of low rank can be taken to the front.
pub fn low_ones_first_replays<A: Actions, R>()
    ensures { LowOnesFirstReplays A.Actions.means A.Actions.good R }
{}

// A record that conflicts with nothing after it can be taken back.
pub fn taking_back_replays<A: Actions, R>()
    ensures { TakingBackReplays A.Actions.means A.Actions.good R }
{}

// An account worked through: the laws can be met, and the theorems' premises are needed.
pub fn worked_account()
    ensures { WorkedAccount }
{}
