// How an active process stands.

// What a process that withdraws does once its steps are taken back.
#[derive(Clone, Copy, Debug, PartialEq, Eq)]
pub enum Aim {
    Restart,
    End,
}

// Where a process past its pivot is going.
#[derive(Clone, Copy, Debug, PartialEq, Eq)]
pub enum Direction {
    Forward,
    Back,
}

// The standing of an active process: it runs; it withdraws, taking its steps back; or it is past its pivot, going forward,
// or back to the pivot to take another alternative.
#[derive(Clone, Copy, Debug, PartialEq, Eq)]
pub enum Standing {
    Running,
    Withdrawing(Aim),
    PastPivot(Direction),
}
