// What calls are answered.
use program::Refusal as TextRefusal;

// Why a call is refused. A step that does not fit its station is named by its ordinal in the text.
#[derive(Clone, Copy, Debug, PartialEq, Eq)]
pub enum Refusal {
    // 1 to 6: the text that is to be installed is no program, by its own refusal
    BadText(TextRefusal),
    // 7: there is no such program place
    NoPlace,
    // 8: an active process runs the program at that place
    Busy,
    // 9: the station has no such activity
    NoActivity(u8),
    // 10: the activity is not of the kind that the step needs
    WrongKind(u8),
    // 11: nothing is loaded at that place
    NotLoaded,
    // 12: 16 processes are active
    Full,
    // 13: the last start number was given
    NoNumber,
    // 14: the log may not have room for one process more
    NoRoom,
    // 15: no active process has that start number
    NoProcess,
    // 16: the process is past its pivot
    IsPastPivot,
    // 17: the process is withdrawing already
    IsWithdrawing,
    // 18: the scan list has over 64 records
    LongList,
    // 19: the scan record is of no known kind
    UnknownKind,
}

// Which layer a refusal comes from: the text, the hall, or the station.
#[derive(Clone, Copy, Debug, PartialEq, Eq)]
pub enum Layer {
    Text,
    Hall,
    Station,
}

// What a step came to, by its letter: D and the station's answer; F; W and the smallest start number that blocks; U and the
// activity taken back; A, the process runs from the start again; G, it has left; N and the alternative; K and the commit number.
#[derive(Clone, Copy, Debug, PartialEq, Eq)]
pub enum Turn {
    Done(u32),
    Failed,
    Wait(u16),
    Undone(u8),
    Restarted,
    Gone,
    Next(u8),
    Committed(u32),
}

// What a call was served: a program was loaded or installed, a process opened under its start number, one cancelled, or a step
// made.
#[derive(Clone, Copy, Debug, PartialEq, Eq)]
pub enum Served {
    Loaded,
    Opened(u16),
    Cancelled,
    Stepped(Turn),
}

// The answer to a call.
pub type Answer = Result<Served, Refusal>;
