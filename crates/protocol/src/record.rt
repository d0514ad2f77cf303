// A record of the log.
use activity::Activity;

// A kept step: whose it is by start number, what was done, what the station answered, the number under which its process
// committed (0 while it is active), and whether the step was a pivot.
#[derive(Clone, Copy, Debug, PartialEq, Eq)]
pub struct Record {
    pub start: u16,
    pub activity: Activity,
    pub answer: u32,
    // stays a number with 0 for none: the rules give a record this form
    pub commit: u32,
    pub pivot: bool,
}
