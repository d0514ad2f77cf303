// The processes of the hall's table.
use program::Cursor;
use protocol::Standing;

// An active process: its start number, the place of its program, its standing, and where it is in the program.
#[derive(Clone, Copy, Debug, PartialEq, Eq)]
pub struct Process {
    pub start: u16,
    pub place: u8,
    pub standing: Standing,
    pub cursor: Cursor,
}
