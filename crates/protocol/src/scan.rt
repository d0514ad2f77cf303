// Scan lists.

// A record of a scan list: a call, by its kind (the byte of O, S or X) and operand, and in the last two fields its answer.
// Kind, letter and number stay bytes and numbers: they are those of the lists that controllers hand over, which the rules fix.
#[derive(Clone, Copy, Debug, PartialEq, Eq)]
pub struct Request {
    pub kind: u8,
    pub operand: u16,
    pub letter: u8,
    pub number: u32,
}
