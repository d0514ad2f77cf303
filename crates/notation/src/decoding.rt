// From the notation to bytes.
ghost use Rattle.std.specs.Prelude.{◌≡◌, vec_items};
ghost use Rattle.notation.specs.Notation.{taken, Low, LowTaken, Decoded};

use crate::sign::{Sign, sign_of};
use std::alloc::{AllocFailed, Global};
use std::error::Error;
use std::fmt;

// Why a line gives no bytes: at the column, from 0, stands a character that cannot be read there,
// or the line ends there in the middle of a byte; or there is no memory.
#[derive(Clone, Copy, Debug, PartialEq, Eq)]
pub enum Unreadable {
    At(usize),
    NoMemory,
}

impl<T: Drop> From<AllocFailed<T>> for Unreadable {
    ghost use Rattle.notation.specs.declared.decoding.Unreadable.TheVariants.{NoMemory};

    ghost from_gives = { λ _ e. e ≡ NoMemory };

    fn from(_error: AllocFailed<T>) -> Unreadable {
        Unreadable::NoMemory
    }
}

// People count columns from 1.
impl fmt::Display for Unreadable {
    ghost use Rattle.std.specs.Prelude.{Some};
    ghost use Rattle.notation.specs.Notation.{unreadable_shown};

    ghost output = { λ e. Some (unreadable_shown e) };

    fn fmt<W: fmt::Write>(&self, f: &mut fmt::Formatter<W>) -> fmt::Result {
        match self {
            Unreadable::At(column) => {
                let shown = column.saturating_add(1);
                write!(f, "the line cannot be read from column {shown} on")
            }
            Unreadable::NoMemory => write!(f, "out of memory"),
        }
    }
}

impl Error for Unreadable {}

// What one more character does: nothing, it is the high digit of a byte, or it completes a byte.
#[derive(Clone, Copy, Debug, PartialEq, Eq)]
pub enum Taken {
    Passed,
    Waits(u8),
    Gives(u8),
}

// Takes a character, where a high digit may be waiting for its low one; none if it cannot stand there.
fn take(waiting: Option<u8>, c: u8) -> Option<Taken>
    requires { Low waiting }
    ensures is { result ≡ taken waiting c }
    ensures low { LowTaken result }
{
    match (waiting, sign_of(c)?) {
        (_, Sign::Blank) => Some(Taken::Passed),
        (None, Sign::Command) => Some(Taken::Gives(c)),
        (Some(_), Sign::Command) => None,
        (None, Sign::Digit(d)) => Some(Taken::Waits(d)),
        (Some(h), Sign::Digit(d)) => Some(Taken::Gives(h * 16 + d)),
    }
}

// The bytes that a line stands for.
pub fn decode(alloc: Global, line: &[u8]) -> Result<Vec<u8>, Unreadable>
    ensures { Decoded vec_items line.now result }
{
    let mut bytes = Vec::new(alloc);
    let mut waiting = None;
    for (column, &c) in line.iter().enumerate() {
        match take(waiting, c).ok_or(Unreadable::At(column))? {
            Taken::Passed => {}
            Taken::Waits(digit) => waiting = Some(digit),
            Taken::Gives(byte) => {
                waiting = None;
                bytes.push(byte)?;
            }
        }
    }
    match waiting {
        None => Ok(bytes),
        Some(_) => Err(Unreadable::At(line.len())),
    }
}
