// What a character of the notation is.
ghost use Rattle.std.specs.Prelude.{◌≡◌, ◌<◌};
ghost use Rattle.notation.specs.Notation.{sign_of, LowSign, hex, is_command};

// A blank, a command's letter or mark, or a hexadecimal digit.
#[derive(Clone, Copy, Debug, PartialEq, Eq)]
pub(crate) enum Sign {
    Blank,
    Command,
    Digit(u8),
}

// The sign that a character is, if any.
pub(crate) fn sign_of(c: u8) -> Option<Sign>
    ensures is { result ≡ sign_of c }
    ensures low { LowSign result }
{
    match c {
        b' ' | b'\t' => Some(Sign::Blank),
        b'0'..=b'9' => Some(Sign::Digit(c - b'0')),
        b'a'..=b'f' => Some(Sign::Digit(c - b'a' + 10)),
        _ if is_command(c) => Some(Sign::Command),
        _ => None,
    }
}

// Whether a byte is a command's letter or mark.
pub fn is_command(c: u8) -> bool
    ensures { result ≡ is_command c }
{
    matches!(c, b'C' | b'P' | b'R' | b'[' | b'|' | b']' | b'.')
}

// The character of a hexadecimal digit.
pub(crate) fn hex(digit: u8) -> u8
    requires { digit < 16 }
    ensures { result ≡ hex digit }
{
    if digit < 10 {
        b'0' + digit
    } else {
        b'a' + (digit - 10)
    }
}
