// From bytes to the notation.
ghost use Rattle.std.specs.Prelude.{◌≡◌, ◌/◌, ◌%◌, ◌<◌, [], ◌∷◌, ◌++◌, IfOk, Ok, string_bytes, OnOk};
ghost use Rattle.notation.specs.Notation.{bytes_of, due_after, gap, hex, unit, written};

use crate::sign::{hex, is_command};
use std::alloc::{AllocError, Global};

// How many operand bytes are to come after a byte, where `due` were to come before it: three follow a step's letter.
fn due_after(due: u8, byte: u8) -> u8
    ensures { result ≡ due_after due byte }
{
    match byte {
        b'C' | b'P' | b'R' if due == 0 => 3,
        _ => due.saturating_sub(1),
    }
}

// One character more.
fn put(out: &mut String, c: u8) -> Result<(), AllocError>
    requires { c < 128 }
    ensures { OnOk result (string_bytes out.new ≡ string_bytes out.old ++ c ∷ []) }
{
    out.push(char::from(c))
}

// The blank before a byte: none at the beginning, and none between the two bytes of a parameter.
fn put_gap(out: &mut String, due: u8) -> Result<(), AllocError>
    ensures { OnOk result (string_bytes out.new ≡ string_bytes out.old ++ gap (string_bytes out.old) due) }
{
    if due == 1 || out.is_empty() {
        Ok(())
    } else {
        put(out, b' ')
    }
}

// The two digits of a byte, each pushed by itself: `write!` with a width takes more than twice as long.
fn put_digits(out: &mut String, byte: u8) -> Result<(), AllocError>
    ensures { OnOk result (string_bytes out.new ≡ string_bytes out.old ++ hex (byte / 16) ∷ hex (byte % 16) ∷ []) }
{
    put(out, hex(byte / 16))?;
    put(out, hex(byte % 16))?;
    Ok(())
}

// A byte: a command's letter or mark where a command may stand, and else two digits.
fn put_unit(out: &mut String, due: u8, byte: u8) -> Result<(), AllocError>
    ensures { OnOk result (string_bytes out.new ≡ string_bytes out.old ++ unit due byte) }
{
    if due == 0 && is_command(byte) {
        put(out, byte)
    } else {
        put_digits(out, byte)
    }
}

// The notation of some bytes; reading it back gives the same bytes.
#[tactic(auto, using(crate::proofs::RoundTrip::back))]
pub fn encode(alloc: Global, bytes: &[u8]) -> Result<String, AllocError>
    ensures value { IfOk result (λ s. string_bytes s ≡ written bytes.now) }
    ensures back { bytes_of (written bytes.now) ≡ Ok bytes.now }
{
    let mut out = String::new(alloc);
    let mut due = 0;
    for &byte in bytes {
        put_gap(&mut out, due)?;
        put_unit(&mut out, due, byte)?;
        due = due_after(due, byte);
    }
    Ok(out)
}
