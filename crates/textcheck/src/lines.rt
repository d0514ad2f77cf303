// One line: from the notation to bytes, from bytes to a program, and what to say of it.
use crate::tree;
use notation::{Unreadable, decode, encode, is_command};
use program::{Fault, Refusal, read};
use std::alloc::{AllocError, Global};
use std::io;

// Says what a line is. Its bytes need not be UTF-8.
pub fn show(rt: &(impl Print + AllocGlobal), number: u64, line: &[u8]) -> anyhow::Result<()> {
    match decode(rt.alloc(), line) {
        Err(Unreadable::At(column)) => show_unreadable(rt, number, line, column),
        bytes => show_text(rt, number, bytes?.as_slice()),
    }
}

// Columns are shown from 1, as editors count them. What is not UTF-8 is printed as the replacement character.
fn show_unreadable(
    rt: &(impl Print + AllocGlobal),
    number: u64,
    line: &[u8],
    column: usize,
) -> anyhow::Result<()> {
    let shown = column.saturating_add(1);
    // The error has the column alone: that the line ends there shows only in the line.
    let why = if column < line.len() {
        "this cannot stand here (--help explains the notation)"
    } else {
        "the second hexadecimal digit of a byte is missing"
    };
    println!(rt; "line {number}, column {shown}: {why}")?;
    let text = String::from_utf8_lossy(rt.alloc(), line)?;
    show_line(rt, text.as_str())?;
    show_caret(rt, column)?;
    Ok(())
}

fn show_text(rt: &(impl Print + AllocGlobal), number: u64, bytes: &[u8]) -> anyhow::Result<()> {
    let text = encode(rt.alloc(), bytes)?;
    let reading = read(bytes);
    match reading.refusal {
        None => {
            println!(rt; "line {number}: {text}")?;
            tree::show(rt, &reading.program)?;
        }
        Some(refusal) => {
            let Refusal { fault, place } = refusal;
            let fault = fault.number();
            let why = meaning(refusal, bytes);
            println!(rt; "line {number}: refused {fault} at {place}: {why}")?;
            // shown before its column is sought, which takes memory
            show_line(rt, text.as_str())?;
            show_caret(rt, column_of(rt.alloc(), text.as_str(), bytes, place)?)?;
        }
    }
    Ok(())
}

// The column of `text`, which is how the bytes are written, at which the byte of a place begins.
fn column_of(alloc: Global, text: &str, bytes: &[u8], place: usize) -> Result<usize, AllocError> {
    let column = encode(alloc, &bytes[..place.min(bytes.len())])?.len();
    match text.as_bytes().get(column) {
        Some(b' ') => Ok(column.saturating_add(1)),
        _ => Ok(column),
    }
}

// A text to which a caret is to point.
fn show_line(rt: &impl Print, text: &str) -> io::Result<()> {
    println!(rt; "    {text}")
}

// A caret under a column of it.
fn show_caret(rt: &impl Print, column: usize) -> io::Result<()> {
    println!(rt; "    {:column$}^", "")
}

// The refusal in words, by what stands at its place.
fn meaning(refusal: Refusal, bytes: &[u8]) -> &'static str {
    match (refusal.fault, bytes.get(refusal.place)) {
        (Fault::TooLong, _) => "the text is over 255 bytes",
        (Fault::Misplaced, Some(byte)) if is_command(*byte) => "this command cannot stand here",
        (Fault::Misplaced, _) => "this byte is no command",
        (Fault::CutOff, None) => "the text ends before its full stop",
        (Fault::CutOff, _) => "the operands of this step are cut off",
        (Fault::TooManySteps, _) => "this would be the 33rd step",
        (Fault::TooDeep, _) => "this would be the fifth open bracket",
        (Fault::Trailing, _) => "nothing may follow the full stop",
    }
}
