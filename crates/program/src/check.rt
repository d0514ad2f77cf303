// The check of a program text for callers in C, which call it through the static library `program_c`.
ghost use Rattle.program.specs.Outcome.{Checked};

use crate::reader::parse;

// 0 where the text is read, and else the refusal's number × 65,536 and its place.
pub fn program_text_check(text: &[u8]) -> u32
    ensures { Checked text.now result }
{
    match parse(text) {
        Ok(_) => 0,
        Err(refusal) => refusal.fault.number() * 65536 + refusal.place as u32,
    }
}
