// What C controllers call of the program texts: a static library over the crate `program`.
#![tactic(auto)]

ghost use Rattle.program.specs.Outcome.{Checked};

// 0 where the text is read, and else the refusal's number × 65,536 and its place. C sees a pointer and a length.
#[unsafe(no_mangle)]
pub extern "C" fn program_text_check(text: &[u8]) -> u32
    ensures { Checked text.now result }
{
    program::program_text_check(text)
}
