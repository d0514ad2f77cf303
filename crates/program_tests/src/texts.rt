// Texts for the tests, in the written notation or put together from parts.
use notation::decode;
use program::program_text_check;
use std::process::Abort;
use std::test::Fail;

// What the check must answer: the refusal's number and place, which its interface to C packs into one number.
pub fn refused(number: u16, place: u16) -> u32 {
    (u32::from(number) << 16) | u32::from(place)
}

// The text written so gets this answer.
pub fn expect(rt: &(impl Abort + AllocGlobal), line: &str, answer: u32) -> Result<(), Fail> {
    let bytes = decode(rt.alloc(), line.as_bytes())?;
    assert_eq!(rt; program_text_check(bytes.as_slice()), answer, "{}", line);
    Ok(())
}

// The text of these parts, each so many times over, gets this answer.
pub fn expect_parts(
    rt: &(impl Abort + AllocGlobal),
    parts: &[(&str, usize)],
    answer: u32,
) -> Result<(), Fail> {
    let mut line = String::new(rt.alloc());
    for &(part, times) in parts {
        line.push_str(part.repeat(rt.alloc(), times)?.as_str())?;
    }
    expect(rt, line.as_str(), answer)
}
