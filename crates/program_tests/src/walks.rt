// A process's way through a program: what is next, into alternatives, ordinals.
use activity::Activity;
use notation::decode;
use program::{Cursor, Kind, Program, Step, read};
use std::process::Abort;
use std::test::Fail;

fn program(rt: &(impl Abort + AllocGlobal), line: &str) -> Result<Program, Fail> {
    let bytes = decode(rt.alloc(), line.as_bytes())?;
    let reading = read(bytes.as_slice());
    assert_eq!(rt; reading.number(), 0);
    assert_eq!(rt; reading.place(), 0);
    Ok(reading.program)
}

fn step(kind: Kind, number: u8, parameter: u16) -> Option<Step> {
    Some(Step {
        kind,
        activity: Activity { number, parameter },
    })
}

#[test]
fn a_way_through_nested_alternatives(rt: HostRuntime) -> Result<(), Fail> {
    let p = program(
        &rt,
        "C 00 0065 P 23 0013 [ C 20 0015 P 23 0015 [ R 24 0015 ] | | R 24 0013 R 04 0065 ] .",
    )?;
    let start = Cursor::start();
    assert_eq!(rt; p.next(start), step(Kind::Compensatable, 0, 101));
    let pivot = p.onward(start);
    assert_eq!(rt; p.next(pivot), step(Kind::Pivot, 35, 19));
    assert_eq!(rt; p.ordinal(pivot), 1);
    let first = p.onward(pivot);
    assert_eq!(rt; first.alternative(), 0);
    assert_eq!(rt; p.next(first), step(Kind::Compensatable, 32, 21));
    let second = p.next_alternative(first);
    assert_eq!(rt; second.alternative(), 1);
    assert_eq!(rt; p.next(second), None);
    let last = p.next_alternative(second);
    assert_eq!(rt; last.alternative(), 2);
    assert_eq!(rt; p.next(last), step(Kind::Retriable, 36, 19));
    assert_eq!(rt; p.ordinal(last), 5);
    Ok(())
}

#[test]
fn the_last_alternative_is_the_last(rt: HostRuntime) -> Result<(), Fail> {
    let p = program(&rt, "P 04 0003 [ C 01 0003 | ] .")?;
    let first = p.onward(Cursor::start());
    let last = p.into_alternative(first, 9);
    assert_eq!(rt; last.alternative(), 1);
    assert_eq!(rt; p.next(last), None);
    assert_eq!(rt; p.next(p.onward(last)), None);
    assert_eq!(rt; p.into_alternative(Cursor::start(), 3).alternative(), 0);
    Ok(())
}

#[test]
fn choices_of_another_program_keep_their_place(rt: HostRuntime) -> Result<(), Fail> {
    let p = program(&rt, "C 00 0003 P 04 0003 [ R 01 0003 ] .")?;
    let shorter = program(&rt, ".")?;
    let row = p.onward(p.onward(Cursor::start()));
    let same = shorter.into_alternative(row, 0);
    assert_eq!(rt; p.next(same), step(Kind::Retriable, 1, 3));
    assert_eq!(rt; p.ordinal(same), 2);
    let next = shorter.next_alternative(row);
    assert_eq!(rt; p.next(next), step(Kind::Retriable, 1, 3));
    assert_eq!(rt; p.ordinal(next), 2);
    Ok(())
}

#[test]
fn steps_by_ordinal(rt: HostRuntime) -> Result<(), Fail> {
    let p = program(&rt, "C 00 0003 P 03 0003 [ R 04 0003 ] .")?;
    assert_eq!(rt; p.step(0), step(Kind::Compensatable, 0, 3));
    assert_eq!(rt; p.step(1), step(Kind::Pivot, 3, 3));
    assert_eq!(rt; p.step(2), step(Kind::Retriable, 4, 3));
    assert_eq!(rt; p.step(3), None);
    Ok(())
}

#[test]
fn a_refused_text_gives_the_program_of_the_full_stop(rt: HostRuntime) {
    let reading = read(b"C\x00\x00");
    assert_eq!(rt; reading.number(), 3);
    assert_eq!(rt; reading.place(), 0);
    assert_eq!(rt; reading.program.next(Cursor::start()), None);
    assert_eq!(rt; reading.program.step(0), None);
}
