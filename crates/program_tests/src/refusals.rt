// Each refusal at its first and at its last place, and which of two comes first where both could.
use crate::texts::{expect, expect_parts, refused};
use std::test::Fail;

#[test]
fn thirty_two_steps_are_read_and_thirty_three_refused(rt: HostRuntime) -> Result<(), Fail> {
    expect_parts(&rt, &[("C 00 0003", 32), (".", 1)], 0)?;
    expect_parts(&rt, &[("C 00 0003", 33), (".", 1)], refused(4, 128))?;
    expect_parts(&rt, &[("P 00 0003 [", 1), ("R 00 0003", 31), ("] .", 1)], 0)
}

#[test]
fn the_longest_text_is_read(rt: HostRuntime) -> Result<(), Fail> {
    expect_parts(&rt, &[("P 00 0000 [", 1), ("|", 248), ("] .", 1)], 0)?;
    expect_parts(
        &rt,
        &[("P 00 0000 [", 1), ("|", 249), ("] .", 1)],
        refused(1, 255),
    )?;
    expect_parts(
        &rt,
        &[("P 00 0000 [", 1), ("|", 600), ("] .", 1)],
        refused(1, 255),
    )
}

#[test]
fn first_places(rt: HostRuntime) -> Result<(), Fail> {
    expect(&rt, "", refused(3, 0))?;
    expect(&rt, "00", refused(2, 0))?;
    expect(&rt, "R 04 0003", refused(2, 0))?;
    expect(&rt, "C", refused(3, 0))?;
    expect(&rt, "C 00 00", refused(3, 0))?;
    expect(&rt, ". .", refused(6, 1))?;
    expect(
        &rt,
        "P000000[ P000000[ P000000[ P000000[ P000000[",
        refused(5, 24),
    )
}

#[test]
fn last_places(rt: HostRuntime) -> Result<(), Fail> {
    expect_parts(
        &rt,
        &[("P 00 0000 [", 1), ("|", 249), (".", 1)],
        refused(2, 254),
    )?;
    expect_parts(&rt, &[("P 00 0000 [", 1), ("|", 250)], refused(3, 255))?;
    expect_parts(
        &rt,
        &[("P 00 0000 [", 1), ("|", 249), ("C", 1)],
        refused(3, 254),
    )?;
    expect_parts(
        &rt,
        &[("P 00 0000 [", 1), ("|", 247), ("] . .", 1)],
        refused(6, 254),
    )?;
    expect_parts(
        &rt,
        &[
            ("P000000[ P000000[ P000000[ P000000[", 1),
            ("|", 230),
            ("P000000[", 1),
        ],
        refused(5, 254),
    )?;
    expect_parts(
        &rt,
        &[("C000000", 31), ("P000000 [", 1), ("|", 125), ("R", 1)],
        refused(4, 254),
    )
}

#[test]
fn too_long_comes_first(rt: HostRuntime) -> Result<(), Fail> {
    expect_parts(&rt, &[("00", 256)], refused(1, 255))?;
    expect_parts(&rt, &[(".", 256)], refused(1, 255))?;
    expect_parts(&rt, &[("C000000", 64)], refused(1, 255))
}

#[test]
fn misplaced_comes_before_limits_and_operands(rt: HostRuntime) -> Result<(), Fail> {
    expect_parts(&rt, &[("C 00 0003", 32), ("00", 1)], refused(2, 128))?;
    expect_parts(
        &rt,
        &[("C 00 0003", 32), ("R 00 0003 .", 1)],
        refused(2, 128),
    )?;
    expect_parts(&rt, &[("C 00 0003", 32), ("R", 1)], refused(2, 128))?;
    expect(&rt, "R", refused(2, 0))?;
    expect(
        &rt,
        "P000000[ P000000[ P000000[ P000000[ C000000 [",
        refused(2, 24),
    )?;
    expect(&rt, "[ . .", refused(2, 0))
}

#[test]
fn limits_come_before_operands(rt: HostRuntime) -> Result<(), Fail> {
    expect_parts(&rt, &[("C 00 0003", 32), ("C", 1)], refused(4, 128))?;
    expect_parts(&rt, &[("C 00 0003", 32), ("P 00 00", 1)], refused(4, 128))?;
    expect(
        &rt,
        "P000000[ P000000[ P000000[ P000000[ P00",
        refused(3, 20),
    )?;
    expect(&rt, "P 00 00", refused(3, 0))
}

#[test]
fn too_long_comes_before_what_ends_or_opens(rt: HostRuntime) -> Result<(), Fail> {
    expect_parts(&rt, &[("P 00 0000 [", 1), ("|", 251)], refused(1, 255))?;
    expect_parts(
        &rt,
        &[("P 00 0000 [", 1), ("|", 250), ("C", 1)],
        refused(1, 255),
    )?;
    expect_parts(&rt, &[("P000000[", 5), ("|", 231)], refused(1, 255))
}

#[test]
fn of_two_limits_the_first_in_the_text(rt: HostRuntime) -> Result<(), Fail> {
    expect_parts(
        &rt,
        &[("P000000[", 4), ("C000000", 28), ("P000000[", 1)],
        refused(4, 132),
    )?;
    expect_parts(&rt, &[("P000000[", 5), ("C000000", 28)], refused(5, 24))
}

#[test]
fn limits_and_what_follows_the_full_stop(rt: HostRuntime) -> Result<(), Fail> {
    expect_parts(&rt, &[("C 00 0003", 33), (". .", 1)], refused(4, 128))?;
    expect_parts(
        &rt,
        &[("C 00 0003", 32), (". C 00 0003", 1)],
        refused(6, 129),
    )?;
    expect(
        &rt,
        "P000000[ P000000[ P000000[ P000000[ P000000[ ] | ] | ] | ] | ] . .",
        refused(5, 24),
    )
}

#[test]
fn the_last_place_of_a_byte_that_is_no_command(rt: HostRuntime) -> Result<(), Fail> {
    expect_parts(
        &rt,
        &[("P 00 0000 [", 1), ("|", 249), ("00", 1)],
        refused(2, 254),
    )
}

#[test]
fn trailing_whatever_follows(rt: HostRuntime) -> Result<(), Fail> {
    expect(&rt, ". 00", refused(6, 1))?;
    expect(&rt, "C 00 0003 . C", refused(6, 5))?;
    expect(&rt, "P 00 0000 [ ] . ]", refused(6, 7))
}

#[test]
fn what_can_stand_where(rt: HostRuntime) -> Result<(), Fail> {
    expect(&rt, "P 00 0000 .", refused(2, 4))?;
    expect(&rt, "P 00 0000 C 00 0000 .", refused(2, 4))?;
    expect(&rt, "P 00 0000 [ ] C 00 0000 .", refused(2, 6))?;
    expect(&rt, "P 00 0000 [ ] | .", refused(2, 6))?;
    expect(&rt, "P 00 0000 [ R 00 0000 | ] .", refused(2, 9))?;
    expect(&rt, "P 00 0000 [ R 00 0000 C 00 0000 | ] .", refused(2, 9))?;
    expect(&rt, "P 00 0000 [ P 00 0000 [ ] ] .", refused(2, 11))?;
    expect(&rt, "P 00 0000 [ C 00 0000 . ] .", refused(2, 9))?;
    expect(
        &rt,
        "P 00 0000 [ P 00 0000 [ ] | | C 00 0000 | R 00 0000 ] .",
        0,
    )
}
