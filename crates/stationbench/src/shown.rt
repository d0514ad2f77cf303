// The printed state and the help.
ghost use Rattle.std.specs.Prelude.{◌≡◌, [], if◌then◌else◌};

use baggage::{Lanes, Register};
use std::io;

const LANES: u8 = 16;

// The tag of lane 0.
const FIRST_TAG: u16 = 101;

const HELP: &str = "\
stationbench works the rig's station: 0 to 4 are the activities of Lanes, whose parameters are the
tags 101 to 116, and 32 to 36 those of the Register, whose parameters are bag x 16 + stand.
It reads lines from standard input:
  perform NUMBER PARAMETER            performs an activity and prints its answer
  take-back NUMBER PARAMETER ANSWER   takes back an activity that gave this answer
  conflict NUMBER NUMBER              says whether two activities conflict
  kinds NUMBER                        says whether an activity is compensatable and retriable
  state                               prints the lanes and bags that are not in their first state
Blank lines are passed over, and so is what follows a '#'.
";

// The word of a mark that is set, nothing of one that is not.
fn mark(set: bool, word: &'static str) -> &'static str
    ensures { result.now ≡ (if set then word.now else []) }
{
    if set { word } else { "" }
}

// Prints a lane unless it is empty and not flagged, and says whether it did.
fn lane(rt: &impl Print, lanes: &Lanes, lane: u8) -> io::Result<bool> {
    let count = lanes.count(lane).unwrap_or(0);
    let flag = lanes.flag(lane).unwrap_or(false);
    if count == 0 && !flag {
        return Ok(false);
    }
    let tag = FIRST_TAG + u16::from(lane);
    let flagged = mark(flag, ", flagged");
    println!(rt; "  lane {lane} (tag {tag}): bags {count}{flagged}")?;
    Ok(true)
}

// Prints a bag unless it is absent and unmarked, and says whether it did.
fn bag(rt: &impl Print, register: &Register, bag: u8) -> io::Result<bool> {
    let sealed = register.sealed(bag);
    let reported = register.reported(bag);
    let marks = mark(sealed, ", sealed");
    let more = mark(reported, ", reported");
    match register.stand(bag) {
        Some(stand) => {
            println!(rt; "  bag {bag}: at stand {stand}{marks}{more}")?;
            Ok(true)
        }
        None if sealed || reported => {
            println!(rt; "  bag {bag}: absent{marks}{more}")?;
            Ok(true)
        }
        None => Ok(false),
    }
}

// Prints each lane and each bag that is not in its first state.
pub fn state(rt: &impl Print, lanes: &Lanes, register: &Register) -> io::Result<()> {
    println!(rt; "state:")?;
    let mut any = false;
    // A station is asked by the number of a lane or a bag: it hands out no list of them.
    for i in 0..LANES {
        any |= lane(rt, lanes, i)?;
    }
    for i in 0..=u8::MAX {
        any |= bag(rt, register, i)?;
    }
    if any {
        Ok(())
    } else {
        println!(rt; "  every lane and every bag is in its first state")
    }
}

pub fn help(rt: &impl Print) -> io::Result<()> {
    rt.print(HELP)
}
