// What a step asks of a station, and how wide its number and its parameter are.
#![tactic(auto)]

use std::fmt;

// An activity of a station, by its number, with the parameter that it is asked with.
#[derive(Clone, Copy, PartialEq, Eq, Debug)]
pub struct Activity {
    pub number: u8,
    pub parameter: u16,
}

// As in `activity 3, parameter 256`.
impl fmt::Display for Activity {
    ghost use Rattle.std.specs.Prelude.{Some};
    ghost use Rattle.activity.specs.Activity.{activity_shown};

    ghost output = { λ a. Some (activity_shown a) };

    fn fmt<W: fmt::Write>(&self, f: &mut fmt::Formatter<W>) -> fmt::Result {
        let Activity { number, parameter } = *self;
        write!(f, "activity {number}, parameter {parameter}")
    }
}
