// What a line gave.
use std::fmt;

#[derive(Clone, Copy, Debug, PartialEq, Eq)]
pub enum Outcome {
    // this and the state are cases, with no Option around: every line has one outcome, and what it comes to is defined for all
    Nothing,
    State,
    // the answer, or none where it was not possible
    Performed(Option<u32>),
    TakenBack,
    Conflict(bool),
    // of which kinds it is, or none where there is no such activity
    Kinds(Option<Kinds>),
}

// Of which kinds an activity is, to be printed. The tables of Lanes and Register have flags of their own: nothing works on both.
#[derive(Clone, Copy, Debug, PartialEq, Eq)]
pub struct Kinds {
    pub compensatable: bool,
    pub retriable: bool,
}

impl fmt::Display for Outcome {
    fn fmt<W: fmt::Write>(&self, f: &mut fmt::Formatter<W>) -> fmt::Result {
        match self {
            Outcome::Nothing => Ok(()),
            Outcome::State => write!(f, "the state follows"),
            Outcome::Performed(Some(answer)) => write!(f, "performed, with the answer {answer}"),
            Outcome::Performed(None) => write!(f, "not possible"),
            Outcome::TakenBack => write!(f, "taken back"),
            Outcome::Conflict(true) => write!(f, "they conflict"),
            Outcome::Conflict(false) => write!(f, "no conflict"),
            Outcome::Kinds(Some(kinds)) => write!(f, "{kinds}"),
            Outcome::Kinds(None) => write!(f, "there is no such activity"),
        }
    }
}

impl fmt::Display for Kinds {
    fn fmt<W: fmt::Write>(&self, f: &mut fmt::Formatter<W>) -> fmt::Result {
        f.write_str(match (self.compensatable, self.retriable) {
            (true, true) => "compensatable and retriable",
            (true, false) => "compensatable, not retriable",
            (false, true) => "retriable, not compensatable",
            (false, false) => "neither compensatable nor retriable",
        })
    }
}
