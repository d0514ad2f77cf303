// The commands of a program text, and the steps among them.
ghost use Rattle.std.specs.Prelude.{◌≡◌, length, if◌then◌else◌};
ghost use Rattle.program.specs.Grammar.{mark, written, command_of};
ghost use Rattle.program.specs.Refusals.{weight};
ghost use Rattle.program.specs.Places.{step_of};

use activity::Activity;
use std::fmt;

// How many bytes a step takes: its letter, one byte of activity and two of parameter.
const STEP_BYTES: usize = 4;

// What a step must be: one that can be taken back; one past which its process does not go back; one that cannot fail.
#[derive(Clone, Copy, Debug, PartialEq, Eq)]
pub enum Kind {
    Compensatable,
    Pivot,
    Retriable,
}

impl Kind {
    // The command of a step of the kind.
    pub(crate) fn command(self, activity: Activity) -> Command
        ensures { result ≡ command_of self activity }
    {
        match self {
            Kind::Compensatable => Command::C(activity),
            Kind::Pivot => Command::P(activity),
            Kind::Retriable => Command::R(activity),
        }
    }
}

impl fmt::Display for Kind {
    ghost use Rattle.std.specs.Prelude.{Some};
    ghost use Rattle.program.specs.Command.{kind_shown};

    ghost output = { λ k. Some (kind_shown k) };

    fn fmt<W: fmt::Write>(&self, f: &mut fmt::Formatter<W>) -> fmt::Result {
        f.write_str(match self {
            Kind::Compensatable => "compensatable",
            Kind::Pivot => "pivot",
            Kind::Retriable => "retriable",
        })
    }
}

// A step of a program: what it must be, and what it asks of the station.
#[derive(Clone, Copy, Debug, PartialEq, Eq)]
pub struct Step {
    pub kind: Kind,
    pub activity: Activity,
}

// As in `pivot, activity 3, parameter 256`.
impl fmt::Display for Step {
    ghost use Rattle.std.specs.Prelude.{Some};
    ghost use Rattle.program.specs.Command.{step_shown};

    ghost output = { λ s. Some (step_shown s) };

    fn fmt<W: fmt::Write>(&self, f: &mut fmt::Formatter<W>) -> fmt::Result {
        let Step { kind, activity } = *self;
        write!(f, "{kind}, {activity}")
    }
}

// A command of a text: a step by its letter C, P or R, or one of the marks `[`, `|`, `]` and the full stop.
// C, P and R are three cases, and not one that holds a Step: they are the letters of the grammar, and the definitions go by them.
#[derive(Clone, Copy, Debug, PartialEq, Eq)]
pub enum Command {
    C(Activity),
    P(Activity),
    R(Activity),
    Open,
    Bar,
    Close,
    Stop,
}

impl Command {
    // The letter or mark that stands for the command in a text.
    pub(crate) fn letter(self) -> char
        ensures { result ≡ mark self }
    {
        match self {
            Command::C(_) => 'C',
            Command::P(_) => 'P',
            Command::R(_) => 'R',
            Command::Open => '[',
            Command::Bar => '|',
            Command::Close => ']',
            Command::Stop => '.',
        }
    }

    // The step that the command is, if it is one.
    pub fn step(self) -> Option<Step>
        ensures { result ≡ step_of self }
    {
        match self {
            Command::C(activity) => Some(Step {
                kind: Kind::Compensatable,
                activity,
            }),
            Command::P(activity) => Some(Step {
                kind: Kind::Pivot,
                activity,
            }),
            Command::R(activity) => Some(Step {
                kind: Kind::Retriable,
                activity,
            }),
            _ => None,
        }
    }

    pub(crate) fn is_step(self) -> bool
        ensures { (if result then 1 else 0) ≡ weight self }
    {
        self.step().is_some()
    }

    // How many bytes the command takes.
    pub(crate) fn width(self) -> usize
        ensures { result ≡ length (written self) }
    {
        if self.is_step() { STEP_BYTES } else { 1 }
    }
}
