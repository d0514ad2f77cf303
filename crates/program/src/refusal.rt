// Why a text is refused, and where.
ghost use Rattle.std.specs.Prelude.{◌≡◌};
ghost use Rattle.program.specs.Refusals.{number_of};

// What is wrong with a text, by the number that callers know it by.
#[derive(Clone, Copy, Debug, PartialEq, Eq)]
pub enum Fault {
    // over 255 bytes
    TooLong = 1,
    // a byte that is no command, or a command that cannot stand there
    Misplaced = 2,
    // no byte is left, or a step's operands are cut off
    CutOff = 3,
    // the 33rd step
    TooManySteps = 4,
    // a fifth open bracket
    TooDeep = 5,
    // bytes after the full stop
    Trailing = 6,
}

impl Fault {
    // The number by which callers know the refusal.
    pub fn number(self) -> u32
        ensures { result ≡ number_of self }
    {
        self as u32
    }
}

// A fault, and the place of the byte at which it was found.
#[derive(Clone, Copy, Debug, PartialEq, Eq)]
pub struct Refusal {
    pub fault: Fault,
    pub place: usize,
}
