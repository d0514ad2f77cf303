// What reading a text gives.
ghost use Rattle.std.specs.Prelude.{◌≡◌, [], ◌∷◌, None};
ghost use Rattle.program.specs.declared.command.Command.TheVariants.{Stop};
ghost use Rattle.program.specs.Grammar.{Body, Yields};
ghost use Rattle.program.specs.Places.{program_commands, tree};
ghost use Rattle.program.specs.Outcome.{Outcome, Same, number_told, place_told};

use crate::reader::{blank, parse};
use crate::{Program, Refusal};

// The program of the text; where the text is refused, the program of `.`, with the refusal.
// The rules fix this form, a program for every text, with the number and the place 0 where it is read; `parse` is the Result beside it.
#[derive(Clone, Copy, Debug, PartialEq, Eq)]
pub struct Reading {
    pub program: Program,
    pub refusal: Option<Refusal>,
}

impl Reading {
    // The refusal's number, 0 where there is none.
    pub fn number(&self) -> u32
        ensures { result ≡ number_told self.now.refusal }
    {
        self.refusal.map_or(0, |refusal| refusal.fault.number())
    }

    // The refusal's place, 0 where there is none.
    pub fn place(&self) -> usize
        ensures { result ≡ place_told self.now.refusal }
    {
        self.refusal.map_or(0, |refusal| refusal.place)
    }
}

// The program of `.`, which has no steps.
fn stop() -> Program
    ensures { program_commands result ≡ Stop ∷ [] }
{
    Program {
        commands: *blank(),
        len: 1,
    }
}

// Reads a text: what comes of it is fixed by the grammar, its limits and the order of the refusals, and by nothing else.
pub fn read(text: &[u8]) -> Reading
    ensures outcome { Outcome text.now result }
    ensures accepts { (b : Body) → Yields text.now b → (result.refusal ≡ None) × (tree result.program ≡ b) }
    ensures once { (q : Reading) → Outcome text.now q → Same result q }
{
    match parse(text) {
        Ok(program) => Reading {
            program,
            refusal: None,
        },
        Err(refusal) => Reading {
            program: stop(),
            refusal: Some(refusal),
        },
    }
}
