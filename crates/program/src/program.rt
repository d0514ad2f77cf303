// The type of programs.
ghost use Rattle.std.specs.Prelude.{◌≡◌, ◌≤◌, length, take};
ghost use Rattle.program.specs.Grammar.{Yielded};

use crate::Command;

// A program: the commands of one text, from its first to the full stop.
// Its last field says that the grammar yields that text within the limits, so no other row of commands makes a program.
// A table with its length, since nothing here allocates: C controllers read programs without an allocator.
#[derive(Clone, Copy, Debug, PartialEq, Eq)]
pub struct Program {
    pub(crate) commands: [Command; 255],
    pub(crate) len: usize,
    ghost long: { length commands ≡ 255 },
    ghost room: { len ≤ 255 },
    ghost yielded: { ∥ Yielded (take len commands) ∥₁ },
}
