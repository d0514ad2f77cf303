// A place in a program, as a process holds it.
ghost use Rattle.std.specs.Prelude.{◌≤◌};

// The choices of the last pivot: the index at which they begin, and the ordinal of the alternative taken among them.
// They come after a pivot and its bracket, and each alternative before the one taken ends with a bar.
#[derive(Clone, Copy, Debug, PartialEq, Eq)]
pub(crate) struct Choices {
    pub(crate) from: usize,
    pub(crate) alternative: u32,
    ghost after_pivot: { 2 ≤ from },
    ghost low: { alternative ≤ 254 },
}

// A place in a program: the index of the next command, and the choices of the last pivot, if there was one.
#[derive(Clone, Copy, Debug, PartialEq, Eq)]
pub struct Cursor {
    pub(crate) at: usize,
    pub(crate) choices: Option<Choices>,
}
