// Texts worked through by hand.
ghost use Rattle.program.specs.Worked.{WorkedTexts};

// `.` is read; the empty text, a bracket that is not closed and an alternative that ends in `]` are refused, each at its place.
pub fn worked_texts()
    ensures { WorkedTexts }
{}
