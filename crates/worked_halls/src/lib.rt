// Halls worked through by hand, from the first call to the last answer.
#![tactic(auto)]

ghost use Rattle.worked_halls.specs.Worked.{WorkedHalls};

use program::worked_texts;

// The worked halls come out as written, by the rules of the hall over a pair of Lanes and Register at first; and so do
// the worked texts.
pub fn worked_halls()
    ensures { WorkedHalls }
{
    worked_texts();
}
