// What the activities of a station do to one of its cells.
ghost use Rattle.std.specs.Prelude.{◌≡◌, true, slice_get};
ghost use Rattle.baggage.specs.Tabled.{agrees};
ghost use Rattle.baggage.specs.Cell.{CellMeaning, CellLaws};

use crate::catalogue::Catalogue;

pub trait Cell: Copy {
    type Activity: Copy;

    // The cell at first, the activities in the order of their numbers, and what each does.
    ghost meaning: { CellMeaning Self Self.Activity };

    // The cell as it is at first.
    fn first() -> Self
        ensures { result ≡ meaning.first };

    // The activity of this number.
    fn named(number: u8) -> Option<Self::Activity>
        ensures { result ≡ slice_get meaning.names number };

    // Which cell of the row a parameter names.
    fn place(parameter: u16) -> usize
        ensures { result ≡ meaning.place parameter };

    // The answer of an activity and the cell after it, or None where it is not possible.
    fn perform(self, activity: Self::Activity, parameter: u16) -> Option<(u32, Self)>
        ensures { result ≡ meaning.performed activity parameter self };

    // The cell after an activity, which gave this answer, is taken back.
    fn take_back(self, activity: Self::Activity, answer: u32) -> Self
        ensures { result ≡ meaning.taken_back activity answer self };

    // Is it possible, without effect, where there is no such cell?
    fn anywhere(activity: Self::Activity) -> bool
        ensures { result ≡ meaning.anywhere activity };

    // The table, which has what the rules list.
    fn catalogue() -> Catalogue
        ensures { agrees result meaning.listing ≡ true };

    // From these laws of one cell a row of them has those of a station.
    ghost laws: { CellLaws meaning };
}
