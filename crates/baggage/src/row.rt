// A station that is a row of cells: each activity works on the one cell that its parameter names.
ghost use Rattle.std.specs.Prelude.{◌≡◌, length, slice_get};

use crate::cell::Cell;
use activity::Activity;
use station::Station;

#[derive(Drop)]
pub struct Row<C, const N: usize> {
    pub(crate) cells: [C; N],
    ghost full: { length cells ≡ N },
}

impl<C: Cell, const N: usize> Row<C, N> {
    ghost use Rattle.baggage.specs.Row.{first_row};

    // Every cell as it is at first.
    #[tactic(auto, using(crate::specs::RowLaws::row_path), unfolding(crate::specs::Row::first_row))]
    pub fn new() -> Row<C, N>
        ensures { result ≡ first_row C.Cell.meaning N }
    {
        Row {
            cells: [C::first(); N],
        }
    }

    // The cell of this number, if there is one.
    pub(crate) fn cell(&self, i: usize) -> Option<C>
        ensures { result ≡ slice_get self.now.cells i }
    {
        self.cells.get(i).copied()
    }
}

impl<C: Cell, const N: usize> Station for Row<C, N> {
    ghost use Rattle.baggage.specs.declared.row.Row.{Row};
    ghost use Rattle.baggage.specs.Row.{in_row};
    ghost use Rattle.baggage.specs.RowLaws;

    const ACTIVITIES: u32 = 5;

    ghost ACTIVITIES = { 5 };

    ghost State = { Row C N };

    ghost view = { λ s. s };

    ghost meaning = { in_row C.Cell.meaning N };

    ghost counted = { C.Cell.laws.five };

    ghost restores = { RowLaws.restores C.Cell.meaning N C.Cell.laws.undone };

    ghost commutes = { RowLaws.commutes C.Cell.meaning N C.Cell.laws.free };

    ghost symmetric = { RowLaws.symmetric C.Cell.meaning N C.Cell.laws.passes };

    ghost retries = { RowLaws.retries C.Cell.meaning N C.Cell.laws.ready };

    ghost bounded = { RowLaws.bounded C.Cell.meaning N C.Cell.laws.passes C.Cell.laws.five };

    fn perform(&mut self, activity: Activity) -> Option<u32> {
        let named = C::named(activity.number)?;
        let place = C::place(activity.parameter);
        let Some(cell) = self.cell(place) else {
            return C::anywhere(named).then_some(0);
        };
        let (answer, after) = cell.perform(named, activity.parameter)?;
        self.cells[place] = after;
        Some(answer)
    }

    fn take_back(&mut self, activity: Activity, answer: u32) {
        let place = C::place(activity.parameter);
        if let Some(named) = C::named(activity.number)
            && let Some(cell) = self.cell(place)
        {
            self.cells[place] = cell.take_back(named, answer);
        }
    }

    fn compensatable(&self, number: u8) -> bool {
        C::catalogue().kind(number).compensatable
    }

    fn retriable(&self, number: u8) -> bool {
        C::catalogue().kind(number).retriable
    }

    fn conflict(&self, a: u8, b: u8) -> bool {
        C::catalogue().conflict(a, b)
    }
}
