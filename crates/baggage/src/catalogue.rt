// The catalogue of a station of five activities, as a table: the kind of each, and which of them conflict.
ghost use Rattle.std.specs.Prelude.{◌≡◌, true};
ghost use Rattle.baggage.specs.Tabled.{Listing, listed, matched, kind_at, conflict_at, agrees};

// Whether an activity can be taken back, and whether it is possible in every state.
#[derive(Clone, Copy, Debug, PartialEq, Eq)]
pub struct Kind {
    pub compensatable: bool,
    pub retriable: bool,
}

const COMPENSATABLE: Kind = Kind {
    compensatable: true,
    retriable: false,
};

const RETRIABLE: Kind = Kind {
    compensatable: false,
    retriable: true,
};

const BOTH: Kind = Kind {
    compensatable: true,
    retriable: true,
};

const NEITHER: Kind = Kind {
    compensatable: false,
    retriable: false,
};

// The kinds by number, the same in both stations.
pub const KINDS: [Kind; 5] = [COMPENSATABLE, COMPENSATABLE, BOTH, NEITHER, RETRIABLE];

// The kinds by number, and at row a and column b whether a and b conflict.
#[derive(Clone, Copy, Debug, PartialEq, Eq)]
pub struct Catalogue {
    pub kinds: [Kind; 5],
    pub conflicts: [[bool; 5]; 5],
}

impl Catalogue {
    // The kind of an activity, and neither kind past the table's end. A listing has the same where the table agrees with it.
    pub fn kind(&self, number: u8) -> Kind
        ensures table { result ≡ kind_at self.now number }
        ensures compensatable { (l : Listing) → agrees self.now l ≡ true → result.compensatable ≡ listed l.compensatables number }
        ensures retriable { (l : Listing) → agrees self.now l ≡ true → result.retriable ≡ listed l.retriables number }
    {
        self.kinds
            .get(usize::from(number))
            .copied()
            .unwrap_or(NEITHER)
    }

    // Whether two activities conflict, which none does past the table's end. A listing has the same where the table agrees with it.
    pub fn conflict(&self, a: u8, b: u8) -> bool
        ensures table { result ≡ conflict_at self.now a b }
        ensures listed { (l : Listing) → agrees self.now l ≡ true → result ≡ matched l.conflicts a b }
    {
        self.conflicts
            .get(usize::from(a))
            .and_then(|row| row.get(usize::from(b)))
            .copied()
            .unwrap_or(false)
    }
}
