// The register: 256 bags, each absent or at a stand, with a sealed and a reported mark.
ghost use Rattle.std.specs.Prelude.{◌≡◌, ◌<◌};

use crate::row::Row;

mod work;

// A stand is where a bag waits, from 1 to 15.
#[derive(Clone, Copy, Debug, PartialEq, Eq)]
pub struct Stand {
    value: u8,
    ghost range: { (0 < value) × (value < 16) },
}

// A bag without a stand is absent. A sealed one can be neither struck nor sealed again.
#[derive(Clone, Copy, Debug, PartialEq, Eq)]
pub struct Bag {
    stand: Option<Stand>,
    sealed: bool,
    reported: bool,
}

// The activities, in the order of their numbers.
#[derive(Clone, Copy, Debug, PartialEq, Eq)]
pub enum BagActivity {
    // an absent bag is entered at a stand
    Enter,
    // a bag is struck off, and its stand told
    Strike,
    // the bag's stand is looked up
    Look,
    // a bag is sealed
    Seal,
    // the bag is reported
    Report,
}

pub type Register = Row<Bag, 256>;
