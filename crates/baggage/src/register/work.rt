// What the activities do to a bag, and how the 256 are asked.
ghost use Rattle.std.specs.Prelude.{◌≡◌};
ghost use Rattle.baggage.specs.Register.{standing, number_of, entered, if_open, bag_meaning, value_of, bag_of};
ghost use Rattle.baggage.specs.BagLaws;

use super::{Bag, BagActivity, Register, Stand};
use crate::catalogue::{Catalogue, KINDS};
use crate::cell::Cell;

// How many stands there are, with 0 for none: a parameter is the bag times this, and the stand.
const STANDS: u16 = 16;

// The activities by number.
const ACTIVITIES: [BagActivity; 5] = [
    BagActivity::Enter,
    BagActivity::Strike,
    BagActivity::Look,
    BagActivity::Seal,
    BagActivity::Report,
];

// The pairs 0-1, 0-2, 0-3 and 1-2 conflict.
// A table of constants, the form in which the rules of the project want a catalogue in the code.
const CATALOGUE: Catalogue = Catalogue {
    kinds: KINDS,
    conflicts: [
        [false, true, true, true, false],
        [true, false, true, false, false],
        [true, true, false, false, false],
        [true, false, false, false, false],
        [false, false, false, false, false],
    ],
};

impl Stand {
    // An Option, as of std's NonZero: with TryFrom both callers below would throw its error away by ok().
    fn new(value: u8) -> Option<Stand>
        ensures { result ≡ standing value }
    {
        if value > 0 && u16::from(value) < STANDS {
            Some(Stand { value })
        } else {
            None
        }
    }
}

impl Bag {
    // The number of its stand, 0 if it is absent.
    fn number(self) -> u32
        ensures { result ≡ number_of self.stand }
    {
        self.stand.map_or(0, |stand| u32::from(stand.value))
    }

    // An absent bag is entered at a stand.
    fn entered(self, stand: Option<Stand>) -> Option<(u32, Bag)>
        ensures { result ≡ entered self self.stand stand }
    {
        match self.stand {
            Some(_) => None,
            None => {
                let stand = Some(stand?);
                Some((0, Bag { stand, ..self }))
            }
        }
    }

    // A bag that is present and not sealed answers its stand, and becomes `after`.
    fn if_open(self, after: Bag) -> Option<(u32, Bag)>
        ensures { result ≡ if_open self.stand self.sealed after }
    {
        let stand = self.stand?;
        if self.sealed {
            None
        } else {
            Some((u32::from(stand.value), after))
        }
    }
}

impl Cell for Bag {
    type Activity = BagActivity;

    ghost meaning = { bag_meaning };

    ghost laws = { BagLaws.laws };

    fn first() -> Bag {
        Bag {
            stand: None,
            sealed: false,
            reported: false,
        }
    }

    fn named(number: u8) -> Option<BagActivity> {
        ACTIVITIES.get(usize::from(number)).copied()
    }

    fn place(parameter: u16) -> usize {
        usize::from(parameter / STANDS)
    }

    fn perform(self, activity: BagActivity, parameter: u16) -> Option<(u32, Bag)> {
        match activity {
            BagActivity::Enter => self.entered(Stand::new((parameter % STANDS) as u8)),
            BagActivity::Strike => self.if_open(Bag {
                stand: None,
                ..self
            }),
            BagActivity::Look => Some((self.number(), self)),
            BagActivity::Seal => self.if_open(Bag {
                sealed: true,
                ..self
            }),
            BagActivity::Report => Some((
                0,
                Bag {
                    reported: true,
                    ..self
                },
            )),
        }
    }

    fn take_back(self, activity: BagActivity, answer: u32) -> Bag {
        match activity {
            BagActivity::Enter => Bag {
                stand: None,
                ..self
            },
            BagActivity::Strike => Bag {
                stand: Stand::new((answer % u32::from(STANDS)) as u8),
                ..self
            },
            BagActivity::Look | BagActivity::Seal | BagActivity::Report => self,
        }
    }

    fn anywhere(activity: BagActivity) -> bool {
        matches!(activity, BagActivity::Look | BagActivity::Report)
    }

    fn catalogue() -> Catalogue {
        CATALOGUE
    }
}

impl Register {
    // The bag's stand, or None where it is absent.
    pub fn stand(&self, bag: u8) -> Option<u8>
        ensures { result ≡ value_of (bag_of self.now bag).stand }
    {
        self.bag(bag).stand.map(|stand| stand.value)
    }

    // Whether the bag has the sealed mark.
    pub fn sealed(&self, bag: u8) -> bool
        ensures { result ≡ (bag_of self.now bag).sealed }
    {
        self.bag(bag).sealed
    }

    // Whether the bag has the reported mark.
    pub fn reported(&self, bag: u8) -> bool
        ensures { result ≡ (bag_of self.now bag).reported }
    {
        self.bag(bag).reported
    }

    // Not `cell`: every `u8` is a bag, so there is no None to answer.
    #[tactic(auto, using(std::proofs::lemmas::List::get_or_read), unfolding(crate::specs::Register::bag_of))]
    fn bag(&self, bag: u8) -> Bag
        ensures { result ≡ bag_of self.now bag }
    {
        self.cells[usize::from(bag)]
    }
}
