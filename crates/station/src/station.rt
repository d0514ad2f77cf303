// The station: what each kind of station offers, what it means, and the laws that it keeps.
ghost use Rattle.std.specs.Prelude.{◌≡◌, ℕ, nat_lt};
ghost use Rattle.station.specs.Meaning.{Meaning, answer_of, state_after, Restores, Commutes, Symmetric, AlwaysPossible, Bounded};

use activity::Activity;

// A station has a state, which its activities change. Its catalogue tells, from the numbers of the activities alone,
// which can be taken back (compensatable), which are possible in every state (retriable), and which two conflict.
pub trait Station {
    // How many activities there are. The numbers from there on do not exist.
    const ACTIVITIES: u32;

    // The constant again, where a clause can name it.
    ghost ACTIVITIES: { ℕ };

    // The states as the rules see them: where they are equal, the station behaves alike.
    ghost State: { Type 0 };

    // The state that a station is in.
    ghost view: { Self → State };

    // Which activities are possible in a state, what they answer and lead to, and the catalogue.
    ghost meaning: { Meaning State };

    // Performs the activity and gives its answer, or None where it is not possible: then the state stays.
    fn perform(&mut self, activity: Activity) -> Option<u32>
        ensures answer { result ≡ answer_of (meaning.performed (view self.old) activity) }
        ensures state { view self.new ≡ state_after (view self.old) (meaning.performed (view self.old) activity) };

    // Takes back the activity, which gave this answer.
    fn take_back(&mut self, activity: Activity, answer: u32)
        ensures { view self.new ≡ meaning.taken_back (view self.old) activity answer };

    // Can the activity of this number be taken back?
    fn compensatable(&self, number: u8) -> bool
        ensures { result ≡ meaning.compensatable number };

    // Is the activity of this number possible in every state?
    fn retriable(&self, number: u8) -> bool
        ensures { result ≡ meaning.retriable number };

    // Do the activities of these numbers conflict?
    fn conflict(&self, a: u8, b: u8) -> bool
        ensures { result ≡ meaning.conflict a b };

    // Is there an activity of this number?
    fn exists(&self, number: u8) -> bool
        ensures { result ≡ nat_lt number meaning.activities }
    {
        u32::from(number) < Self::ACTIVITIES
    }

    // The constant is the number of activities that the meaning has.
    ghost counted: { meaning.activities ≡ ACTIVITIES };

    // Taking back a compensatable activity directly after performing it, with its answer, restores the state before.
    ghost restores: { Restores meaning };

    // Two activities that do not conflict come to the same in either order.
    ghost commutes: { Commutes meaning };

    // Conflict is symmetric.
    ghost symmetric: { Symmetric meaning };

    // A retriable activity is possible in every state.
    ghost retries: { AlwaysPossible meaning };

    // A number that does not exist is never possible, of neither kind and in conflict with none, and taking it back does nothing.
    ghost bounded: { Bounded meaning };
}
