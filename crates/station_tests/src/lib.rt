// Runs of the stations: their whole catalogues, the constants, and the edges of what is possible.
#![tactic(auto)]

ghost use Rattle.std.specs.Prelude.{◌≡◌, true};
ghost use Rattle.station.specs.Meaning.{answer_of};
ghost use Rattle.station_tests.specs.Rehearsal.{rehearsed_state};

use activity::Activity;
use station::Station;

#[cfg(test)]
mod asked;
#[cfg(test)]
mod catalogue_tests;
#[cfg(test)]
mod lanes_tests;
#[cfg(test)]
mod made_tests;
#[cfg(test)]
mod register_tests;

// Performs an activity and, where that was possible, takes it back at once. A compensatable one leaves every station as it was;
// any other leaves it in the state to which taking back leads.
pub fn rehearse<S: Station>(subject: &mut S, activity: Activity) -> Option<u32>
    ensures answer { result ≡ answer_of (S.Station.meaning.performed (S.Station.view subject.old) activity) }
    ensures state { S.Station.view subject.new ≡ rehearsed_state S.Station.meaning (S.Station.view subject.old) activity (S.Station.meaning.performed (S.Station.view subject.old) activity) }
    ensures restored { S.Station.meaning.compensatable activity.number ≡ true → S.Station.view subject.new ≡ S.Station.view subject.old }
{
    let answer = subject.perform(activity)?;
    subject.take_back(activity, answer);
    Some(answer)
}
