// What a test asks of a station, and the answer that it expects.
use activity::Activity;
use station::Station;
use std::process::Abort;

pub fn act(number: u8, parameter: u16) -> Activity {
    Activity { number, parameter }
}

// Performs each, by number and parameter, and expects this answer; None where it is not possible.
pub fn performs<S: Station>(rt: &impl Abort, subject: &mut S, steps: &[(u8, u16, Option<u32>)]) {
    for &(number, parameter, answer) in steps {
        assert_eq!(rt; subject.perform(act(number, parameter)), answer);
    }
}
