// The theorems about halls, each on a function's contract, over every station.
ghost use Rattle.protocol.specs.Statements.{RunsExactly, Agrees, Stays};
ghost use Rattle.protocol.specs.Exact.{CallsExactly, ScansExactly, StepsExactly};
ghost use Rattle.protocol.specs.Room.{HasRoom, StaysBounded};

use station::Station;

// The promise, whole: after every list of calls and scan lists, served or refused, from the making of a hall on, the hall's run and
// the orderly run agree; and what a process had kept up to its pivot stays, whatever comes after.
pub fn runs_agree_and_pivots_stay<S: Station>()
    ensures agree { Agrees S.Station.meaning }
    ensures stay { Stays S.Station.meaning }
{}

// Every call comes to exactly one of the things that the rules allow: a load, an installing, an opening, a step, a cancelling,
// a scan list, and so a list of them.
pub fn calls_have_one_outcome<S: Station>()
    ensures calls { CallsExactly S.Station.meaning }
    ensures steps { StepsExactly S.Station.meaning }
    ensures scans { ScansExactly S.Station.meaning }
    ensures lists { RunsExactly S.Station.meaning }
{}

// The log has room for every step.
pub fn room_stays<S: Station>()
    ensures { HasRoom S.Station.meaning }
{}

// Numbers and tables stay within their bounds.
pub fn bounds_stay<S: Station>()
    ensures { StaysBounded S.Station.meaning }
{}
