// Works the rig's station by hand: reads lines from standard input, and says what each of them gave.
#![tactic(auto)]

ghost use Rattle.std.specs.Prelude.{◌≡◌};
ghost use Rattle.baggage.specs.Lanes.{first_lanes};
ghost use Rattle.baggage.specs.Register.{first_register};
ghost use Rattle.stationbench.specs.Outcome.{outcome_of, state_of};

use baggage::{Lanes, Register};
use bench_lines::{Line, read};
use station::{Pair, Renumbering, Station};
use std::io::{BufRead, BufReader, Read};
use std::{env, io};

mod outcome;
mod shown;

use outcome::{Kinds, Outcome};

// The rig's station: Lanes by tags, and the Register.
type Rig = Pair<Renumbering<Lanes>, Register>;

// What is added to a tag: 101 to 116 are the lanes 0 to 15.
const TAGS: u16 = 65435;

fn rig() -> Rig
    ensures lanes { result.first.inner ≡ first_lanes }
    ensures tags { result.first.offset ≡ 65435 }
    ensures register { result.second ≡ first_register }
{
    Pair::new(Renumbering::new(Lanes::new(), TAGS), Register::new())
}

// Does what a line asks for, and says what it gave.
fn work<S: Station>(subject: &mut S, line: Line) -> Outcome
    ensures outcome { result ≡ outcome_of S.Station.meaning (S.Station.view subject.old) line }
    ensures state { S.Station.view subject.new ≡ state_of S.Station.meaning (S.Station.view subject.old) line }
{
    // A match, since each line makes another call of the station, with an answer of another kind.
    match line {
        Line::Blank => Outcome::Nothing,
        Line::State => Outcome::State,
        Line::Perform(activity) => Outcome::Performed(subject.perform(activity)),
        Line::TakeBack(activity, answer) => {
            subject.take_back(activity, answer);
            Outcome::TakenBack
        }
        Line::Conflict(a, b) => Outcome::Conflict(subject.conflict(a, b)),
        Line::Kinds(number) => {
            let kinds = Kinds {
                compensatable: subject.compensatable(number),
                retriable: subject.retriable(number),
            };
            Outcome::Kinds(subject.exists(number).then_some(kinds))
        }
    }
}

// Prints what a line gave, or what is wrong with it.
fn answer(rt: &impl Print, rig: &mut Rig, number: u64, text: &[u8]) -> io::Result<()> {
    match read(text) {
        Ok(line) => match work(rig, line) {
            Outcome::Nothing => Ok(()),
            Outcome::State => shown::state(rt, rig.first().inner(), rig.second()),
            outcome => println!(rt; "{line}: {outcome}"),
        },
        Err(mistake) => println!(rt; "line {number}, {mistake}"),
    }
}

fn run(rt: &(impl Print + AllocGlobal), input: impl Read + Drop) -> io::Result<()> {
    let mut rig = rig();
    let mut input = BufReader::new(rt.alloc(), input)?;
    // one buffer for all lines: `split` would make one for each, which takes more time, and more memory where lines grow
    let mut text = Vec::new(rt.alloc());
    for number in 1..u64::MAX {
        text.clear();
        if input.read_until(b'\n', &mut text)? == 0 {
            break;
        }
        answer(rt, &mut rig, number, text.as_slice())?;
    }
    Ok(())
}

fn main(rt: HostRuntime) -> io::Result<()> {
    match env::args(&rt)?.nth(1) {
        Some(argument) if argument.as_str() == "--help" => shown::help(&rt),
        Some(argument) => {
            println!(rt; "stationbench does not know the argument {argument}.")?;
            shown::help(&rt)
        }
        None => run(&rt, rt.stdin()),
    }
}
