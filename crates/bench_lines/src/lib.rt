// The lines that stationbench reads: their words, their numbers, and what is wrong with a bad one.
#![tactic(auto)]

ghost use Rattle.std.specs.Prelude.{◌≡◌, ℕ, ◌≤◌, length, Result, None};
ghost use Rattle.std.specs.List.{prefix_len};
ghost use Rattle.std.specs.Option.{option_map};
ghost use Rattle.std.specs.Result.{result_ok, result_map_both};
ghost use Rattle.std.specs.declared.num.TryFromIntError.{TryFromIntError};
ghost use Rattle.std.proofs.Common.{arith, lit≤};
ghost use Rattle.std.proofs.lemmas.Bool.Decides.{nat_tests};
ghost use Rattle.bench_lines.specs.Lines.{is_blank, is_in_word, begin, past_word, word_at, within, digit_onto, digits, with_place, number_at, activity_at, asked_at, end_at, reading};

use activity::Activity;
use std::error::Error;
use std::fmt;
use std::num::TryFromIntError;

// What a line asks for.
#[derive(Clone, Copy, Debug, PartialEq, Eq)]
pub enum Line {
    // nothing: it is blank, or a comment; a case, with no Option around: every line has one Line, and what it comes to is defined for all
    Blank,
    Perform(Activity),
    TakeBack(Activity, u32),
    Conflict(u8, u8),
    Kinds(u8),
    State,
}

// Why a line is bad.
#[derive(Clone, Copy, Debug, PartialEq, Eq)]
pub enum Fault {
    // no line begins with this word
    Unknown,
    // a number up to this one is missing
    Missing(u32),
    // this is no number up to that one
    NoNumber(u32),
    // the line goes on after its end
    Extra,
}

// A bad line: what is wrong, and how many bytes stand before that.
#[derive(Clone, Copy, Debug, PartialEq, Eq)]
pub struct Mistake {
    pub before: usize,
    pub fault: Fault,
}

// A number of a line, by its type: up to where it goes, and which number each value is.
trait Field: TryFrom<u32, Error = TryFromIntError> + Drop {
    ghost number: { Self → ℕ };

    ghost LIMIT: { ℕ };

    const LIMIT: u32;

    // A `u32` holds each of them.
    ghost narrow: { LIMIT ≤ 4294967295 };

    // A number up to the limit becomes the value that is it, and one above becomes none.
    ghost keeps: { (n : ℕ) (r : Result Self TryFromIntError) → Self.TryFrom.try_from_gives n r → option_map number (result_ok r) ≡ within LIMIT n };
}

// Three impls, since a trait of the library says of no type what its largest number is.
impl Field for u8 {
    ghost number = { λ n. n };

    ghost LIMIT = { 255 };

    ghost narrow = { lit≤ tt };

    const LIMIT: u32 = u8::MAX as u32;

    ghost keeps = { λ n r h. Prim.grind (arith, nat_tests) };
}

impl Field for u16 {
    ghost number = { λ n. n };

    ghost LIMIT = { 65535 };

    ghost narrow = { lit≤ tt };

    const LIMIT: u32 = u16::MAX as u32;

    ghost keeps = { λ n r h. Prim.grind (arith, nat_tests) };
}

impl Field for u32 {
    ghost number = { λ n. n };

    ghost LIMIT = { 4294967295 };

    ghost narrow = { lit≤ tt };

    const LIMIT: u32 = u32::MAX;

    ghost keeps = { λ n r h. Prim.grind (arith, nat_tests) };
}

// A word of a line, and how many bytes stand before it.
#[derive(Clone, Copy)]
struct Word<'a> {
    before: usize,
    bytes: &'a [u8],
}

// The words of a line from a place on.
#[derive(Drop)]
struct Words<'a> {
    text: &'a [u8],
    at: usize,
    ghost inside: { at ≤ length text.now },
}

fn is_blank(byte: u8) -> bool
    ensures { result ≡ is_blank byte }
{
    matches!(byte, b' ' | b'\t' | b'\r')
}

// A '#' and a newline are no blanks and in no word: they end the line.
fn is_in_word(byte: u8) -> bool
    ensures { result ≡ is_in_word byte }
{
    !is_blank(byte) && !matches!(byte, b'#' | b'\n')
}

// How many blanks stand at the front. This and `word_len` stay two: one function over the test would be told at each call, for the proof, what the test decides.
fn blanks(bytes: &[u8]) -> usize
    ensures value { result ≡ prefix_len is_blank bytes.now }
    ensures bound { result ≤ length bytes.now }
{
    bytes.iter().take_while(|b| is_blank(**b)).count()
}

// How long the word at the front is.
fn word_len(bytes: &[u8]) -> usize
    ensures value { result ≡ prefix_len is_in_word bytes.now }
    ensures bound { result ≤ length bytes.now }
{
    bytes.iter().take_while(|b| is_in_word(**b)).count()
}

// The number with one more digit, if the byte is one and a `u32` holds it.
fn onto(value: u32, byte: u8) -> Option<u32>
    ensures { result ≡ digit_onto 4294967295 value byte }
{
    let digit = char::from(byte).to_digit(10)?;
    value.checked_mul(10)?.checked_add(digit)
}

// The number that the word writes in decimal, if it is one and its type holds it.
fn decimal<N: Field>(word: &[u8]) -> Option<N>
    ensures { option_map N.number result ≡ digits N.LIMIT word.now 0 }
{
    let mut value = 0;
    for b in word {
        value = onto(value, *b)?;
    }
    N::try_from(value).ok()
}

impl<'a> Words<'a> {
    // The next word. Where there is none, the words then stand where the line ends.
    #[tactic(auto, unfolding(crate::specs::Lines::begin, crate::specs::Lines::past_word, crate::specs::Lines::word_at))]
    fn word(&mut self) -> Option<Word<'a>>
        ensures text { self.new.text.now ≡ self.old.text.now }
        ensures at { self.new.at ≡ past_word self.old.text.now self.old.at }
        ensures word { option_map (λ (w : Word). (w.before, w.bytes.now)) result ≡ word_at self.old.text.now self.old.at }
        ensures ended { result ≡ None → self.new.at ≡ begin self.old.text.now self.old.at }
    {
        let before = self.at + blanks(&self.text[self.at..]);
        self.at = before + word_len(&self.text[before..]);
        let bytes = &self.text[before..self.at];
        if bytes.is_empty() {
            None
        } else {
            Some(Word { before, bytes })
        }
    }

    // The number that stands next.
    #[tactic(auto, unfolding(crate::specs::Lines::number_at))]
    fn number<N: Field>(&mut self) -> Result<N, Mistake>
        ensures text { self.new.text.now ≡ self.old.text.now }
        ensures value { with_place (result_map_both N.number (λ m. m) result) self.new.at ≡ number_at N.LIMIT self.old.text.now self.old.at }
    {
        let Some(word) = self.word() else {
            return Err(Mistake {
                before: self.at,
                fault: Fault::Missing(N::LIMIT),
            });
        };
        decimal(word.bytes).ok_or(Mistake {
            before: word.before,
            fault: Fault::NoNumber(N::LIMIT),
        })
    }

    // The activity whose number and parameter stand next.
    #[tactic(auto, unfolding(crate::specs::Lines::activity_at))]
    fn activity(&mut self) -> Result<Activity, Mistake>
        ensures text { self.new.text.now ≡ self.old.text.now }
        ensures value { with_place result self.new.at ≡ activity_at self.old.text.now self.old.at }
    {
        let number = self.number()?;
        let parameter = self.number()?;
        Ok(Activity { number, parameter })
    }

    // What the line with this first word asks for, by the numbers that it needs.
    #[tactic(auto, using(crate::proofs::FirstWords::first_words), unfolding(crate::specs::Lines::asked_at))]
    fn line(&mut self, first: Word<'_>) -> Result<Line, Mistake>
        ensures text { self.new.text.now ≡ self.old.text.now }
        ensures value { with_place result self.new.at ≡ asked_at first.entry.before first.entry.bytes.now self.old.text.now self.old.at }
    {
        match first.bytes {
            b"perform" => Ok(Line::Perform(self.activity()?)),
            b"take-back" => Ok(Line::TakeBack(self.activity()?, self.number()?)),
            b"conflict" => Ok(Line::Conflict(self.number()?, self.number()?)),
            b"kinds" => Ok(Line::Kinds(self.number()?)),
            b"state" => Ok(Line::State),
            _ => Err(Mistake {
                before: first.before,
                fault: Fault::Unknown,
            }),
        }
    }

    // The line that was read, if nothing follows.
    #[tactic(auto, unfolding(crate::specs::Lines::end_at))]
    fn end(mut self, line: Line) -> Result<Line, Mistake>
        ensures { result ≡ end_at self.entry.text.now self.entry.at line }
    {
        match self.word() {
            Some(word) => Err(Mistake {
                before: word.before,
                fault: Fault::Extra,
            }),
            None => Ok(line),
        }
    }
}

// What the line asks for, or the first thing that is wrong with it.
pub fn read(text: &[u8]) -> Result<Line, Mistake>
    ensures { result ≡ reading text.now }
{
    let mut words = Words { text, at: 0 };
    match words.word() {
        Some(first) => {
            let line = words.line(first)?;
            words.end(line)
        }
        None => Ok(Line::Blank),
    }
}

impl fmt::Display for Line {
    fn fmt<W: fmt::Write>(&self, f: &mut fmt::Formatter<W>) -> fmt::Result {
        match self {
            Line::Blank => Ok(()),
            Line::Perform(Activity { number, parameter }) => {
                write!(f, "perform {number} {parameter}")
            }
            Line::TakeBack(Activity { number, parameter }, answer) => {
                write!(f, "take-back {number} {parameter} {answer}")
            }
            Line::Conflict(a, b) => write!(f, "conflict {a} {b}"),
            Line::Kinds(number) => write!(f, "kinds {number}"),
            Line::State => write!(f, "state"),
        }
    }
}

impl fmt::Display for Fault {
    fn fmt<W: fmt::Write>(&self, f: &mut fmt::Formatter<W>) -> fmt::Result {
        match self {
            Fault::Unknown => write!(f, "no line begins with this word"),
            Fault::Missing(limit) => write!(f, "a number from 0 to {limit} is missing"),
            Fault::NoNumber(limit) => write!(f, "this is not a number from 0 to {limit}"),
            Fault::Extra => write!(f, "the line should end here"),
        }
    }
}

impl fmt::Display for Mistake {
    fn fmt<W: fmt::Write>(&self, f: &mut fmt::Formatter<W>) -> fmt::Result {
        let column = self.before.saturating_add(1);
        let fault = self.fault;
        write!(f, "column {column}: {fault}")
    }
}

impl Error for Mistake {}
