// The reader of program texts.
ghost use Rattle.std.specs.Prelude.{◌≡◌, ℕ, ◌≤◌, [], ◌∷◌, ◌++◌, length, take, replicate};
ghost use Rattle.program.specs.declared.command.Command.TheVariants.{Open, Close, Stop};
ghost use Rattle.program.specs.Grammar.{bytes, letter_of};
ghost use Rattle.program.specs.Contexts.{at_pivot, at_choice, closed, end_mark, after_end};
ghost use Rattle.program.specs.Outcome.{Parsed};
ghost use Rattle.program.specs.Refusals.{step_count, Within};

use crate::{Command, Fault, Kind, Program, Refusal};
use activity::Activity;

pub(crate) const MAX_BYTES: usize = 255;

const MAX_STEPS: usize = 32;

const MAX_DEPTH: usize = 4;

static BLANK: [Command; MAX_BYTES] = [Command::Stop; MAX_BYTES];

// A table with nothing in it yet: lent, since it is faster to copy it as a whole than to write it entry by entry.
pub(crate) fn blank() -> &'static [Command; MAX_BYTES]
    ensures { result.now ≡ replicate 255 Stop }
{
    &BLANK
}

// A text, the place of the next byte, and what was read up to there.
// The counters stand apart. Side by side, the compiler adds to two of them at once, and the machine waits where one was just written alone:
// with the two counters side by side reading takes a tenth to a fifth longer, as measured.
#[derive(Drop)]
struct Reader<'a> {
    steps: usize,
    text: &'a [u8],
    at: usize,
    // A table with its length: nothing here allocates, so the memory for the commands is fixed.
    commands: [Command; MAX_BYTES],
    len: usize,
    // Between two commands: the bytes up to the place are those of the commands read, which keep the limits.
    ghost split: { take at text.now ≡ bytes (take len commands) },
    ghost inside: { at ≤ length text.now },
    ghost short: { length text.now ≤ 255 },
    ghost long: { length commands ≡ 255 },
    ghost room: { len ≤ at },
    ghost count: { steps ≡ step_count (take len commands) },
    ghost within: { Within (take len commands) },
}

impl Reader<'_> {
    ghost use Rattle.program.specs.Reads.{commands_of, context, Peeked, Spelled, Pushed, Operands, MarkNext, Passed, Ready, BodyNext, StepNext, KindNext, StepsNext, Stepped, Reads, RowRead};

    // The next byte as a character, where there is one.
    fn peek(&self) -> Option<char>
        ensures { Peeked self.now result }
    {
        self.text.get(self.at).copied().map(char::from)
    }

    // The refusal at the place.
    fn refusal(&self, fault: Fault) -> Refusal
        ensures { result ≡ record { fault = fault; place = self.now.at } }
    {
        Refusal {
            fault,
            place: self.at,
        }
    }

    // Takes the command that stands at the place, and goes past it.
    fn push(&mut self, command: Command)
        requires here { Spelled self.old command }
        requires within { Within (commands_of self.old ++ command ∷ []) }
        ensures { Pushed self.old self.new command }
    {
        self.commands[self.len] = command;
        self.len += 1;
        self.at += command.width();
        self.steps += usize::from(command.is_step());
    }

    // The operands of the step command whose letter stands at the place.
    fn operands(&self) -> Result<Activity, Refusal>
        requires { (c : Command) × StepNext self.now c }
        ensures { Operands self.now result }
    {
        if self.steps == MAX_STEPS {
            return Err(self.refusal(Fault::TooManySteps));
        }
        let [_, number, high, low, ..] = &self.text[self.at..] else {
            return Err(self.refusal(Fault::CutOff));
        };
        Ok(Activity {
            number: *number,
            parameter: u16::from_be_bytes([*high, *low]),
        })
    }

    // Takes the step whose letter stands at the place.
    fn step(&mut self, kind: Kind) -> Result<(), Refusal>
        requires { KindNext self.old kind }
        ensures { Reads self.old self.new (Stepped self.old self.new kind) result }
    {
        let activity = self.operands()?;
        self.push(kind.command(activity));
        Ok(())
    }

    // The mark m, which is all that can stand at the place.
    fn expect(&mut self, m: Command) -> Result<(), Refusal>
        requires { MarkNext self.old m }
        ensures { Reads self.old self.new (Passed self.old self.new m) result }
    {
        match self.peek() {
            Some(b) if b == m.letter() => {
                self.push(m);
                Ok(())
            }
            Some(_) => Err(self.refusal(Fault::Misplaced)),
            None => Err(self.refusal(Fault::CutOff)),
        }
    }

    // The opening bracket of a pivot's choices, under `depth` open brackets.
    fn open(&mut self, depth: usize) -> Result<(), Refusal>
        requires { context self.old ≡ at_pivot depth }
        ensures { Reads self.old self.new (Passed self.old self.new Open) result }
    {
        match self.peek() {
            Some('[') if depth >= MAX_DEPTH => Err(self.refusal(Fault::TooDeep)),
            _ => self.expect(Command::Open),
        }
    }

    // A row of steps of one kind, perhaps none: the compensatable ones of a body, or the retriable ones that end a pivot's choices.
    fn row(&mut self, kind: Kind, depth: usize) -> Result<(), Refusal>
        requires { StepsNext kind self.old depth }
        ensures { Reads self.old self.new (RowRead self.new (letter_of kind) (StepsNext kind self.new depth)) result }
    {
        match kind {
            Kind::Compensatable => {
                while let Some('C') = self.peek() {
                    self.step(kind)?;
                }
            }
            Kind::Retriable => {
                while let Some('R') = self.peek() {
                    self.step(kind)?;
                }
            }
            Kind::Pivot => {}
        }
        Ok(())
    }

    // A body under `depth` open brackets, up to the mark that ends it.
    #[cycle(body_choices)]
    fn body(&mut self, depth: usize) -> Result<(), Refusal>
        requires { BodyNext self.old depth }
        ensures { Reads self.old self.new (Ready self.new (end_mark depth) (after_end depth)) result }
    {
        self.row(Kind::Compensatable, depth)?;
        match self.peek() {
            Some('P') => {
                self.step(Kind::Pivot)?;
                self.open(depth)?;
                self.choices(depth)?;
                self.expect(Command::Close)
            }
            _ => Ok(()),
        }
    }

    // The choices of a pivot under `depth` open brackets, up to the closing bracket.
    #[cycle(body_choices)]
    fn choices(&mut self, depth: usize) -> Result<(), Refusal>
        requires { context self.old ≡ at_choice depth }
        ensures { Reads self.old self.new (Ready self.new Close (closed depth)) result }
    {
        loop {
            match self.peek() {
                Some('R' | ']') => return self.row(Kind::Retriable, depth),
                _ => {
                    self.body(depth + 1)?;
                    self.expect(Command::Bar)?;
                }
            }
        }
    }
}

// Reads a text: its program, or the refusal.
pub fn parse(text: &[u8]) -> Result<Program, Refusal>
    ensures { Parsed text.now result }
{
    if text.len() > MAX_BYTES {
        return Err(Refusal {
            fault: Fault::TooLong,
            place: MAX_BYTES,
        });
    }
    let mut reader = Reader {
        steps: 0,
        text,
        at: 0,
        commands: *blank(),
        len: 0,
    };
    reader.body(0)?;
    reader.expect(Command::Stop)?;
    if reader.at < text.len() {
        return Err(reader.refusal(Fault::Trailing));
    }
    let Reader { commands, len, .. } = reader;
    Ok(Program { commands, len })
}
