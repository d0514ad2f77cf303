// Going through a program: what stands next at a place, where it leads, and the steps in the order of the text.
ghost use Rattle.std.specs.Prelude.{◌≡◌, ℕ, ◌+◌, ◌<◌, ◌≤◌, length, drop, Some};
ghost use Rattle.program.specs.Grammar.{body_steps, text_commands};
ghost use Rattle.program.specs.Positions.{outer, next as what_comes, coming, onward as led_on, alternative_of, into as gone_into};
ghost use Rattle.program.specs.Places.{Found, program_commands, tree, position, nth, first, begun, item_for, row_mark, starts_row, skip, Deeper, steps_among, steps_before, left_at, all_left, left_after, left_into, Spells};

use crate::cursor::Choices;
use crate::{Command, Cursor, Kind, Program, Step};

impl Cursor {
    // The beginning of any program.
    pub fn start() -> Cursor
        ensures place { (p : Program) → position p result ≡ outer (tree p) }
        ensures left { (p : Program) → left_at p result ≡ all_left p }
    {
        Cursor {
            at: 0,
            choices: None,
        }
    }

    // The ordinal, from 0, of the alternative taken at the last pivot; 0 before any pivot.
    pub fn alternative(self) -> u32
        ensures is { (p : Program) → result ≡ alternative_of (position p self) }
        ensures low { result ≤ 254 }
    {
        self.choices.map_or(0, |choices| choices.alternative)
    }
}

// How many brackets are open after a command, of `depth` before it; none after a bar outside of all of them.
fn depth_after(command: Command, depth: usize) -> Option<usize>
    requires { depth < usize.MAX }
    ensures { Deeper command depth result }
{
    match command {
        Command::Open => Some(depth + 1),
        Command::Close => Some(depth.saturating_sub(1)),
        Command::Bar if depth == 0 => None,
        _ => Some(depth),
    }
}

// The step that a command is to a process, inside choices or not: a retriable step stands only inside.
fn step_for(command: Command, choices: Option<Choices>) -> Option<Step>
    ensures { result ≡ item_for command (begun choices) }
{
    command
        .step()
        .filter(|step| step.kind != Kind::Retriable || choices.is_some())
}

// Whether a row of retriable steps begins here; with no command left, an empty one does.
fn starts_row(text: &[Command]) -> bool
    ensures { result ≡ starts_row text.now }
{
    matches!(text.first(), None | Some(Command::R(_) | Command::Close))
}

// What follows the first bar outside of brackets; where there is none, nothing.
fn past_bar(text: &[Command]) -> &[Command]
    ensures { result.now ≡ skip 0 text.now }
{
    let mut depth = 0;
    for (place, &command) in text.iter().enumerate() {
        match depth_after(command, depth) {
            None => return &text[place + 1..],
            Some(inside) => depth = inside,
        }
    }
    &[]
}

impl Program {
    // The commands of the text.
    pub fn commands(&self) -> &[Command]
        ensures text { result.now ≡ text_commands (tree self.now) }
        ensures table { result.now ≡ program_commands self.now }
    {
        &self.commands[..self.len]
    }

    // The command at a place, from 0, of the text.
    pub fn command(&self, at: usize) -> Option<Command>
        ensures there { result ≡ nth (text_commands (tree self.now)) at }
        ensures first { result ≡ first (drop at (program_commands self.now)) }
    {
        self.commands().get(at).copied()
    }

    // The step that stands next at a cursor.
    pub fn next(&self, cursor: Cursor) -> Option<Step>
        ensures { result ≡ coming (what_comes (position self.now cursor)) }
    {
        let command = self.command(cursor.at)?;
        step_for(command, cursor.choices)
    }

    // The cursor after the step that is next, a pivot's leading into alternative 0; with nothing next, the same.
    pub fn onward(&self, cursor: Cursor) -> Cursor
        ensures place { position self.now result ≡ led_on (position self.now cursor) }
        ensures left { left_at self.now result ≡ left_after (coming (what_comes (position self.now cursor))) (left_at self.now cursor) }
    {
        let Some(step) = self.next(cursor) else {
            return cursor;
        };
        match step.kind {
            Kind::Pivot => {
                let from = cursor.at + 2;
                Cursor {
                    at: from,
                    choices: Some(Choices {
                        from,
                        alternative: 0,
                    }),
                }
            }
            _ => Cursor {
                at: cursor.at + 1,
                ..cursor
            },
        }
    }

    // Where alternative `k` of the choices from an index on begins, and its ordinal; past the last one the last.
    fn alternative_at(&self, from: usize, k: u32) -> (usize, u32)
        requires { 2 ≤ from }
        ensures { Found self.now from k result.0 result.1 }
    {
        let commands = self.commands();
        let mut rest = &commands[from.min(commands.len())..];
        let mut alternative = 0;
        // It counts: the ordinal is the answer, and no index into the text.
        while alternative < k && !starts_row(rest) {
            rest = past_bar(rest);
            alternative += 1;
        }
        (from.max(commands.len() - rest.len()), alternative)
    }

    // The beginning of alternative `k` of the last pivot; past the last alternative, of that. Before any pivot, the same.
    pub fn into_alternative(&self, cursor: Cursor, k: u32) -> Cursor
        ensures place { position self.now result ≡ gone_into k (position self.now cursor) }
        ensures left { left_at self.now result ≡ left_into k (left_at self.now cursor) }
    {
        let Some(Choices { from, .. }) = cursor.choices else {
            return cursor;
        };
        let (at, alternative) = self.alternative_at(from, k);
        Cursor {
            at,
            choices: Some(Choices { from, alternative }),
        }
    }

    // The beginning of the alternative after the cursor's.
    pub fn next_alternative(&self, cursor: Cursor) -> Cursor
        ensures place { position self.now result ≡ gone_into (alternative_of (position self.now cursor) + 1) (position self.now cursor) }
        ensures left { left_at self.now result ≡ left_into (alternative_of (position self.now cursor) + 1) (left_at self.now cursor) }
    {
        let k = cursor.alternative() + 1;
        self.into_alternative(cursor, k)
    }

    // The step with an ordinal, from 0, in the text.
    pub fn step(&self, ordinal: usize) -> Option<Step>
        ensures { result ≡ nth (body_steps (tree self.now)) ordinal }
    {
        self.commands()
            .iter()
            .filter_map(|command| command.step())
            .nth(ordinal)
    }

    // How many steps of the text stand before a cursor: the ordinal of the step that is next there.
    pub fn ordinal(&self, cursor: Cursor) -> usize
        ensures count { result ≡ steps_before self.now cursor }
        ensures left { result + length (steps_among (left_at self.now cursor).here) ≡ length (body_steps (tree self.now)) }
        ensures names { (s : Step) → coming (what_comes (position self.now cursor)) ≡ Some s → nth (body_steps (tree self.now)) result ≡ Some s }
    {
        let commands = self.commands();
        let before = &commands[..cursor.at.min(commands.len())];
        // A loop by hand: the compiler counts several commands at once here, which it doesn't do for `count` behind a filter.
        let mut steps = 0;
        for command in before {
            if command.is_step() {
                steps += 1;
            }
        }
        steps
    }
}

// The commands of every program are those of the text of its tree.
pub fn programs_spell_their_trees()
    ensures { Spells }
{}
