// A program as an indented tree.
use arrayvec::ArrayVec;
use program::{Command, Program, Step};
use std::io;

// How many brackets a program has open at once, at most.
const DEPTH: usize = 4;

pub fn show(rt: &impl Print, program: &Program) -> io::Result<()> {
    let mut walk = Walk::new();
    for &command in program.commands() {
        walk.show_command(rt, command)?;
    }
    if walk.ordinal == 0 {
        println!(rt; "  no steps")?;
    }
    Ok(())
}

// The ordinal of the next step, and the alternative that each open bracket is in, the innermost last.
// It takes no memory, so that a tree once begun is shown to its end.
#[derive(Drop)]
struct Walk {
    ordinal: usize,
    alternatives: ArrayVec<usize, DEPTH>,
}

impl Walk {
    fn new() -> Walk {
        Walk {
            ordinal: 0,
            alternatives: ArrayVec::new(),
        }
    }

    // How far what stands in the open brackets is indented.
    fn indent(&self) -> usize {
        self.alternatives.len().saturating_mul(4).saturating_add(2)
    }

    fn show_command(&mut self, rt: &impl Print, command: Command) -> io::Result<()> {
        if let Some(step) = command.step() {
            return self.show_step(rt, step);
        }
        match command {
            Command::Open => self.show_alternative(rt, 0)?,
            Command::Bar => {
                let last = self.alternatives.pop().unwrap_or(0);
                self.show_alternative(rt, last.saturating_add(1))?;
            }
            Command::Close => {
                self.alternatives.pop();
            }
            _ => {}
        }
        Ok(())
    }

    fn show_step(&mut self, rt: &impl Print, step: Step) -> io::Result<()> {
        let indent = self.indent();
        let ordinal = self.ordinal;
        self.ordinal = ordinal.saturating_add(1);
        println!(rt; "{:indent$}step {ordinal}: {step}", "")
    }

    // Goes into an alternative of the bracket that opened last.
    fn show_alternative(&mut self, rt: &impl Print, alternative: usize) -> io::Result<()> {
        let indent = self.indent();
        println!(rt; "{:indent$}  alternative {alternative}:", "")?;
        // no program opens a bracket more
        let _full = self.alternatives.try_push(alternative);
        Ok(())
    }
}
