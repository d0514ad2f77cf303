// textcheck: reads program texts in the written notation, one to a line, and says of each what it is:
// the program as a tree, or the refusal with its number, its place and why.
#![tactic(auto)]

mod help;
mod lines;
mod tree;

use std::env;
use std::io::{BufRead, BufReader, Read};
use std::rt::Env;

// Reads to the end of the input. A line need not be UTF-8, and the last one need not end in a line feed.
fn run(rt: &(impl Env + Print + AllocGlobal), input: impl Read + Drop) -> anyhow::Result<()> {
    if let Some(word) = env::args(rt)?.nth(1) {
        if word.as_str() != "--help" {
            println!(rt; "textcheck takes no argument but --help, and this is not it: {word}")?;
        }
        help::show(rt)?;
        return Ok(());
    }
    let mut input = BufReader::new(rt.alloc(), input)?;
    // one buffer for all lines: `split` would make one for each, which takes more time, and more memory where lines grow
    let mut buffer = Vec::new(rt.alloc());
    for number in 1..u64::MAX {
        buffer.clear();
        if input.read_until(b'\n', &mut buffer)? == 0 {
            break;
        }
        let line = buffer.as_slice();
        let line = line.strip_suffix(b"\n").unwrap_or(line);
        lines::show(rt, number, line.strip_suffix(b"\r").unwrap_or(line))?;
    }
    Ok(())
}

fn main(rt: HostRuntime) -> anyhow::Result<()> {
    run(&rt, rt.stdin())
}
