// The program: lines from standard input, each answered by one line (docs/TICKETS.md, "As text").
#![tactic(auto)]

mod book;
mod line;
#[cfg(test)]
mod months;
mod unanswered;

use book::YearBook;
use std::io::{BufRead, BufReader, BufWriter, Write};

// A line without the line feed, or carriage return and line feed, that ends it.
fn without_ending(line: &[u8]) -> &[u8] {
    match line {
        [rest @ .., b'\r', b'\n'] | [rest @ .., b'\n'] => rest,
        _ => line,
    }
}

fn run(rt: &HostRuntime) -> anyhow::Result<()> {
    let mut input = BufReader::new(rt.alloc(), rt.stdin())?;
    let mut book = YearBook::new(rt.alloc(), BufWriter::new(rt.alloc(), rt.stdout())?)?;
    let mut line = Vec::new(rt.alloc());
    // lines are counted for the messages; a loop on input wants a bound, and no input reaches this one
    for number in 1..u64::MAX {
        line.clear();
        if input.read_until(b'\n', &mut line)? == 0 {
            break;
        }
        book.take(number, without_ending(line.as_slice()))?;
    }
    book.out.flush()?;
    Ok(())
}

fn main(rt: HostRuntime) -> anyhow::Result<()> {
    run(&rt)
}
