// The program: lines from standard input, each answered on standard output.
#![tactic(auto)]

use console::{Printed, Session};
use std::io::{BufRead, BufReader, BufWriter, Write};

const LINE_FEED: u8 = b'\n';

const LINE_END: &[u8] = &[LINE_FEED];

fn main(rt: HostRuntime) -> anyhow::Result<()> {
    run(&rt)
}

fn run(rt: &HostRuntime) -> anyhow::Result<()> {
    let heap = rt.alloc();
    let mut input = BufReader::new(heap, rt.stdin())?;
    let mut output = BufWriter::new(heap, rt.stdout())?;
    let mut session = Session::new(heap)?;
    let mut line = Vec::new(heap);
    // Nothing says that an input ends, so its lines are counted.
    for place in 0..u64::MAX {
        // Before the program waits for a line, whoever types has the answers to the lines before it.
        if !input.buffer().contains(&LINE_FEED) {
            output.flush()?;
        }
        line.clear();
        if input.read_until(LINE_FEED, &mut line)? == 0 {
            break;
        }
        let text = line.strip_suffix(LINE_END).unwrap_or(&line);
        let answer = Printed(session.answer(text, place));
        write!(output, "{answer}")?;
    }
    output.flush()?;
    Ok(())
}
