//! The type-test room's program: reads calls from standard input, one to a line, and writes an
//! answer line for each.
#![tactic(auto)]

use desk::Desk;
use std::io;
use std::io::{BufRead, BufReader, BufWriter, Write};

// As `bench` but for who answers: the loop over lines is all there is, and a closure would hide what is kept.
fn main(rt: HostRuntime) -> io::Result<()> {
    let heap = rt.alloc();
    let mut input = BufReader::new(heap, rt.stdin())?;
    let mut output = BufWriter::new(heap, rt.stdout())?;
    let mut desk = Desk::new(heap);
    let mut line = Vec::new(heap);
    for _ in 0..u64::MAX {
        line.clear();
        if input.read_until(b'\n', &mut line)? == 0 {
            break;
        }
        if let Some(mut answer) = desk.reply(heap, line.as_slice())? {
            answer.push(b'\n')?;
            output.write_all(answer.as_slice())?;
            // A test room waits for each answer before it makes the next call.
            output.flush()?;
        }
    }
    Ok(())
}
