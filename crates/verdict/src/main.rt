// Reads a procedure from the standard input and prints the verdict on each of its goals, or a refusal alone.
#![tactic(auto)]

use game::fault::Stop;
use std::io;
use std::io::Read;
use verdicts::file::judge_file;

// One word more than the longest procedure has.
const LIMIT: usize = 16388;

// Fills the buffer from the start as far as the input goes, and tells how far. Each read is offered all the room that is left: an input
// may come in packets, and a read that is shorter than a packet loses the rest of it, as `read_to_end` would, which begins with 512
// bytes. Each read gives a byte at least, so as many reads as there are bytes are enough.
fn fill<R: Read>(input: &mut R, buffer: &mut [u8]) -> io::Result<usize> {
    let mut filled = 0;
    for _ in 0..buffer.len() {
        if filled >= buffer.len() {
            break;
        }
        let got = input.read(&mut buffer[filled..])?;
        if got == 0 {
            break;
        }
        filled = filled.saturating_add(got).min(buffer.len());
    }
    Ok(filled)
}

fn main(rt: HostRuntime) -> anyhow::Result<()> {
    let mut bytes = vec![in rt.alloc(); 0u8; LIMIT]?;
    let length = fill(&mut rt.stdin(), &mut bytes)?;
    bytes.truncate(length);
    match judge_file(rt.alloc(), &bytes) {
        Ok(lines) => {
            for line in &lines {
                println!(&rt; "{line}")?;
            }
            Ok(())
        }
        Err(Stop::Refused(fault)) => Ok(println!(&rt; "{fault}")?),
        Err(Stop::Memory) => Err(Stop::Memory.into()),
    }
}
