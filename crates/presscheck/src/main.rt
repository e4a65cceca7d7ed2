//! presscheck: reads each line of standard input as a rule, checks it against the dialogue of the file `dialogue.bin`, and prints the
//! answer. What it prints for the bytes that it reads is `console::respond`.
#![tactic(auto)]

use console::respond;
use std::fs::File;
use std::io;
use std::io::{Read, Write};

/// How many bytes of the file, and of the input, count.
const MOST: u64 = 4096;

fn main(rt: HostRuntime) -> anyhow::Result<()> {
    run(&rt)
}

fn run(rt: &HostRuntime) -> anyhow::Result<()> {
    let heap = rt.alloc();
    let file = read_dialogue(rt).unwrap_or_else(|_| Vec::new(heap));
    let mut input = Vec::new(heap);
    rt.stdin().take(MOST).read_to_end(&mut input)?;
    let answers = respond(heap, file.as_slice(), input.as_slice())?;
    rt.stdout().write_all(answers.as_slice())?;
    Ok(())
}

/// The front of `dialogue.bin` in the working directory.
fn read_dialogue(rt: &HostRuntime) -> io::Result<Vec<u8>> {
    let file = File::open(rt, "dialogue.bin")?;
    let mut bytes = Vec::new(rt.alloc());
    file.take(MOST).read_to_end(&mut bytes)?;
    Ok(bytes)
}
