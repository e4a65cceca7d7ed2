//! worksheet: each line of standard input is one call of the library, performed and printed with its answer.
//! docs/SPEC.md, section 16, has the lines that it knows.
#![tactic(auto)]

mod asked;
mod drawn;
mod journeys;
mod lent;
mod page;
mod sheet;
mod shown;
mod stop;
mod words;

use page::Page;
use sheet::Sheet;
use std::io::{Read, Write};

fn main(rt: HostRuntime) -> anyhow::Result<()> {
    run(&rt)
}

fn run(rt: &HostRuntime) -> anyhow::Result<()> {
    let heap = rt.alloc();
    let mut input = Vec::new(heap);
    rt.stdin().read_to_end(&mut input)?;
    let mut sheet = Sheet::new(heap);
    for line in input.as_slice().split_inclusive(|b| *b == b'\n') {
        let line = line.strip_suffix(b"\n").unwrap_or(line);
        let mut page = Page::new(heap);
        page.echo(line)?;
        sheet.perform(line, &mut page)?;
        rt.stdout().write_all(page.bytes())?;
    }
    Ok(())
}
