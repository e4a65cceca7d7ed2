//! search_bench: times the component search on random graphs.
#![tactic(auto)]

mod listed;
mod work;

use std::env;
use work::{show_small, time_random};

/// With no argument, one line on a small graph; with a number of nodes, one line on the time that a random graph takes.
fn main(rt: HostRuntime) -> anyhow::Result<()> {
    run(&rt)
}

fn run(rt: &HostRuntime) -> anyhow::Result<()> {
    let mut words = env::args(rt)?;
    words.next();
    match words.next() {
        None => show_small(rt),
        Some(word) => time_random(rt, word.as_str().parse::<u32>()?),
    }
}
