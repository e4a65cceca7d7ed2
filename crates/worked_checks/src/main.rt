//! worked_checks: worked examples of the check, and a free dialogue. Each is built as a pile at run time, checked, and its verdict printed.
#![tactic(auto)]

mod dialogues_of;
mod lists;

use checker::needs;
use dialogues_of::{cut_off, file_of, returning, two_states};
use lists::Memory;
use piles::pile::Pile;
use rules::read;
use rules::rule::Rule;
use std::alloc::Global;

/// Number of the event of the return key.
const RETURN: usize = 3;

fn main(rt: HostRuntime) -> anyhow::Result<()> {
    run(&rt)
}

fn run(rt: &HostRuntime) -> anyhow::Result<()> {
    let heap = rt.alloc();
    let after_a = "G(a->Fb)";
    let often_b = "GFb";
    let nine = "GGGGGGGGGa";
    show(rt, "two states", Pile::drawn(heap, two_states())?, after_a)?;
    show(rt, "with Return", Pile::drawn(heap, returning())?, after_a)?;
    show(rt, "Return barred", barred(heap)?, after_a)?;
    show(rt, "Adult cut", Pile::drawn(heap, cut_off())?, after_a)?;
    show(rt, "two states twice", pair(heap)?, often_b)?;
    show(rt, "free", Pile::open(2), often_b)?;
    show(rt, "256 states", Pile::filed(file_of(heap, 256)?), nine)?;
    show(rt, "257 states", Pile::filed(file_of(heap, 257)?), nine)?;
    Ok(())
}

fn barred(heap: Global) -> anyhow::Result<Pile> {
    Ok(Pile::bar(heap, RETURN, Pile::drawn(heap, returning())?)?)
}

fn pair(heap: Global) -> anyhow::Result<Pile> {
    let left = Pile::drawn(heap, two_states())?;
    let right = Pile::drawn(heap, two_states())?;
    Ok(Pile::pair(heap, left, right)?)
}

/// Reads a rule, checks it against a dialogue, and prints the verdict, or the refusal as cause, place and layer.
fn show(rt: &HostRuntime, name: &str, pile: Pile, text: &str) -> anyhow::Result<()> {
    match read(text.as_bytes()) {
        Ok(rule) => show_check(rt, name, &pile, &rule, text),
        Err(fault) => Ok(println!(rt; "{name}, {text}: refused, {fault}")?),
    }
}

fn show_check(
    rt: &HostRuntime,
    name: &str,
    pile: &Pile,
    rule: &Rule,
    text: &str,
) -> anyhow::Result<()> {
    let needs = needs(pile, rule);
    let mut memory = Memory::new(rt.alloc(), needs)?;
    match memory.check(pile, rule) {
        Err(fault) => println!(rt; "{name}, {text}: refused, {fault}")?,
        Ok(checked) => {
            let word = if checked.broken.is_none() {
                "holds"
            } else {
                "broken"
            };
            println!(rt; "{name}, {text}: {word}, of {} nodes", needs.nodes)?;
        }
    }
    Ok(())
}
