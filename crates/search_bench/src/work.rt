//! The graphs, and what is measured.
ghost use Rattle.std.specs.Prelude.{◌≤◌};

use crate::listed::Listed;
use anyhow::anyhow;
use search::{Frame, Lists, Root, Slot, survey};
use std::alloc::{AllocError, Global};
use std::time::Instant;

/// How often a graph is searched; the best time counts.
const RUNS: u32 = 15;

/// The longest time that is told, in nanoseconds.
const LONGEST: u64 = 1_000_000_000_000;

/// The memory of a search.
#[derive(Drop)]
struct Memory {
    marks: Vec<u8>,
    slots: Vec<Slot>,
    trail: Vec<Frame>,
    roots: Vec<Root>,
}

impl Memory {
    fn new(heap: Global, nodes: usize) -> Result<Memory, AllocError> {
        Ok(Memory {
            marks: vec![in heap; 0u8; nodes]?,
            slots: vec![in heap; Slot::default(); nodes]?,
            trail: vec![in heap; Frame::default(); nodes]?,
            roots: vec![in heap; Root::default(); nodes]?,
        })
    }

    fn search(&mut self, graph: &Listed) -> anyhow::Result<()> {
        let lists = Lists {
            marks: self.marks.as_mut_slice(),
            slots: self.slots.as_mut_slice(),
            trail: self.trail.as_mut_slice(),
            roots: self.roots.as_mut_slice(),
        };
        survey(graph, lists).map_err(|_| anyhow!("a list is too short"))?;
        Ok(())
    }

    /// How many marks are at least `mark`.
    fn count(&self, mark: u8) -> usize {
        self.marks.iter().filter(|m| **m >= mark).count()
    }
}

/// Random numbers below `range`.
fn scatter(heap: Global, count: usize, range: u32) -> Result<Vec<u32>, AllocError> {
    let mut numbers = vec![in heap; 0u32; count]?;
    let mut state = 1u64;
    for number in numbers.as_mut_slice() {
        state = state
            .wrapping_mul(6364136223846793005)
            .wrapping_add(1442695040888963407);
        *number = ((state >> 33) % u64::from(range.max(1))) as u32;
    }
    Ok(numbers)
}

/// How many of the numbers are nodes.
fn count_steps(targets: &[u32], nodes: u32) -> usize {
    targets.iter().filter(|target| **target < nodes).count()
}

/// 50 nodes with two steps each, of which a third is missing.
pub(crate) fn show_small(rt: &HostRuntime) -> anyhow::Result<()> {
    let heap = rt.alloc();
    let targets = scatter(heap, 100, 75)?;
    let mut memory = Memory::new(heap, 50)?;
    memory.search(&Listed {
        targets: targets.as_slice(),
        nodes: 50,
        degree: 2,
    })?;
    let steps = count_steps(targets.as_slice(), 50);
    let reached = memory.count(1);
    let able = memory.count(2);
    println!(rt; "nodes 50 steps {steps} reached {reached} return {able}")?;
    Ok(())
}

/// A time in nanoseconds, or `LONGEST` where it is longer.
fn capped(nanos: u128) -> u64
    ensures { result ≤ 1000000000000 }
{
    nanos.min(u128::from(LONGEST)) as u64
}

/// The shortest time of some searches, in nanoseconds.
fn best_time(rt: &HostRuntime, graph: &Listed, memory: &mut Memory) -> anyhow::Result<u64> {
    let mut best = LONGEST;
    for _ in 0..RUNS {
        let start = Instant::now(rt)?;
        memory.search(graph)?;
        best = best.min(capped(start.elapsed(rt)?.as_nanos()));
    }
    Ok(best)
}

/// A random graph of so many nodes with four steps each.
pub(crate) fn time_random(rt: &HostRuntime, nodes: u32) -> anyhow::Result<()> {
    if nodes == 0 || nodes > 1_048_576 {
        return Err(anyhow!("the number of nodes is from 1 to 1048576"));
    }
    let heap = rt.alloc();
    let steps = nodes as usize * 4;
    let targets = scatter(heap, steps, nodes)?;
    let mut memory = Memory::new(heap, nodes as usize)?;
    let graph = Listed {
        targets: targets.as_slice(),
        nodes,
        degree: 4,
    };
    let best = best_time(rt, &graph, &mut memory)?;
    let reached = memory.count(1);
    let pico = best.min(LONGEST) * 1000 / steps as u64;
    let whole = pico / 1000;
    let part = pico % 1000;
    println!(rt; "nodes {nodes} steps {steps} reached {reached} ns {whole}.{part:03}")?;
    Ok(())
}
