//! A list of steps is a graph. Node 0 is the only start, and the one promise is missing nowhere, so that a survey visits all that is reached.
ghost use Rattle.std.specs.Prelude.{◌≡◌};
ghost use Rattle.search_bench.specs.Meanings.{pick, meant};
ghost use Rattle.search_bench.specs.Limits.{listed_formed};

use crate::listed::Listed;
use search::{Graph, Step};

/// The node that stands at a place of the list.
fn look(targets: &[u32], nodes: u32, place: usize) -> Option<u32>
    ensures { result ≡ pick targets.now nodes place }
{
    if place < targets.len() {
        let target = targets[place];
        if target < nodes {
            return Some(target);
        }
    }
    None
}

impl<'a> Graph for Listed<'a> {
    type Told = u32;

    ghost graph = { meant };

    ghost formed = { λ l. listed_formed l.targets.now l.nodes l.degree l.few l.narrow };

    ghost told = { λ _ _ index. index };

    fn nodes(&self) -> u32 {
        self.nodes
    }

    fn promises(&self) -> u32 {
        1
    }

    fn is_start(&self, node: u32) -> bool {
        node == 0 && node < self.nodes
    }

    fn step(&self, node: u32, from: u32) -> Option<Step> {
        let targets = self.targets;
        let nodes = self.nodes;
        let degree = self.degree;
        for index in from..degree {
            let place = node as usize * degree as usize + index as usize;
            if let Some(target) = look(targets, nodes, place) {
                return Some(Step { index, target });
            }
        }
        None
    }

    fn missing(&self, _node: u32) -> u32 {
        0
    }

    fn tell(&self, _node: u32, index: u32) -> u32 {
        index
    }
}
