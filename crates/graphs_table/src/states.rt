//! Calls to the states of the nodes of a graph, all of which are active at first.
//!
//! - `nodes COUNT`: so many nodes more; how many there are then.
//! - `include NODE NODES`: whether the one may include the others, as an active one may.
//! - `note`: notes of all nodes what they reach, those behind others first, and forgets the notes.
//! - `would NODE`: whether it would be final, if it were retired.
//! - `retire NODE`: what is newly final then.
//! - `states`: the state of each node, as `a`, `z` (finalizing) or `f`.
use crate::numbers::{Answers, Stop, are_below, count_text, list_text, number, numbers, two, word};
use finaliser::Finaliser;
use inclusion_graph::EdgeFault;
use std::alloc::Global;

impl Answers for Finaliser {
    fn answer(&mut self, alloc: Global, kind: &str, rest: &str) -> Result<Vec<u8>, Stop> {
        match kind {
            "nodes" => nodes(alloc, self, rest),
            "include" => include(alloc, self, rest),
            "note" => note(alloc, self),
            "would" => would(alloc, self, rest),
            "retire" => retire(alloc, self, rest),
            "states" => states(alloc, self),
            _ => Err(Stop::Odd),
        }
    }
}

fn nodes(alloc: Global, finaliser: &mut Finaliser, count: &str) -> Result<Vec<u8>, Stop> {
    for _ in 0..number(count)? {
        finaliser.reserve(alloc)?;
        let _ = finaliser.add_active();
    }
    count_text(alloc, finaliser.graph().nodes() as usize, "")
}

fn include(alloc: Global, finaliser: &mut Finaliser, words: &str) -> Result<Vec<u8>, Stop> {
    let (from, targets) = two(words)?;
    let from = number(from)?;
    let targets = numbers(alloc, targets)?;
    let nodes = finaliser.graph().nodes();
    if from >= nodes || !are_below(nodes, targets.as_slice()) {
        return Err(Stop::Odd);
    }
    if !finaliser.is_active(from) {
        return word(alloc, "not active");
    }
    match finaliser.prepare_edges(alloc, from, targets.as_slice()) {
        Ok(plan) => {
            finaliser.add_edges(plan);
            word(alloc, "yes")
        }
        Err(EdgeFault::Memory) => Err(Stop::Memory),
        Err(EdgeFault::Itself { .. } | EdgeFault::Full { .. }) => word(alloc, "no"),
    }
}

fn note(alloc: Global, finaliser: &mut Finaliser) -> Result<Vec<u8>, Stop> {
    for node in (0..finaliser.graph().nodes()).rev() {
        if node < finaliser.graph().nodes() {
            finaliser.note(node);
        }
    }
    finaliser.clear_notes();
    word(alloc, "done")
}

fn would(alloc: Global, finaliser: &mut Finaliser, node: &str) -> Result<Vec<u8>, Stop> {
    let node = number(node)?;
    if node >= finaliser.graph().nodes() {
        return Err(Stop::Odd);
    }
    if !finaliser.is_active(node) {
        return word(alloc, "not active");
    }
    let answer = finaliser.would_be_final(node);
    word(alloc, if answer { "yes" } else { "no" })
}

fn retire(alloc: Global, finaliser: &mut Finaliser, node: &str) -> Result<Vec<u8>, Stop> {
    let node = number(node)?;
    if node >= finaliser.graph().nodes() {
        return Err(Stop::Odd);
    }
    if !finaliser.is_active(node) {
        return word(alloc, "not active");
    }
    finaliser.retire(node);
    let finals = list_text(alloc, finaliser.finals())?;
    finaliser.clear_finals();
    Ok(finals)
}

fn states(alloc: Global, finaliser: &Finaliser) -> Result<Vec<u8>, Stop> {
    let mut out = Vec::new(alloc);
    for node in 0..finaliser.graph().nodes() {
        if node >= finaliser.graph().nodes() {
            return Err(Stop::Odd);
        }
        let letter = match (finaliser.is_active(node), finaliser.is_final(node)) {
            (true, _) => b'a',
            (false, true) => b'f',
            (false, false) => b'z',
        };
        out.push(letter)?;
    }
    Ok(out)
}
