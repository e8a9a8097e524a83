//! Calls to a graph.
//!
//! - `nodes COUNT`: so many nodes more; how many there are then.
//! - `room COUNT`: room for so many edges more.
//! - `add NODE NODES`: edges from the one to the others; how many are new, behind them `, an empty
//!   plan` where it was one, or why none is added.
//! - `all`: edges from each node but the last to all others; how many edges there are then.
//! - `targets NODE`, `sources NODE`: these nodes, in order of arrival.
//! - `edge NODE K`: the node's target at this place, from 0 on.
//! - `reach NODES`: what is reached from them.
//! - `walk NODE NODE`: whether there is one.
//! - `walks`: from how many nodes to how many there is one, each of which is looked at.
use crate::numbers::{Answers, Stop, are_below, count_text, list_text, number, numbers, two, word};
use inclusion_graph::{Edge, EdgeFault, Graph};
use std::alloc::Global;

impl Answers for Graph {
    fn answer(&mut self, alloc: Global, kind: &str, rest: &str) -> Result<Vec<u8>, Stop> {
        match kind {
            "nodes" => nodes(alloc, self, rest),
            "room" => room(alloc, self, rest),
            "add" => add(alloc, self, rest),
            "all" => all(alloc, self),
            "targets" => targets(alloc, self, rest),
            "sources" => sources(alloc, self, rest),
            "edge" => edge(alloc, self, rest),
            "reach" => reach(alloc, self, rest),
            "walk" => walk(alloc, self, rest),
            "walks" => walks(alloc, self),
            _ => Err(Stop::Odd),
        }
    }
}

fn nodes(alloc: Global, graph: &mut Graph, count: &str) -> Result<Vec<u8>, Stop> {
    for _ in 0..number(count)? {
        graph.reserve(alloc, 1, 0)?;
        let _ = graph.add_node();
    }
    count_text(alloc, graph.nodes() as usize, "")
}

fn room(alloc: Global, graph: &mut Graph, count: &str) -> Result<Vec<u8>, Stop> {
    graph.reserve(alloc, 0, number(count)?)?;
    word(alloc, "made")
}

/// Adds edges: how many are new, and whether the plan was empty.
fn add_edges(
    alloc: Global,
    graph: &mut Graph,
    from: u32,
    targets: &[u32],
) -> Result<Result<(usize, bool), EdgeFault>, Stop> {
    let nodes = graph.nodes();
    if from >= nodes || !are_below(nodes, targets) {
        return Err(Stop::Odd);
    }
    let before = graph.edges().len();
    let plan = match graph.prepare_edges(alloc, from, targets) {
        Ok(plan) => plan,
        Err(fault) => return Ok(Err(fault)),
    };
    let is_empty = plan.is_empty();
    graph.add_edges(plan);
    let added = graph.edges().len().saturating_sub(before);
    Ok(Ok((added, is_empty)))
}

fn add(alloc: Global, graph: &mut Graph, words: &str) -> Result<Vec<u8>, Stop> {
    let (from, targets) = two(words)?;
    let targets = numbers(alloc, targets)?;
    match add_edges(alloc, graph, number(from)?, targets.as_slice())? {
        Ok((added, false)) => count_text(alloc, added, ""),
        Ok((added, true)) => count_text(alloc, added, ", an empty plan"),
        Err(EdgeFault::Itself { at }) => count_text(alloc, at, " is the node itself"),
        Err(EdgeFault::Full { count }) => count_text(alloc, count as usize, " are the most"),
        Err(EdgeFault::Memory) => Err(Stop::Memory),
    }
}

fn all(alloc: Global, graph: &mut Graph) -> Result<Vec<u8>, Stop> {
    let nodes = graph.nodes();
    for from in 0..nodes.saturating_sub(1) {
        let mut targets = Vec::new(alloc);
        for target in 0..nodes {
            if target != from {
                targets.push(target)?;
            }
        }
        if let Err(EdgeFault::Memory) = add_edges(alloc, graph, from, targets.as_slice())? {
            return Err(Stop::Memory);
        }
    }
    count_text(alloc, graph.edges().len(), "")
}

fn targets(alloc: Global, graph: &Graph, node: &str) -> Result<Vec<u8>, Stop> {
    let node = number(node)?;
    if node >= graph.nodes() {
        return Err(Stop::Odd);
    }
    list_text(alloc, graph.targets(node))
}

/// The sources of a node, from edge to edge.
fn sources(alloc: Global, graph: &Graph, node: &str) -> Result<Vec<u8>, Stop> {
    let node = number(node)?;
    if node >= graph.nodes() {
        return Err(Stop::Odd);
    }
    let mut sources = Vec::new(alloc);
    let edges = graph.edges();
    let mut next = graph.first_edge_to(node);
    for _ in edges {
        let Some(place) = next else {
            break;
        };
        if place as usize >= edges.len() {
            return Err(Stop::Odd);
        }
        sources.push(edges[place as usize].from)?;
        next = graph.next_edge_to(place);
    }
    list_text(alloc, sources.as_slice())
}

fn edge(alloc: Global, graph: &Graph, words: &str) -> Result<Vec<u8>, Stop> {
    let (node, place) = two(words)?;
    let (node, place) = (number(node)?, number(place)?);
    if node >= graph.nodes() {
        return Err(Stop::Odd);
    }
    match graph.edge(node, place) {
        Some(target) => count_text(alloc, target as usize, ""),
        None => word(alloc, "none"),
    }
}

fn reach(alloc: Global, graph: &Graph, roots: &str) -> Result<Vec<u8>, Stop> {
    let roots = numbers(alloc, roots)?;
    if !are_below(graph.nodes(), roots.as_slice()) {
        return Err(Stop::Odd);
    }
    let reached = graph.reach(alloc, roots.as_slice())?;
    list_text(alloc, reached.as_slice())
}

/// Whether each two neighbours are an edge.
fn is_walk(edges: &[Edge], walk: &[u32]) -> bool {
    walk.windows(2).all(|pair| {
        let (Some(from), Some(to)) = (pair.first(), pair.last()) else {
            return false;
        };
        edges.contains(&Edge {
            from: *from,
            to: *to,
        })
    })
}

/// Whether there is a walk from a node to another. One that is none stops.
fn has_walk(alloc: Global, graph: &Graph, a: u32, b: u32) -> Result<bool, Stop> {
    if a >= graph.nodes() {
        return Err(Stop::Odd);
    }
    let Some(walk) = graph.walk_to(alloc, a, b)? else {
        return Ok(false);
    };
    let walk = walk.as_slice();
    if is_walk(graph.edges(), walk) && walk.first() == Some(&a) && walk.last() == Some(&b) {
        return Ok(true);
    }
    Err(Stop::Odd)
}

fn walk(alloc: Global, graph: &Graph, words: &str) -> Result<Vec<u8>, Stop> {
    let (a, b) = two(words)?;
    let answer = has_walk(alloc, graph, number(a)?, number(b)?)?;
    word(alloc, if answer { "yes" } else { "no" })
}

fn walks(alloc: Global, graph: &Graph) -> Result<Vec<u8>, Stop> {
    let mut count: usize = 0;
    for a in 0..graph.nodes() {
        for b in 0..graph.nodes() {
            if has_walk(alloc, graph, a, b)? {
                count = count.saturating_add(1);
            }
        }
    }
    count_text(alloc, count, "")
}
