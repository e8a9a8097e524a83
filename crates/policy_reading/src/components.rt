//! Labels that show which places aren't reached from themselves.
//!
//! Tarjan's algorithm numbers the strongly connected components of a graph so that no edge leads to
//! a greater number, and the edges of a place that isn't reached from itself lead to lesser ones.
//! Nothing is promised of the numbers: who uses them checks that no edge leads to a greater one,
//! which is all that the proof needs.
ghost use Rattle.std.specs.Prelude.{◌≡◌, slice_index_or};

use permissions::edges_of;
use policy_tables::Listed;
use std::alloc::{AllocError, Global};

/// A place on the path, and how many of its edges were followed.
#[derive(Clone, Copy, Debug)]
struct Step {
    place: usize,
    followed: usize,
}

/// How far the search has come. The numbers count from 1, and 0 stands for a place that has none
/// yet.
#[derive(Drop)]
struct Search {
    /// The number in the order in which places were met.
    met: Vec<usize>,
    /// The least number that is known to be reached.
    low: Vec<usize>,
    /// The number of the component.
    label: Vec<usize>,
    /// Places whose component isn't known yet.
    open: Vec<usize>,
    path: Vec<Step>,
    count: usize,
    labels: usize,
}

/// The number at a place.
pub(crate) fn number_at(numbers: &[usize], place: usize) -> usize
    ensures { result ≡ slice_index_or numbers.now place 0 }
{
    match numbers.get(place) {
        Some(number) => *number,
        None => 0,
    }
}

/// Sets the number at a place.
fn set_number(numbers: &mut [usize], place: usize, number: usize) {
    if place < numbers.len() {
        numbers[place] = number;
    }
}

impl Search {
    /// Nothing met.
    fn new(alloc: Global, places: usize) -> Result<Search, AllocError> {
        Ok(Search {
            met: vec![in alloc; 0; places]?,
            low: vec![in alloc; 0; places]?,
            label: vec![in alloc; 0; places]?,
            open: Vec::new(alloc),
            path: Vec::new(alloc),
            count: 0,
            labels: 0,
        })
    }

    /// Meets a place.
    fn enter(&mut self, place: usize) -> Result<(), AllocError> {
        self.count = self.count.saturating_add(1);
        set_number(self.met.as_mut_slice(), place, self.count);
        set_number(self.low.as_mut_slice(), place, self.count);
        self.open.push(place)?;
        self.path.push(Step { place, followed: 0 })?;
        Ok(())
    }

    /// Lowers the number that is reached from a place.
    fn lower(&mut self, place: usize, number: usize) {
        let low = number_at(self.low.as_slice(), place);
        set_number(self.low.as_mut_slice(), place, low.min(number));
    }

    /// Follows an edge to a place.
    fn follow(&mut self, from: usize, to: usize) -> Result<(), AllocError> {
        let met = number_at(self.met.as_slice(), to);
        if met == 0 {
            return self.enter(to);
        }
        if number_at(self.label.as_slice(), to) == 0 {
            self.lower(from, met);
        }
        Ok(())
    }

    /// Labels the places of a component: those that were met since its first one.
    fn close(&mut self, place: usize) {
        self.labels = self.labels.saturating_add(1);
        for _ in 0..self.open.len() {
            let Some(member) = self.open.pop() else {
                return;
            };
            set_number(self.label.as_mut_slice(), member, self.labels);
            if member == place {
                return;
            }
        }
    }

    /// Leaves a place, all of whose edges were followed.
    fn leave(&mut self, place: usize) {
        let low = number_at(self.low.as_slice(), place);
        if low == number_at(self.met.as_slice(), place) {
            self.close(place);
        }
        if let Some(before) = self.path.last() {
            let before = before.place;
            self.lower(before, low);
        }
    }

    /// Goes on from the last place of the path. False where the path has ended.
    fn step(&mut self, graph: &[Listed<usize>]) -> Result<bool, AllocError> {
        let Some(last) = self.path.pop() else {
            return Ok(false);
        };
        match edges_of(graph, last.place).get(last.followed) {
            Some(to) => {
                self.path.push(Step {
                    place: last.place,
                    followed: last.followed.saturating_add(1),
                })?;
                self.follow(last.place, *to)?;
            }
            None => self.leave(last.place),
        }
        Ok(true)
    }

    /// Goes over all that is reached from a place, in so many steps at most.
    fn walk_from(
        &mut self,
        graph: &[Listed<usize>],
        place: usize,
        most: usize,
    ) -> Result<(), AllocError> {
        if number_at(self.met.as_slice(), place) != 0 {
            return Ok(());
        }
        self.enter(place)?;
        for _ in 0..most {
            if !self.step(graph)? {
                return Ok(());
            }
        }
        Ok(())
    }
}

/// How many steps a search takes: one along each edge, and one back from each place.
fn count_steps(graph: &[Listed<usize>]) -> usize {
    let mut count = graph.len().saturating_add(1);
    for edges in graph {
        count = count.saturating_add(edges.as_slice().len());
    }
    count
}

/// A label for each place: the number of its component.
pub(crate) fn label_places(
    alloc: Global,
    graph: &[Listed<usize>],
) -> Result<Vec<usize>, AllocError> {
    let most = count_steps(graph);
    let mut search = Search::new(alloc, graph.len())?;
    for place in 0..graph.len() {
        search.walk_from(graph, place, most)?;
    }
    Ok(search.label)
}
