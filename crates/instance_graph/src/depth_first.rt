//! Strongly connected components by depth-first search (Tarjan 1972).

ghost use Rattle.std.specs.Prelude.{◌≡◌, slice_index};
ghost use Rattle.instance_graph.specs.Graph.{IsGraph};

use crate::graph::{Entered, GraphInst};
use std::alloc::{AllocError, Global};

// No component yet.
const OPEN: u32 = u32::MAX;

// The state of the walk in an instance: its next edge.
#[derive(Clone, Copy)]
struct Visit {
    inst: u32,
    edge: usize,
}

// The state of the search. Its numbers are tested where they are used, so no contract speaks of them.
#[derive(Drop)]
struct SearchState {
    // By instance, when the search reached it, from 1 on; 0 before.
    begun: Vec<u32>,
    // By instance, when the search reached the first open one known to be reachable from it.
    lowest: Vec<u32>,
    // By instance, the number of its component.
    component: Vec<u32>,
    // The open instances, which have no component yet, in the order of the search.
    open: Vec<u32>,
    // The path from the start to the current instance.
    visits: Vec<Visit>,
    // The instances in the order in which they got components.
    order: Vec<u32>,
    // The number of instances begun.
    time: u32,
    // The number of components.
    count: u32,
}

/// The result of the search.
#[derive(Drop)]
pub struct Walked {
    /// The instances in an order in which each comes after those it enters, except for cycles.
    pub order: Vec<u32>,
    /// By instance, its component's number, which is not below that of any instance it enters.
    pub component: Vec<u32>,
}

/// The number at an index; 0 if there is none.
pub fn read(list: &[u32], i: usize) -> u32
    ensures { result ≡ slice_index list.now i }
{
    list.get(i).copied().unwrap_or(0)
}

fn write(list: &mut [u32], i: usize, number: u32) {
    if i < list.len() {
        list[i] = number;
    }
}

fn edge(graph: &[GraphInst], visit: Visit) -> Option<Entered> {
    let inst = graph.get(visit.inst as usize)?;
    inst.entered.as_slice().get(visit.edge).copied()
}

impl SearchState {
    // Visits an instance, unless it was visited.
    fn begin(&mut self, inst: u32) -> Result<(), AllocError> {
        if read(&self.begun, inst as usize) != 0 {
            return Ok(());
        }
        self.time = self.time.saturating_add(1);
        write(&mut self.begun, inst as usize, self.time);
        write(&mut self.lowest, inst as usize, self.time);
        self.open.push(inst)?;
        self.visits.push(Visit { inst, edge: 0 })?;
        Ok(())
    }

    // Records that an instance reaches an open one, visited then.
    fn lower(&mut self, inst: u32, time: u32) {
        let lowest = read(&self.lowest, inst as usize);
        write(&mut self.lowest, inst as usize, lowest.min(time));
    }

    // Follows one edge.
    fn enter(&mut self, visit: Visit, into: u32) -> Result<(), AllocError> {
        let edge = visit.edge.saturating_add(1);
        self.visits.push(Visit { edge, ..visit })?;
        if read(&self.component, into as usize) == OPEN {
            let begun = read(&self.begun, into as usize);
            if begun != 0 {
                self.lower(visit.inst, begun);
            }
        }
        self.begin(into)
    }

    // Makes the open instances from this one on a component.
    fn close(&mut self, inst: u32) -> Result<(), AllocError> {
        for _ in 0..self.open.len() {
            let Some(last) = self.open.pop() else {
                break;
            };
            write(&mut self.component, last as usize, self.count);
            self.order.push(last)?;
            if last == inst {
                break;
            }
        }
        self.count = self.count.saturating_add(1);
        Ok(())
    }

    // Returns to the instance before.
    fn leave(&mut self, inst: u32) -> Result<(), AllocError> {
        let lowest = read(&self.lowest, inst as usize);
        if lowest == read(&self.begun, inst as usize) {
            return self.close(inst);
        }
        if let Some(back) = self.visits.last().copied() {
            self.lower(back.inst, lowest);
        }
        Ok(())
    }

    // Walks until the path is empty.
    fn go(&mut self, graph: &[GraphInst]) -> Result<(), AllocError> {
        for _ in 0..u64::MAX {
            let Some(visit) = self.visits.pop() else {
                break;
            };
            let gone = match edge(graph, visit) {
                Some(entered) => self.enter(visit, entered.into),
                None => self.leave(visit.inst),
            };
            gone?;
        }
        Ok(())
    }

    // Searches from each instance in turn.
    fn go_over(&mut self, graph: &[GraphInst]) -> Result<(), AllocError>
        requires { IsGraph graph.now }
    {
        for inst in 0..graph.len() {
            self.begin(inst as u32)?;
            self.go(graph)?;
        }
        Ok(())
    }
}

/// Searches all instances.
pub fn walk_all(alloc: Global, graph: &[GraphInst]) -> Result<Walked, AllocError>
    requires { IsGraph graph.now }
{
    let mut walk = SearchState {
        begun: vec![in alloc; 0; graph.len()]?,
        lowest: vec![in alloc; 0; graph.len()]?,
        component: vec![in alloc; OPEN; graph.len()]?,
        open: Vec::new(alloc),
        visits: Vec::new(alloc),
        order: Vec::new(alloc),
        time: 0,
        count: 0,
    };
    walk.go_over(graph)?;
    Ok(Walked {
        order: walk.order,
        component: walk.component,
    })
}
