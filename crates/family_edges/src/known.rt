//! A family with the exits of its first nodes.

ghost use Rattle.std.specs.Prelude.{◌≡◌, ◌<◌, length, IfOk};
ghost use Rattle.family_edges.specs.Shown.{AreOfSomeDevice};
ghost use Rattle.family_edges.specs.Exits.{AreExitsKnown};
ghost use Rattle.family_edges.specs.Next.{exit_in, local_of, leaver_at, leavers_in, returns_by};
ghost use Rattle.family_edges.specs.Tasks.{task_of};
ghost use Rattle.family_edges.specs.Clauses.{AtNumber, Grows};
ghost use Rattle.family_edges.specs.Callers.{caller_node};

use crate::adding::{Leavers, add_return};
use crate::callers::{Caller, Leaver};
use crate::filled::Filled;
use crate::leaving::exit_at;
use crate::task::Task;
use avr_model::listed::Listed;
use edge_rules::Edge;
use local_rules::{Exit, NodeFault};
use std::alloc::AllocError;

// The nodes of a family, and the exits of the first of them.
#[derive(Clone, Copy)]
pub(crate) struct Known<'a> {
    pub task: &'a Task<'a>,
    pub nodes: &'a Filled,
    pub exits: &'a [Option<Exit>],
}

impl Known<'_> {
    // The exit of the node of this number, if it has no fault.
    fn exit(&self, at: usize) -> Result<Option<Exit>, AllocError>
        requires place { at < length self.now.nodes.now }
        requires shown { AreOfSomeDevice self.now.nodes.now }
        requires given { AreExitsKnown (task_of self.now.task.now) self.now.nodes.now self.now.exits.now }
        ensures { AtNumber self.now.nodes.now at (λ n. IfOk result (λ x. x ≡ exit_in (local_of (task_of self.now.task.now) n))) }
    {
        if at < self.exits.len() {
            return Ok(self.exits[at]);
        }
        match exit_at(self.task, self.nodes, at) {
            Ok(exit) => Ok(exit),
            Err(NodeFault::Memory) => Err(AllocError),
            Err(_) => Ok(None),
        }
    }

    // Adds the edge back from the node of this number.
    fn add_leaver(
        &self,
        edges: &mut Listed<Edge>,
        caller: &Caller<'_>,
        at: usize,
    ) -> Result<(), AllocError>
        requires place { at < length self.now.nodes.now }
        requires shown { AreOfSomeDevice self.now.nodes.now }
        requires given { AreExitsKnown (task_of self.now.task.now) self.now.nodes.now self.now.exits.now }
        ensures { AtNumber self.now.nodes.now at (λ n. Grows result edges.old edges.new (returns_by (caller_node caller.now) caller.now.way (leaver_at (task_of self.now.task.now) n))) }
    {
        match self.exit(at)? {
            Some(exit) => {
                let state = self.nodes.state(at);
                add_return(self.task.alloc, edges, caller, &Leaver { exit, state })
            }
            None => Ok(()),
        }
    }
}

impl Leavers for Known<'_> {
    ghost leavers = { λ s. leavers_in (task_of s.task.now) s.nodes.now };

    ghost can_return = { λ s. AreOfSomeDevice s.nodes.now × AreExitsKnown (task_of s.task.now) s.nodes.now s.exits.now };

    fn add_returns(&self, edges: &mut Listed<Edge>, caller: &Caller<'_>) -> Result<(), AllocError> {
        let (low, high) = self.nodes.span(&caller.way.inst);
        for at in low..high {
            self.add_leaver(edges, caller, at)?;
        }
        Ok(())
    }
}
