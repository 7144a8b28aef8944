//! Reachability of an instance from itself.

ghost use Rattle.std.specs.Prelude.{◌≡◌, ◌<◌, Contains, IfOk, OnOk, length, true, false};
ghost use Rattle.instance_graph.specs.declared.graph.Entered.{Entered};
ghost use Rattle.instance_graph.specs.Graph.{ReachesBy, IsGraph};
ghost use Rattle.instance_graph.specs.Reach.{IsSpread};

use crate::graph::{Entered, GraphInst};
use std::alloc::{AllocError, Global};

// Marks what the instance enters, and pushes what is new.
fn spread(inst: &GraphInst, seen: &mut [bool], stack: &mut Vec<u32>) -> Result<(), AllocError>
    requires { (e : Entered) → Contains inst.now.entered e → e.into < length seen.old }
    ensures { OnOk result (IsSpread inst.now.entered seen.old stack.old.items seen.new stack.new.items) }
{
    for entered in inst.entered.as_slice() {
        let into = entered.into as usize;
        if !seen[into] {
            stack.push(entered.into)?;
            seen[into] = true;
        }
    }
    Ok(())
}

/// Whether the instance reaches itself.
pub fn reaches_itself(alloc: Global, graph: &[GraphInst], from: usize) -> Result<bool, AllocError>
    requires graph { IsGraph graph.now }
    requires within { from < length graph.now }
    ensures yes { IfOk result (λ yes. yes ≡ true → ReachesBy graph.now from from) }
    ensures no { IfOk result (λ yes. yes ≡ false → ReachesBy graph.now from from → ⊥) }
{
    let mut seen = vec![in alloc; false; graph.len()]?;
    let mut stack = Vec::new(alloc);
    let marks = seen.as_mut_slice();
    spread(&graph[from], marks, &mut stack)?;
    'marks: loop {
        match stack.pop() {
            None => return Ok(marks[from]),
            Some(number) => spread(&graph[number as usize], marks, &mut stack)?,
        }
    }
}
