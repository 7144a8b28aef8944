//! Returns from an instance to a node that entered it.

ghost use Rattle.std.specs.Prelude.{ℕ, ◌≡◌, ◌<◌, IfOk};
ghost use Rattle.abs_state.specs.Values.{value_at};
ghost use Rattle.abs_state.specs.Formed.{NamesRegister};
ghost use Rattle.avr_model.specs.State.{REGISTERS};
ghost use Rattle.family_edges.specs.Next.{returned_node};
ghost use Rattle.family_edges.specs.Callers.{caller_node};

use crate::ways::Way;
use abs_state::AbsState;
use local_rules::{Exit, Node};
use node_keys::{EdgeKind, NodeKey};
use std::alloc::{AllocError, Global};

/// A node that entered an instance.
#[derive(Clone, Copy)]
pub struct Caller<'a> {
    /// Its key.
    pub key: &'a NodeKey,
    /// Its state.
    pub state: &'a AbsState,
    /// How it entered the instance.
    pub way: Way,
}

/// A node that leaves its instance.
#[derive(Clone, Copy)]
pub struct Leaver<'a> {
    /// Its exit.
    pub exit: Exit,
    /// Its state.
    pub state: &'a AbsState,
}

/// The target of the instance's exit in the caller's own frame: the word after the call, or the interrupted word, with the exit's enable
/// bits and I. None if the states at the exit and at the caller conflict.
pub fn returned(
    alloc: Global,
    caller: &Caller<'_>,
    exit: &Exit,
    leaving: &AbsState,
) -> Result<Option<Node>, AllocError>
    requires { (r : ℕ) → r < REGISTERS → NamesRegister (value_at leaving.now.registers r).tag }
    ensures { IfOk result (λ f. f ≡ returned_node (caller_node caller.now) caller.now.way exit.now leaving.now) }
{
    let Some(state) = caller.state.returned(alloc, leaving)? else {
        return Ok(None);
    };
    let key = NodeKey {
        inst: caller.key.inst,
        pc: caller.way.back,
        masks: exit.masks,
        i: exit.i,
        delay: exit.delay,
        sp: caller.key.sp,
        pick: match caller.way.kind {
            EdgeKind::Interrupt(..) => caller.key.pick,
            _ => None,
        },
    };
    Ok(Some(Node { key, state }))
}
