//! The list into which an instruction's successors are put.

ghost use Rattle.std.specs.Prelude.{◌≡◌, true, length, Some, None};
ghost use Rattle.node_keys.specs.Keys.{offset_of};
ghost use Rattle.abs_state.specs.PairBytes.{left_in};
ghost use Rattle.local_rules.specs.Raw.{one, moves_to};
ghost use Rattle.local_rules.specs.HighBytes.{view_of};
ghost use Rattle.local_rules.specs.Settling.{node_where};
ghost use Rattle.abs_step.specs.Adding.{Adds, Inserts, moving, teller, settled_by, left_by};
ghost use Rattle.abs_step.specs.Sites.{site_of};

use crate::site::Site;
use abs_state::AbsState;
use avr_model::instruction::Instr;
use flash_image::Flash;
use local_reads::settling::settle;
use local_rules::SpView;
use local_rules::local::{Node, NodeFault, Nodes};
use node_keys::NodeKey;
use pair_steps::refine;
use std::marker::Model;

/// The nodes so far, and how states are settled and refined before their nodes are inserted. A node is left out if nothing is left of its
/// state. Seen as the nodes, the stack pointer by which states are settled, and what refines.
#[derive(Drop)]
pub struct Moves<'a> {
    nodes: Nodes,
    view: Option<SpView>,
    flash: &'a Flash,
    instr: &'a Instr,
    before: &'a AbsState,
    refines: bool,
}

impl<'a> Model for Moves<'a> {
    ghost use Rattle.abs_step.specs.Adding.{Moving, teller};

    ghost Value = { Moving };

    ghost view = { λ m. record { view = m.view; by = teller m.refines m.flash.now m.instr.now m.before.now; nodes = m.nodes } };
}

impl<'a> Moves<'a> {
    /// These nodes. States of further nodes are settled, and if `refines`, refined by the transfer function of pairs.
    pub fn new(nodes: Nodes, site: &Site<'a>, instr: &'a Instr, refines: bool) -> Moves<'a>
        ensures { result ≡ moving (Some (view_of (site_of site.now))) (teller refines site.now.flash.now instr.now site.now.state.now) nodes }
    {
        Moves {
            nodes,
            view: Some(site.view()),
            flash: site.flash,
            instr,
            before: site.state,
            refines,
        }
    }

    /// These nodes. States of further nodes stay as they are.
    pub fn plain(nodes: Nodes, site: &Site<'a>, instr: &'a Instr) -> Moves<'a>
        ensures { result ≡ moving None None nodes }
    {
        Moves {
            nodes,
            view: None,
            flash: site.flash,
            instr,
            before: site.state,
            refines: false,
        }
    }

    /// The nodes.
    pub fn into_nodes(self) -> Nodes
        ensures { result ≡ self.entry.nodes }
    {
        self.nodes
    }

    // Settles a state. Returns whether anything is left.
    fn settle(&self, state: &mut AbsState) -> bool
        ensures left { left_in result state.new ≡ settled_by self.now.view state.old }
        ensures slots { result ≡ true → state.new.slots ≡ state.old.slots }
    {
        match self.view {
            Some(view) => settle(view, state),
            None => true,
        }
    }

    // Settles and refines a state. Returns whether anything is left.
    fn is_left(&self, state: &mut AbsState) -> bool
        ensures left { left_in result state.new ≡ left_by self.now.view self.now.by state.old }
        ensures slots { result ≡ true → state.new.slots ≡ state.old.slots }
    {
        if !self.settle(state) {
            return false;
        }
        if self.refines {
            return refine(self.flash, self.instr, self.before, state);
        }
        true
    }

    /// Adds one node.
    pub fn add(&mut self, key: NodeKey, mut state: AbsState) -> Result<(), NodeFault>
        requires { length state.slots ≡ offset_of key.sp }
        ensures { Adds self.old self.new result (one key state) }
    {
        let left = self.is_left(&mut state);
        put(&mut self.nodes, key, left, state)
    }
}

/// Adds one node, if anything is left of its state.
#[tactic(auto, using(crate::proofs::Added::adding))]
pub fn put(nodes: &mut Nodes, key: NodeKey, left: bool, state: AbsState) -> Result<(), NodeFault>
    requires { left ≡ true → length state.slots ≡ offset_of key.sp }
    ensures { Inserts nodes.old nodes.new result (moves_to (node_where key (left_in left state))) }
{
    if !left {
        return Ok(());
    }
    Ok(nodes.place(Node { key, state })?)
}
