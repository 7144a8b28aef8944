//! Families of small firmwares, node by node.

ghost use Rattle.std.specs.Prelude.{ℕ, ◌≡◌, ◌<◌, ◌^◌, false, length, slice_get, Some, None, IsTrue, IfOk, IfSome, OnOk};
ghost use Rattle.std.specs.declared.cmp.Ordering.TheVariants.{Less};
ghost use Rattle.avr_model.specs.Vectors.{enable_count};
ghost use Rattle.node_keys.specs.declared.keys.SpForm.TheVariants.{Closed};
ghost use Rattle.node_keys.specs.Order.{node_cmp};
ghost use Rattle.edge_rules.specs.Expansion.{AreSeeds};
ghost use Rattle.edge_laws.specs.Expansions.{AreSeedsAscending};
ghost use Rattle.family_tables.specs.Seeds.{first_state};

use abs_state::AbsState;
use avr_model::device::Device;
use edge_rules::HeldState;
use family_edges::{NodeForm, Seed, Seeded};
use node_keys::{InstKey, Kind, NodeKey, SpForm};
use std::alloc::{AllocError, Global};
use vector_table::Masks;

// Nodes in a list.
#[derive(Drop)]
pub(crate) struct SeedList {
    pub items: Vec<(NodeKey, NodeForm)>,
}

impl Seeded for SeedList {
    ghost nodes = { λ s. s.items.items };

    fn count(&self) -> usize {
        self.items.len()
    }

    fn key(&self, at: usize) -> &NodeKey {
        &self.items[at].0
    }

    fn seed(&self, at: usize) -> Seed<'_> {
        match &self.items[at].1 {
            NodeForm::State(state) => Seed::State(state.get()),
            NodeForm::From(from) => Seed::From(*from),
        }
    }
}

// A node: the kind and entry of its instance, whether vectors 2 and 7 are enabled, its word, and the number of the node that it comes
// from with the bytes on the stack. Without a number the stack is empty, and its state is that at reset or at an entry.
#[derive(Clone, Copy)]
pub(crate) struct Plan(pub Kind, pub u32, pub bool, pub u32, pub Option<(u32, u16)>);

// Vectors 2 and 7 of the device enabled, or none.
fn masks_of(device: Device, on: bool) -> Masks
    ensures { result < 2 ^ enable_count device }
{
    if !on || device.last_vector() < 7 {
        return Masks::none();
    }
    let second = Masks::none().with(device, 2, true);
    second.with(device, 7, true)
}

// The node's key; in the root I is set if vectors are enabled.
fn key_of(device: Device, plan: &Plan, offset: u16) -> NodeKey
    ensures masks { result.masks < 2 ^ enable_count device }
    ensures closed { result.sp ≡ Closed offset }
    ensures unpicked { result.pick ≡ None }
{
    let masks = masks_of(device, plan.2);
    let is_root = plan.0 == Kind::Root;
    NodeKey {
        inst: InstKey {
            kind: plan.0,
            entry: plan.1,
            masks: if is_root { Masks::none() } else { masks },
            i: false,
        },
        pc: plan.3,
        masks,
        i: plan.2 && is_root,
        delay: false,
        sp: SpForm::Closed(offset),
        pick: None,
    }
}

// Whether the key of this number is below the other.
fn is_before(items: &[(NodeKey, NodeForm)], at: usize, key: &NodeKey) -> bool
    requires { at < length items.now }
    ensures { (e : _) → slice_get items.now at ≡ Some e → IsTrue result → node_cmp e.0 key.now ≡ Less }
{
    items[at].0.cmp(key).is_lt()
}

// Whether all keys are below this one, and there is room for it.
fn may_follow(items: &[(NodeKey, NodeForm)], key: &NodeKey) -> bool
    ensures room { IsTrue result → length items.now < 65536 }
    ensures below { IsTrue result → (at : ℕ) (e : _) → slice_get items.now at ≡ Some e → node_cmp e.0 key.now ≡ Less }
{
    if items.len() >= 65536 {
        return false;
    }
    for at in 0..items.len() {
        if !is_before(items, at, key) {
            return false;
        }
    }
    true
}

// The state at reset, or outside the root the one at an entry from it.
fn first_state(alloc: Global, kind: Kind) -> Result<AbsState, AllocError>
    ensures { IfOk result (λ s. s ≡ first_state kind) }
{
    let root = AbsState::root(alloc);
    match kind {
        Kind::Root => Ok(root),
        Kind::Call | Kind::Vector(_) => root.entered(alloc),
    }
}

// A node with its first state, if it may follow.
fn add_own(
    alloc: Global,
    device: Device,
    items: &mut Vec<(NodeKey, NodeForm)>,
    key: NodeKey,
) -> Result<bool, AllocError>
    requires masks { key.masks < 2 ^ enable_count device }
    requires closed { key.sp ≡ Closed 0 }
    requires unpicked { key.pick ≡ None }
    requires seeds { AreSeeds device false items.old.items }
    requires ascending { AreSeedsAscending items.old.items }
    ensures seeds { OnOk result (AreSeeds device false items.new.items) }
    ensures ascending { OnOk result (AreSeedsAscending items.new.items) }
{
    if key.pc >= device.limit() || !may_follow(items, &key) {
        return Ok(false);
    }
    let state = first_state(alloc, key.inst.kind)?;
    let held = HeldState::new(alloc, state)?;
    items.push((key, NodeForm::State(held)))?;
    Ok(true)
}

// A node that comes from an earlier one, if it may follow.
fn add_from(
    device: Device,
    items: &mut Vec<(NodeKey, NodeForm)>,
    key: NodeKey,
    from: u32,
) -> Result<bool, AllocError>
    requires seeds { AreSeeds device false items.old.items }
    requires ascending { AreSeedsAscending items.old.items }
    ensures seeds { OnOk result (AreSeeds device false items.new.items) }
    ensures ascending { OnOk result (AreSeedsAscending items.new.items) }
{
    if from as usize >= items.len() || !may_follow(items, &key) {
        return Ok(false);
    }
    items.push((key, NodeForm::From(from)))?;
    Ok(true)
}

// One more node, if it may follow.
fn add(
    alloc: Global,
    device: Device,
    items: &mut Vec<(NodeKey, NodeForm)>,
    plan: &Plan,
) -> Result<bool, AllocError>
    requires seeds { AreSeeds device false items.old.items }
    requires ascending { AreSeedsAscending items.old.items }
    ensures seeds { OnOk result (AreSeeds device false items.new.items) }
    ensures ascending { OnOk result (AreSeedsAscending items.new.items) }
{
    match plan.4 {
        None => add_own(alloc, device, items, key_of(device, plan, 0)),
        Some((from, offset)) => add_from(device, items, key_of(device, plan, offset), from),
    }
}

// The nodes on a device, if they are in a valid order.
pub(crate) fn seeds_of(
    alloc: Global,
    device: Device,
    plans: &[Plan],
) -> Result<Option<SeedList>, AllocError>
    ensures { IfOk result (λ found. IfSome found (λ s. AreSeeds device false s.items.items × AreSeedsAscending s.items.items)) }
{
    let mut items = Vec::new(alloc);
    for at in 0..plans.len() {
        if !add(alloc, device, &mut items, &plans[at])? {
            return Ok(None);
        }
    }
    Ok(Some(SeedList { items }))
}
