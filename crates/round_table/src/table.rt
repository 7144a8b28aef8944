//! The state of each node.

ghost use Rattle.std.specs.Prelude.{◌≡◌, ◌≢◌, ◌<◌, ◌↔◌, length, Contains, Some, IsTrue, IfOk, OnOk, OnErr, is_some, ◌++◌};
ghost use Rattle.std.specs.Map.{keys_of};
ghost use Rattle.node_keys.specs.declared.keys.NodeKey as node_key;
ghost use Rattle.abs_state.specs.declared.state.AbsState as abs_state;
ghost use Rattle.std.specs.Prelude.{map as list_map};
ghost use Rattle.std.specs.Option.{option_copied};
ghost use Rattle.std.specs.FinMap.{get, empty, len};
ghost use Rattle.node_keys.specs.Keys.{offset_of};
ghost use Rattle.state_pool.specs.Uses.{AreBelow};
ghost use Rattle.state_pool.specs.Counts.{state_at, count_at, IsUsedLess};
ghost use Rattle.round_table.specs.Families.{Lands, raised, nodes_of, node_of};
ghost use Rattle.round_table.specs.Shared.{stated, AreCounted, IsMoved, joined_at};

use abs_state::AbsState;
use indexmap::IndexMap;
use local_rules::Node;
use node_keys::NodeKey;
use state_pool::Pool;
use state_pool::laws::uses_are_counted;
use std::alloc::{AllocError, Global};
use std::marker::Model;

// The most entries, and the most different states: as many as the pool counts.
const MOST: usize = 4_294_967_294;

/// The state of each node. Nodes are numbered in order of insertion, and equal states are stored once. Seen as a map from keys. Each
/// state has as many slots as the offset of its key.
#[derive(Drop)]
pub struct Table {
    // The number of each node's state.
    map: IndexMap<NodeKey, u32>,
    // The states, each with as many uses as nodes.
    pool: Pool,
}

impl Model for Table {
    ghost use Rattle.std.specs.FinMap.{FinMap, from_entries, code};
    ghost use Rattle.node_keys.specs.contracts.keys.NodeKey as node_key;
    ghost use Rattle.abs_state.specs.contracts.state.AbsState as abs_state;
    ghost use Rattle.std.specs.Map.{keys_of};
    ghost use Rattle.node_keys.specs.Order.{node_cmp};
    ghost use Rattle.abs_state.specs.declared.state.AbsState.{AbsState};
    ghost use Rattle.round_table.specs.Shared.{stated, IsShared};

    ghost Value = { FinMap node_cmp AbsState };

    ghost coded = { code node_key.the_row.coded abs_state.the_row.coded };

    ghost view = { λ t. from_entries (stated t.pool t.map.entries) };

    ghost invariant = { λ t. IsShared t.pool t.map.entries };
}

impl Table {
    /// No nodes.
    pub fn new(alloc: Global) -> Table
        ensures { result ≡ empty }
    {
        Table {
            map: IndexMap::new(alloc),
            pool: Pool::new(alloc),
        }
    }

    /// The number of nodes.
    pub fn len(&self) -> usize
        ensures { result ≡ len self.now }
    {
        self.map.len()
    }

    /// The state of a node.
    pub fn get(&self, key: &NodeKey) -> Option<&AbsState>
        ensures { option_copied result ≡ get self.now key.now }
    {
        match self.map.get(key) {
            Some(number) => Some(self.pool.get(*number)),
            None => None,
        }
    }

    /// The place of a node in the order of insertion, if it is there.
    pub fn place(&self, key: &NodeKey) -> Option<usize>
        ensures { is_some result ≡ is_some (get self.now key.now) }
    {
        self.map.get_index_of(key)
    }

    /// Whether the node lands here: its key has a state above its own.
    pub fn covers(&self, node: &Node) -> bool
        requires { length node.now.state.slots ≡ offset_of node.now.key.sp }
        ensures { IsTrue result ↔ Lands self.now node.now }
    {
        match self.map.get(&node.key) {
            Some(number) => node.state.le(self.pool.get(*number)),
            None => false,
        }
    }

    /// Joins a state into that of its node, or adds the node. Returns whether the table changed. Fails if memory runs out.
    pub fn raise(&mut self, alloc: Global, node: Node) -> Result<bool, AllocError>
        requires { length node.state.slots ≡ offset_of node.key.sp }
        ensures ok { IfOk result (λ grew. self.new ≡ raised self.old node) }
        ensures grew { IfOk result (λ grew. IsTrue grew ↔ (self.new ≢ self.old)) }
        ensures err { OnErr result (self.new ≡ self.old) }
    {
        uses_are_counted();
        if self.map.len() > MOST || self.pool.len() > MOST {
            return Err(AllocError);
        }
        match self.map.get_mut(&node.key) {
            Some(held) => {
                let (number, grew) = joined(&mut self.pool, alloc, *held, &node.state)?;
                *held = number;
                Ok(grew)
            }
            None => {
                let Ok(number) = self.pool.intern(node.state) else {
                    return Err(AllocError);
                };
                match self.map.insert(node.key, number) {
                    Ok(_) => Ok(true),
                    Err(_) => {
                        self.pool.release(number);
                        Err(AllocError)
                    }
                }
            }
        }
    }

    /// The keys of all nodes, in order of insertion.
    pub fn keys(&self, alloc: Global) -> Result<Vec<NodeKey>, AllocError>
        ensures { IfOk result (λ all. (k : _) (s : _) → get self.now k ≡ Some s → Contains all.items k) }
    {
        keys_in(&self.map, alloc)
    }

    /// The nodes, ascending by key.
    pub fn into_sorted(self, alloc: Global) -> Result<Vec<Node>, AllocError>
        ensures { IfOk result (λ all. all.items ≡ nodes_of self) }
    {
        let mut map = self.map;
        map.sort_keys()?;
        let all = nodes_in(map, self.pool, alloc)?;
        Ok(all)
    }
}

// Joins a state into that of a number. One use of the number moves to that of the join. Returns the new number, and whether the join
// differs.
fn joined(
    pool: &mut Pool,
    alloc: Global,
    number: u32,
    other: &AbsState,
) -> Result<(u32, bool), AllocError>
    requires few { len pool.old < 4294967295 }
    requires counts { AreBelow 4294967295 pool.old }
    requires there { 0 < count_at pool.old number }
    requires slots { length (state_at pool.old number).slots ≡ length other.now.slots }
    ensures moved { IfOk result (λ r. IsMoved pool.old number (joined_at pool.old number other.now) r.0 pool.new) }
    ensures grew { IfOk result (λ r. IsTrue r.1 ↔ (joined_at pool.old number other.now ≢ state_at pool.old number)) }
    ensures slots { IfOk result (λ r. length (state_at pool.new r.0).slots ≡ length other.now.slots) }
    ensures err { OnErr result (pool.new ≡ pool.old) }
{
    uses_are_counted();
    let mut state = pool.get(number).copy(alloc)?;
    if !state.join_into(other) {
        return Ok((number, false));
    }
    let Ok(next) = pool.intern(state) else {
        return Err(AllocError);
    };
    pool.release(number);
    Ok((next, true))
}

// The state of a number, which loses one use: the pool's own for the last use, else a copy.
fn taken(pool: &mut Pool, alloc: Global, number: u32) -> Result<AbsState, AllocError>
    requires { 0 < count_at pool.old number }
    ensures state { IfOk result (λ state. state ≡ state_at pool.old number) }
    ensures less { IsUsedLess pool.old number pool.new }
{
    uses_are_counted();
    match pool.release(number) {
        Some(state) => Ok(state),
        None => pool.get(number).copy(alloc),
    }
}

// The keys by number.
fn keys_in(map: &IndexMap<NodeKey, u32>, alloc: Global) -> Result<Vec<NodeKey>, AllocError>
    ensures { IfOk result (λ all. all.items ≡ keys_of map.now.entries) }
{
    let mut all = Vec::with_capacity(alloc, map.len())?;
    for key in map.keys() {
        all.push(*key)?;
    }
    Ok(all)
}

// Appends the nodes of the numbers.
fn add_nodes(
    all: &mut Vec<Node>,
    map: IndexMap<NodeKey, u32>,
    pool: &mut Pool,
    alloc: Global,
) -> Result<(), AllocError>
    requires { AreCounted pool.old map.entries }
    ensures { OnOk result (all.new.items ≡ all.old.items ++ list_map node_of (stated pool.old map.entries)) }
{
    all.reserve(map.len())?;
    for (key, number) in map {
        let state = taken(pool, alloc, number)?;
        all.push(Node { key, state })?;
    }
    Ok(())
}

// The nodes by number.
fn nodes_in(map: IndexMap<NodeKey, u32>, pool: Pool, alloc: Global) -> Result<Vec<Node>, AllocError>
    requires { AreCounted pool map.entries }
    ensures { IfOk result (λ all. all.items ≡ list_map node_of (stated pool map.entries)) }
{
    let (mut pool, mut all) = (pool, Vec::new(alloc));
    let told = add_nodes(&mut all, map, &mut pool, alloc);
    drop(pool);
    told.and(Ok(all))
}
