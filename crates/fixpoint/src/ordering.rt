//! Worklist iteration to the least family, one node at a time. Any order is sound: the result is checked afterwards.

ghost use Rattle.std.specs.Prelude.{◌+◌, ◌*◌, ◌≡◌, ◌<◌, ◌≤◌, length, None, IfOk, IfErr, OnOk, OnSome, true, false};
ghost use Rattle.std.specs.FinMap.{empty};
ghost use Rattle.std.specs.BinaryHeap.{heap_len};
ghost use Rattle.round_nesting.specs.Nestings.{AreOnce};
ghost use Rattle.round_rules.specs.Families.{cells};
ghost use Rattle.round_laws.specs.Closed.{IsMade};
ghost use Rattle.round_rules.specs.Solutions.{AreRoundsWithout};
ghost use Rattle.round_laws.specs.Steps.{weight};
ghost use Rattle.round_steps.specs.Notings.{blank};
ghost use Rattle.fixpoint.specs.Progress.{AreRoundsFound};
ghost use Rattle.fixpoint.specs.Order.{IsUnderWay};
ghost use Rattle.fixpoint.specs.OrderLaws.{OrdersEnd};
ghost use Rattle.fixpoint.specs.Turns.{AreUnderWay, IsOnItsWay, room};
ghost use Rattle.family_edges.specs.Tasks.{task_of};

use crate::checking::{check_nesting, check_size, note_seen};
use crate::confirming::confirm;
use crate::cost::{VISIT, visit_cost};
use crate::rounds::{Rounds, begin, family_of, go_on, start};
use crate::unfound::Unfound;
use certificate::MOST_INSTANCES;
use family_edges::Task;
use flash_image::Flash;
use node_keys::{Kind, NodeKey};
use round_nesting::Nesting;
use round_rules::Refusal;
use round_steps::targets::targets;
use round_steps::{Notes, join_all, look_all};
use round_table::Table;
use std::alloc::AllocError;
use std::cmp::Reverse;
use std::collections::BinaryHeap;

/// Nodes may be visited in any order.
pub fn orders_end()
    ensures { OrdersEnd }
{}

// Visits one node, notes the result, and joins the targets of its edges into the family. Returns the keys of nodes that changed.
fn look_on(
    task: &Task<'_>,
    table: &mut Table,
    counted: &mut u64,
    notes: &mut Notes,
    key: NodeKey,
) -> Result<Vec<NodeKey>, Refusal>
    requires way { IsUnderWay (task_of task.now) table.old counted.old notes.old }
    ensures way { OnOk result (IsUnderWay (task_of task.now) table.new counted.new notes.new) }
    ensures more { IfOk result (λ changed. weight table.old + length changed.items ≤ weight table.new) }
{
    let one = [key];
    let seen = look_all(task, table, &one)?;
    if let Err(refusal) = note_seen(task, notes, &seen) {
        drop(seen);
        return Err(refusal);
    }
    let nodes = targets(task.alloc, table, notes, seen.looks)?;
    let changed = join_all(task.alloc, table, counted, nodes)?;
    Ok(changed)
}

/// An item of the worklist: whether no interrupt enters the node's instance, the place of that instance among those found so far, the
/// node's word, and its key. So handlers wait until all else has settled, callees until their callers have, and an instance goes through its
/// words in order. The greatest item comes first.
pub type Due = (bool, Reverse<usize>, Reverse<u32>, NodeKey);

// The item of a key.
fn due(table: &Table, key: NodeKey) -> Due {
    let found = table
        .place(&NodeKey::entry(&key.inst))
        .unwrap_or(usize::MAX);
    let is_interrupt = matches!(key.inst.kind, Kind::Vector(_));
    (!is_interrupt, Reverse(found), Reverse(key.pc), key)
}

// Adds the keys to the worklist.
fn await_all(
    table: &Table,
    waiting: &mut BinaryHeap<Due>,
    keys: Vec<NodeKey>,
) -> Result<(), AllocError>
    ensures { OnOk result (heap_len waiting.new ≡ heap_len waiting.old + length keys.items) }
{
    'keys: for key in keys {
        waiting.push(due(table, key))?;
    }
    Ok(())
}

// Whether the first item of the worklist has this key.
fn is_first(waiting: &BinaryHeap<Due>, key: &NodeKey) -> bool
    ensures { result ≡ true → 0 < heap_len waiting.now }
{
    match waiting.peek() {
        Some((_, _, _, first)) => *first == *key,
        None => false,
    }
}

// Pops the first key and its duplicates.
fn take_first(waiting: &mut BinaryHeap<Due>) -> Option<NodeKey>
    ensures { OnSome result (heap_len waiting.new + 1 ≤ heap_len waiting.old) }
{
    let Some((_, _, _, key)) = waiting.pop() else {
        return None;
    };
    'again: while is_first(waiting, &key) {
        let _again = waiting.pop();
    }
    Some(key)
}

// Checks the nesting each time 64 more nodes have come. A failure says nothing of the family.
fn ask_nesting(
    flash: &Flash,
    nesting: &mut Nesting,
    nodes: usize,
    due: &mut usize,
) -> Result<(), Unfound>
    requires { AreOnce nesting.old.insts }
    ensures { OnOk result (AreOnce nesting.new.insts) }
{
    if nodes < *due {
        return Ok(());
    }
    if nesting.count() as u64 > MOST_INSTANCES {
        return Err(Unfound);
    }
    *due = nodes.saturating_add(64);
    check_nesting(flash, nesting)?;
    Ok(())
}

/// Worklist iteration so far. It goes on from here.
#[derive(Drop)]
pub struct Walk {
    /// The family.
    pub table: Table,
    /// The notes of its visits.
    pub notes: Notes,
    /// The worklist.
    pub waiting: BinaryHeap<Due>,
    /// The family's cells.
    pub counted: u64,
    /// The number of nodes at which the nesting is checked next.
    pub due: usize,
    /// What the visits cost.
    pub cost: u64,
}

// Worklist iteration before the first visit.
fn set_out(task: &Task<'_>) -> Result<Walk, AllocError>
    ensures { IfOk result (λ w. IsOnItsWay (task_of task.now) w) }
{
    let mut table = Table::new(task.alloc);
    let mut waiting = BinaryHeap::new(task.alloc);
    let mut counted = 0;
    let first = start(task, &mut table, &mut counted)?;
    await_all(&table, &mut waiting, first)?;
    Ok(Walk {
        table,
        notes: Notes::new(task.alloc),
        waiting,
        counted,
        due: 64,
        cost: 0,
    })
}

// The family.
fn walked(walk: Walk) -> Table
    ensures { result ≡ walk.table }
{
    let Walk { table, .. } = walk;
    table
}

// Visits the node, and adds those that changed to the worklist. The nesting is checked on the way, since a cycle ends the rounds early.
fn step(task: &Task<'_>, walk: &mut Walk, key: NodeKey) -> Result<(), Unfound>
    requires { IsOnItsWay (task_of task.now) walk.old }
    ensures way { OnOk result (IsOnItsWay (task_of task.now) walk.new) }
    ensures falls { OnOk result (2 * room walk.new.table + heap_len walk.new.waiting ≤ 2 * room walk.old.table + heap_len walk.old.waiting) }
{
    walk.cost = walk.cost.saturating_add(visit_cost(&key));
    let changed = look_on(
        task,
        &mut walk.table,
        &mut walk.counted,
        &mut walk.notes,
        key,
    )?;
    await_all(&walk.table, &mut walk.waiting, changed)?;
    check_size(&walk.table, walk.counted)?;
    ask_nesting(
        task.flash,
        &mut walk.notes.nesting,
        walk.table.len(),
        &mut walk.due,
    )?;
    Ok(())
}

// Visits nodes, the first of the worklist each time, until the worklist is empty or the visits cost this much in all. Returns whether it is
// empty.
fn walk_on(task: &Task<'_>, walk: &mut Walk, most: u64) -> Result<bool, Unfound>
    requires { IsOnItsWay (task_of task.now) walk.old }
    ensures { OnOk result (IsOnItsWay (task_of task.now) walk.new) }
{
    'visits: while walk.cost < most {
        let Some(key) = take_first(&mut walk.waiting) else {
            return Ok(true);
        };
        step(task, walk, key)?;
    }
    Ok(false)
}

// Checks with new notes whether the rounds end at the family. `drop` releases the notes: a call is one step of the proof, whatever they
// own.
fn is_end(task: &Task<'_>, table: &Table, counted: u64) -> Result<(), Unfound>
    requires made { IsMade (task_of task.now) table.now }
    requires count { counted ≡ cells table.now }
    ensures { OnOk result (AreRoundsFound (task_of task.now) None table.now) }
{
    let keys = table.keys(task.alloc)?;
    let mut notes = Notes::new(task.alloc);
    let told = confirm(task, table, counted, &mut notes, &keys);
    drop(notes);
    drop(keys);
    told
}

// Worklist iteration to a family at which the rounds end, or until the visits cost this much in all. Returns whether it has come there.
fn walk_to_end(task: &Task<'_>, walk: &mut Walk, most: u64) -> Result<bool, Unfound>
    requires { IsOnItsWay (task_of task.now) walk.old }
    ensures way { OnOk result (IsOnItsWay (task_of task.now) walk.new) }
    ensures found { IfOk result (λ ended. ended ≡ true → AreRoundsFound (task_of task.now) None walk.new.table) }
{
    let ended = walk_on(task, walk, most)?;
    if ended {
        is_end(task, &walk.table, walk.counted)?;
    }
    Ok(ended)
}

// What repeated visits of the rounds may cost in their first turn: 256 visits of nodes with no frame. Each further turn doubles it.
const FIRST_TURN: u64 = 256 * VISIT;

// The other order may cost so many times as much in its turn. Where rounds repeat much, it mostly comes to its end much sooner.
const SHARE: u64 = 2;

// The rounds and the other order in turns. Each goes on where it was, so no visit is made twice. The other order has a turn once repeated
// visits of the rounds cost what they may in theirs. So it costs at most twice what the rounds repeat, and nothing if they repeat little.
// Returns whether the rounds come to their end first. If the other order stops, the rounds go to their end.
fn take_turns(task: &Task<'_>, rounds: &mut Rounds, walk: &mut Walk) -> Result<bool, Refusal>
    requires rounds { AreUnderWay (task_of task.now) None rounds.old }
    requires walk { IsOnItsWay (task_of task.now) walk.old }
    ensures found { IfOk result (λ first. first ≡ true → AreRoundsFound (task_of task.now) None rounds.new.table) }
    ensures ordered { IfOk result (λ first. first ≡ false → AreRoundsFound (task_of task.now) None walk.new.table) }
    ensures why_not { IfErr result (λ r. AreRoundsWithout (task_of task.now) None r) }
{
    let mut most = FIRST_TURN;
    'turns: for _turn in 0..32 {
        if go_on(task, None, Some(most), rounds)? {
            return Ok(true);
        }
        match walk_to_end(task, walk, most.saturating_mul(SHARE)) {
            Ok(true) => return Ok(false),
            Ok(false) => {
                most = most.saturating_mul(2);
            }
            Err(Unfound) => break,
        }
    }
    go_on(task, None, None, rounds)
}

// The family at which the rounds end, or why they end at none, by the rounds and the other order in turns.
fn sooner_family(task: &Task<'_>) -> Result<Table, Refusal>
    ensures found { IfOk result (λ f. AreRoundsFound (task_of task.now) None f) }
    ensures why_not { IfErr result (λ r. AreRoundsWithout (task_of task.now) None r) }
{
    let mut walk = set_out(task)?;
    let mut rounds = begin(task, None)?;
    match take_turns(task, &mut rounds, &mut walk) {
        Ok(true) => {
            drop(walk);
            Ok(family_of(rounds))
        }
        Ok(false) => {
            drop(rounds);
            Ok(walked(walk))
        }
        Err(refusal) => {
            drop(walk);
            drop(rounds);
            Err(refusal)
        }
    }
}

// The family at which the rounds end, or why they end at none within the budget, by the rounds alone.
fn round_family(task: &Task<'_>, steps: Option<u64>) -> Result<Table, Refusal>
    ensures found { IfOk result (λ f. AreRoundsFound (task_of task.now) steps f) }
    ensures why_not { IfErr result (λ r. AreRoundsWithout (task_of task.now) steps r) }
{
    let mut rounds = begin(task, steps)?;
    match go_on(task, steps, None, &mut rounds) {
        Ok(true) => Ok(family_of(rounds)),
        Ok(false) => unreachable!(),
        Err(refusal) => {
            drop(rounds);
            Err(refusal)
        }
    }
}

/// The family at which the rounds end, or why they end at none within the budget. With a budget the rounds alone tell this. Without one the
/// other order has turns as soon as the rounds repeat.
pub fn found_family(task: &Task<'_>, steps: Option<u64>) -> Result<Table, Refusal>
    ensures found { IfOk result (λ f. AreRoundsFound (task_of task.now) steps f) }
    ensures why_not { IfErr result (λ r. AreRoundsWithout (task_of task.now) steps r) }
{
    match steps {
        Some(_) => round_family(task, steps),
        None => sooner_family(task),
    }
}
