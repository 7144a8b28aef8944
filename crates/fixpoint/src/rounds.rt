//! The rounds, from the root's node after reset to the fixpoint or a refusal.

ghost use Rattle.std.specs.Prelude.{ℕ, ◌+◌, ◌≡◌, ◌≢◌, ◌<◌, true, false, Some, IsSome, IfOk, IfErr, OnOk};
ghost use Rattle.std.specs.FinMap.{empty};
ghost use Rattle.avr_model.specs.Devices.{device_of};
ghost use Rattle.avr_model.specs.Assumptions.{has_pairs};
ghost use Rattle.node_keys.specs.Keys.{root_inst};
ghost use Rattle.round_rules.specs.declared.refusal.Refusal.TheVariants.{Memory};
ghost use Rattle.round_rules.specs.Families.{AreFormed, FamilyHasInst, cells};
ghost use Rattle.round_rules.specs.Rounds.{first};
ghost use Rattle.round_rules.specs.Solutions.{AreRoundsWithout};
ghost use Rattle.round_steps.specs.Joins.{KeptBut};
ghost use Rattle.round_steps.specs.Notings.{blank};
ghost use Rattle.fixpoint.specs.Progress.{Turn, IsBudgetLeft, IsSpent, AreRoundsFound};
ghost use Rattle.fixpoint.specs.Turns.{AreUnderWay, room};
ghost use Rattle.fixpoint.specs.Checks.{AreRoundsStopped, IsReady};
ghost use Rattle.family_edges.specs.Tasks.{task_of};

use crate::checking::{check_nesting, check_size, note_seen};
use crate::cost::{table_cost, visits_cost};
use family_edges::Task;
use local_rules::Node;
use node_keys::{InstKey, NodeKey};
use round_rules::Refusal;
use round_steps::targets::targets;
use round_steps::{Notes, join_all, look_all};
use round_table::Table;
use std::alloc::AllocError;

// The tests of a round in order, and if none holds, the nodes to join into the family.
fn next_nodes(
    task: &Task<'_>,
    table: &Table,
    counted: u64,
    work: &[NodeKey],
    notes: &mut Notes,
) -> Result<Vec<Node>, Refusal>
    requires count { counted ≡ cells table.now }
    requires formed { AreFormed (device_of task.now.flash.now) (has_pairs task.now.assumptions.now) table.now }
    requires root { FamilyHasInst table.now root_inst }
    requires turn { Turn (task_of task.now) table.now work.now notes.old }
    ensures ready { IfOk result (λ nodes. IsReady (task_of task.now) table.now notes.new nodes.items) }
    ensures stopped { IfErr result (λ r. r ≢ Memory → AreRoundsStopped (task_of task.now) table.now r) }
{
    check_size(table, counted)?;
    let seen = look_all(task, table, work)?;
    if let Err(refusal) = note_seen(task, notes, &seen) {
        drop(seen);
        return Err(refusal);
    }
    if let Err(refusal) = check_nesting(task.flash, &mut notes.nesting) {
        drop(seen);
        return Err(refusal);
    }
    let nodes = targets(task.alloc, table, notes, seen.looks)?;
    Ok(nodes)
}

// The first family: the root's node after reset.
pub(crate) fn start(
    task: &Task<'_>,
    table: &mut Table,
    counted: &mut u64,
) -> Result<Vec<NodeKey>, AllocError>
    requires { table.old ≡ empty }
    ensures first { OnOk result (table.new ≡ first task.now.assumptions.now) }
    ensures count { OnOk result (counted.new ≡ cells table.new) }
    ensures kept { IfOk result (λ work. KeptBut empty table.new work.items) }
{
    *counted = 0;
    let state = task.root()?;
    let mut nodes = Vec::new(task.alloc);
    nodes.push(Node {
        key: NodeKey::entry(&InstKey::root()),
        state,
    })?;
    let work = join_all(task.alloc, table, counted, nodes)?;
    Ok(work)
}

// Spends one step of the budget.
fn spend(steps: Option<u64>, left: Option<u64>) -> Result<Option<u64>, Refusal>
    ensures ok { IfOk result (λ l. (n : ℕ) → IsBudgetLeft steps left n → IsBudgetLeft steps l (n + 1)) }
    ensures err { IfErr result (λ e. (n : ℕ) → IsBudgetLeft steps left n → IsSpent steps n e) }
{
    match (steps, left) {
        (Some(all), Some(0)) => Err(Refusal::Spent(all)),
        (Some(_), Some(some)) => Ok(Some(some - 1)),
        _ => Ok(None),
    }
}

/// The rounds so far. They go on from here.
#[derive(Drop)]
pub struct Rounds {
    /// The family.
    pub table: Table,
    /// The notes of its visits.
    pub notes: Notes,
    /// The nodes that the next round visits.
    pub work: Vec<NodeKey>,
    /// The family's cells.
    pub counted: u64,
    /// What is left of the budget.
    pub left: Option<u64>,
    /// What the visits cost.
    pub cost: u64,
}

/// The rounds before the first one.
pub fn begin(task: &Task<'_>, steps: Option<u64>) -> Result<Rounds, AllocError>
    ensures { IfOk result (λ r. AreUnderWay (task_of task.now) steps r) }
{
    let mut table = Table::new(task.alloc);
    let mut counted = 0;
    let work = start(task, &mut table, &mut counted)?;
    Ok(Rounds {
        table,
        notes: Notes::new(task.alloc),
        work,
        counted,
        left: steps,
        cost: 0,
    })
}

/// The family.
pub fn family_of(rounds: Rounds) -> Table
    ensures { result ≡ rounds.table }
{
    let Rounds { table, .. } = rounds;
    table
}

// One round. Returns whether the rounds end at the family.
fn play(task: &Task<'_>, steps: Option<u64>, rounds: &mut Rounds) -> Result<bool, Refusal>
    requires { AreUnderWay (task_of task.now) steps rounds.old }
    ensures found { IfOk result (λ ended. ended ≡ true → AreRoundsFound (task_of task.now) steps rounds.new.table) }
    ensures more { IfOk result (λ ended. ended ≡ false → AreUnderWay (task_of task.now) steps rounds.new) }
    ensures falls { IfOk result (λ ended. ended ≡ false → room rounds.new.table < room rounds.old.table) }
    ensures why_not { IfErr result (λ r. AreRoundsWithout (task_of task.now) steps r) }
{
    rounds.cost = rounds.cost.saturating_add(visits_cost(&rounds.work));
    let nodes = next_nodes(
        task,
        &rounds.table,
        rounds.counted,
        &rounds.work,
        &mut rounds.notes,
    )?;
    rounds.work = join_all(task.alloc, &mut rounds.table, &mut rounds.counted, nodes)?;
    if rounds.work.is_empty() {
        return Ok(true);
    }
    rounds.left = spend(steps, rounds.left)?;
    Ok(false)
}

// Whether repeated visits cost more than the limit: what all visits cost beyond one visit of each node.
fn is_late(limit: Option<u64>, rounds: &Rounds) -> bool
    ensures { result ≡ true → IsSome limit }
{
    match limit {
        Some(most) => {
            let once = table_cost(&rounds.table, rounds.counted);
            rounds.cost.saturating_sub(once) > most
        }
        None => false,
    }
}

/// Goes on with the rounds. Returns whether they come to their end, or why they end at no family within the budget. With a limit they also
/// stop as soon as repeated visits cost more.
pub fn go_on(
    task: &Task<'_>,
    steps: Option<u64>,
    limit: Option<u64>,
    rounds: &mut Rounds,
) -> Result<bool, Refusal>
    requires { AreUnderWay (task_of task.now) steps rounds.old }
    ensures found { IfOk result (λ ended. ended ≡ true → AreRoundsFound (task_of task.now) steps rounds.new.table) }
    ensures more { IfOk result (λ ended. ended ≡ false → AreUnderWay (task_of task.now) steps rounds.new) }
    ensures late { IfOk result (λ ended. ended ≡ false → IsSome limit) }
    ensures why_not { IfErr result (λ r. AreRoundsWithout (task_of task.now) steps r) }
{
    'each: loop {
        if is_late(limit, rounds) {
            return Ok(false);
        }
        if play(task, steps, rounds)? {
            return Ok(true);
        }
    }
}
