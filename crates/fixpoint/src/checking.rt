//! The tests of a round.

ghost use Rattle.std.specs.Prelude.{◌≡◌, ◌≢◌, ◌≤◌, length, Contains, None, IfErr, OnOk};
ghost use Rattle.std.specs.FinMap.{len};
ghost use Rattle.avr_model.specs.Devices.{device_of};
ghost use Rattle.avr_model.specs.State.{SIZE};
ghost use Rattle.node_keys.specs.Keys.{offset_of};
ghost use Rattle.certificate.specs.Claims.{most_nodes};
ghost use Rattle.round_nesting.specs.Nestings.{AreAlike, AreOnce, TellsAll};
ghost use Rattle.round_nesting.specs.declared.verdict.NestingVerdict.TheVariants.{Nests};
ghost use Rattle.round_rules.specs.declared.refusal.Refusal.TheVariants.{Memory};
ghost use Rattle.round_rules.specs.Families.{cells, FitsLimits};
ghost use Rattle.round_steps.specs.declared.looking.Look as look_type;
ghost use Rattle.round_steps.specs.Notings.{AreNoted};
ghost use Rattle.fixpoint.specs.Checks.{IsTooLarge, IsFaulty, IsVerdictTold};

use certificate::{Limit, MOST_CELLS, MOST_NODES};
use family_edges::Task;
use flash_image::Flash;
use local_rules::NodeFault;
use round_nesting::{Nesting, NestingVerdict};
use round_rules::Refusal;
use round_steps::{Notes, SeenState};
use round_table::Table;

/// Checks that the nodes, and then the cells, are within the limits.
pub fn check_size(table: &Table, counted: u64) -> Result<(), Refusal>
    requires { counted ≡ cells table.now }
    ensures fits { OnOk result (FitsLimits table.now) }
    ensures over { IfErr result (λ r. IsTooLarge table.now r) }
{
    if table.len() as u64 > MOST_NODES {
        return Err(Refusal::TooLarge(Limit::Nodes));
    }
    if counted > MOST_CELLS {
        return Err(Refusal::TooLarge(Limit::Cells));
    }
    Ok(())
}

/// Notes the results of visits, unless a node has a fault.
pub fn note_seen(task: &Task<'_>, notes: &mut Notes, seen: &SeenState) -> Result<(), Refusal>
    requires small { (x : look_type.Look) → Contains seen.now.looks.items x → offset_of x.key.sp ≤ SIZE }
    requires once { AreOnce notes.old.nesting.insts }
    ensures none { OnOk result (seen.now.worst ≡ None) }
    ensures noted { OnOk result (AreNoted task.now.assumptions.now notes.old seen.now.looks.items notes.new) }
    ensures once { OnOk result (AreOnce notes.new.nesting.insts) }
    ensures fault { IfErr result (λ r. r ≢ Memory → IsFaulty seen.now.worst r) }
{
    match seen.worst {
        Some(NodeFault::Memory) => Err(Refusal::Memory),
        Some(fault) => Err(Refusal::Node(fault)),
        None => {
            notes.note_all(task, &seen.looks)?;
            Ok(())
        }
    }
}

/// Checks that no instance is on a cycle, and that the root's need is at most the size of the device's SRAM.
pub fn check_nesting(flash: &Flash, nesting: &mut Nesting) -> Result<(), Refusal>
    requires { length nesting.old.insts ≤ most_nodes }
    ensures nests { OnOk result (TellsAll (device_of flash.now) nesting.old Nests) }
    ensures told { IfErr result (λ r. r ≢ Memory → IsVerdictTold (device_of flash.now) nesting.old r) }
    ensures same { AreAlike nesting.old nesting.new }
    ensures once { AreOnce nesting.new.insts }
{
    match nesting.judge(flash.device())? {
        NestingVerdict::Nests => Ok(()),
        NestingVerdict::ReEntry(vector, word) => Err(Refusal::ReEntry(vector, word)),
        NestingVerdict::Recursion(word) => Err(Refusal::Recursion(word)),
        NestingVerdict::TooDeep(need) => Err(Refusal::Node(NodeFault::TooDeep(0, need))),
    }
}
