//! Families of small firmwares, worked by hand: states that are left out.

ghost use Rattle.std.specs.Prelude.{◌≤◌, false, length};
ghost use Rattle.avr_model.specs.Devices.{device_of};
ghost use Rattle.edge_rules.specs.Expansion.{AreSeeds};
ghost use Rattle.edge_laws.specs.Expansions.{AreSeedsAscending};
ghost use Rattle.family_edges.specs.Landings.{AreLandings};
ghost use Rattle.family_edges.specs.Tasks.{task_of};

use crate::tests::seeds::{Plan, SeedList, seeds_of};
use avr_model::device::Device;
use family_edges::{Expanded, Filled, Leaving, NodeForm, Task, WorkedOut as Family, exits, expand};
use fixpoint::forming::forms;
use flash_image::Flash;
use node_keys::{Kind, NodeKey};
use row_tests::WorkedRow;
use std::alloc::Global;
use vector_table::Assumptions;

/// A firmware's bytes, its nodes, and for each the number of the node that it is written with.
pub struct Row(&'static [u8], &'static [Plan], &'static [Option<u32>]);

fn is_form(form: &NodeForm, due: Option<u32>) -> bool {
    match (form, due) {
        (NodeForm::State(_), None) => true,
        (NodeForm::From(from), Some(due)) => *from == due,
        _ => false,
    }
}

fn are_forms(found: &[(NodeKey, NodeForm)], due: &[Option<u32>]) -> bool {
    if found.len() != due.len() {
        return false;
    }
    for at in 0..found.len() {
        if !is_form(&found[at].1, due[at]) {
            return false;
        }
    }
    true
}

fn is_written(task: &Task<'_>, family: Family, due: &[Option<u32>]) -> bool
    requires few { length family.nodes ≤ 65536 }
    requires landings { AreLandings (task_of task.now) family.nodes family.landings }
{
    match forms(task, family) {
        Ok(found) => are_forms(&found, due),
        Err(_) => false,
    }
}

fn is_formed(task: &Task<'_>, nodes: Filled, due: &[Option<u32>]) -> bool
    requires { length nodes ≤ 65536 }
{
    match exits(task, &nodes) {
        Ok(Leaving::All(_)) => match Family::of(task, nodes) {
            Ok(family) => is_written(task, family, due),
            Err(_) => false,
        },
        _ => false,
    }
}

// Whether the family of these nodes is written as expected.
fn is_family(alloc: Global, flash: &Flash, nodes: &SeedList, due: &[Option<u32>]) -> bool
    requires seeds { AreSeeds (device_of flash.now) false nodes.now.items.items }
    requires ascending { AreSeedsAscending nodes.now.items.items }
{
    let none = Assumptions::empty(alloc);
    let task = Task {
        alloc,
        flash,
        assumptions: &none,
    };
    match expand(&task, nodes) {
        Ok(Expanded::Whole(filled)) => is_formed(&task, filled, due),
        _ => false,
    }
}

fn is_on(alloc: Global, flash: &Flash, row: &Row) -> bool {
    match seeds_of(alloc, flash.device(), row.1) {
        Ok(Some(nodes)) => is_family(alloc, flash, &nodes, row.2),
        _ => false,
    }
}

impl WorkedRow for Row {
    fn holds(&self, alloc: Global) -> bool {
        match Flash::from_raw(alloc, Device::M328, self.0) {
            Ok(flash) => is_on(alloc, &flash, self),
            Err(_) => false,
        }
    }
}

pub static ROWS: [(&str, &[Row]); 1] = [(
    "states left out",
    &[
        // push r0; pop r0; rjmp to word 0
        Row(
            &[0x0F, 0x92, 0x0F, 0x90, 0xFD, 0xCF],
            &[
                Plan(Kind::Root, 0, false, 0, None),
                Plan(Kind::Root, 0, false, 1, Some((0, 1))),
                Plan(Kind::Root, 0, false, 2, Some((1, 0))),
            ],
            &[None, Some(0), Some(1)],
        ),
        // rcall to word 2, which returns; rjmp to itself
        Row(
            &[0x01, 0xD0, 0xFF, 0xCF, 0x08, 0x95],
            &[
                Plan(Kind::Root, 0, false, 0, None),
                Plan(Kind::Root, 0, false, 1, None),
                Plan(Kind::Call, 2, false, 2, None),
            ],
            &[None, None, None],
        ),
        // sbrc r0, 0 over nop; rjmp to itself
        Row(
            &[0x00, 0xFC, 0, 0, 0xFF, 0xCF],
            &[
                Plan(Kind::Root, 0, false, 0, None),
                Plan(Kind::Root, 0, false, 1, None),
                Plan(Kind::Root, 0, false, 2, None),
            ],
            &[None, Some(0), None],
        ),
        // rjmp to word 2; rjmp to word 0; rjmp to word 1
        Row(
            &[0x01, 0xC0, 0xFE, 0xCF, 0xFE, 0xCF],
            &[
                Plan(Kind::Root, 0, false, 0, None),
                Plan(Kind::Root, 0, false, 1, None),
                Plan(Kind::Root, 0, false, 2, None),
            ],
            &[None, None, Some(0)],
        ),
    ],
)];
