//! Families of small firmwares, worked by hand: the successors of nodes, or their faults.

ghost use Rattle.std.specs.Prelude.{◌≡◌, ◌<◌, false, length, IfSome};
ghost use Rattle.avr_model.specs.Devices.{device_of};
ghost use Rattle.edge_rules.specs.Expansion.{AreSeeds};
ghost use Rattle.edge_laws.specs.Expansions.{AreSeedsAscending};

use crate::tests::seeds::{Plan, SeedList, seeds_of};
use avr_model::device::Device;
use avr_model::listed::Listed;
use family_edges::{
    Edge, EdgeKind, Expanded, Filled, Leaving, Task, exits, expand, next, next_with,
};
use flash_image::Flash;
use local_rules::NodeFault;
use node_keys::Kind;
use row_tests::WorkedRow;
use std::alloc::Global;
use vector_table::Assumptions;

// The expected result: edges, by kind and target word; the node's fault; or the first node without an expansion.
enum Due {
    Edges(&'static [(EdgeKind, u32)]),
    Fault(NodeFault),
    Missing(u32),
}

/// A device, a firmware's bytes, nodes, the number of one of them, and the expected result.
pub struct Row(Device, &'static [u8], &'static [Plan], usize, Due);

fn are_edges(edges: &Listed<Edge>, due: &[(EdgeKind, u32)]) -> bool {
    let found = edges.as_slice();
    if found.len() != due.len() {
        return false;
    }
    for at in 0..found.len() {
        if found[at].kind != due[at].0 || found[at].to.pc != due[at].1 {
            return false;
        }
    }
    true
}

fn has_edges(due: &Due, edges: &Listed<Edge>) -> bool {
    match due {
        Due::Edges(due) => are_edges(edges, due),
        _ => false,
    }
}

fn has_fault(due: &Due, fault: NodeFault) -> bool {
    match due {
        Due::Fault(due) => fault == *due,
        _ => false,
    }
}

// Whether the node has the expected successors.
fn leads(task: &Task<'_>, filled: &Filled, at: usize, due: &Due) -> bool
    requires { at < length filled.now }
{
    match next(task, filled, at) {
        Ok(edges) => has_edges(due, &edges),
        Err(fault) => has_fault(due, fault),
    }
}

// The same with exits computed once.
fn leads_by_exits(task: &Task<'_>, filled: &Filled, at: usize, due: &Due) -> bool
    requires { at < length filled.now }
{
    match exits(task, filled) {
        Ok(Leaving::All(exits)) => match next_with(task, filled, at, &exits) {
            Ok(edges) => has_edges(due, &edges),
            Err(_) => false,
        },
        Ok(Leaving::Fault(first, fault)) => first == at && has_fault(due, fault),
        Err(_) => false,
    }
}

fn is_whole(task: &Task<'_>, filled: &Filled, at: usize, due: &Due) -> bool {
    at < filled.count()
        && filled.find(filled.key(at)) == Some(at)
        && leads(task, filled, at, due)
        && leads_by_exits(task, filled, at, due)
}

fn is_missing(due: &Due, missing: u32) -> bool {
    match due {
        Due::Missing(due) => missing == *due,
        _ => false,
    }
}

// Whether the family of these nodes is as expected.
fn is_family(alloc: Global, flash: &Flash, nodes: &SeedList, at: usize, due: &Due) -> bool
    requires seeds { AreSeeds (device_of flash.now) false nodes.now.items.items }
    requires ascending { AreSeedsAscending nodes.now.items.items }
{
    let none = Assumptions::empty(alloc);
    let task = Task {
        alloc,
        flash,
        assumptions: &none,
    };
    match expand(&task, nodes) {
        Ok(Expanded::Whole(filled)) => is_whole(&task, &filled, at, due),
        Ok(Expanded::Missing(missing)) => is_missing(due, missing),
        Err(_) => false,
    }
}

fn is_on(alloc: Global, flash: &Flash, row: &Row) -> bool {
    match seeds_of(alloc, flash.device(), row.2) {
        Ok(Some(nodes)) => is_family(alloc, flash, &nodes, row.3, &row.4),
        _ => false,
    }
}

// The flash of a device that begins with these bytes.
pub(crate) fn flash_on(alloc: Global, device: Device, bytes: &[u8]) -> Option<Flash>
    ensures { IfSome result (λ flash. device_of flash ≡ device) }
{
    match Flash::from_raw(alloc, device, bytes) {
        Ok(whole) => whole.narrow(device).ok(),
        Err(_) => None,
    }
}

impl WorkedRow for Row {
    fn holds(&self, alloc: Global) -> bool {
        match flash_on(alloc, self.0, self.1) {
            Some(flash) => is_on(alloc, &flash, self),
            None => false,
        }
    }
}

// rcall to word 2, which returns; rjmp to itself
const CALL: &[u8] = &[0x01, 0xD0, 0xFF, 0xCF, 0x08, 0x95];

const CALL_NODES: &[Plan] = &[
    Plan(Kind::Root, 0, false, 0, None),
    Plan(Kind::Root, 0, false, 1, None),
    Plan(Kind::Call, 2, false, 2, None),
];

// rjmp to itself; vector 2 is reti
const LOOP: &[u8] = &[0xFF, 0xCF, 0, 0, 0x18, 0x95];

const LOOP_NODES: &[Plan] = &[
    Plan(Kind::Root, 0, true, 0, None),
    Plan(Kind::Vector(2), 2, true, 2, None),
];

// nop; rjmp to itself
const LINE: &[u8] = &[0, 0, 0xFF, 0xCF];

pub static ROWS: [(&str, &[Row]); 1] = [(
    "edges",
    &[
        Row(
            Device::M328,
            CALL,
            CALL_NODES,
            0,
            Due::Edges(&[(EdgeKind::Call, 2), (EdgeKind::Return, 1)]),
        ),
        Row(Device::M328, CALL, CALL_NODES, 2, Due::Edges(&[])),
        Row(
            Device::M328,
            LOOP,
            LOOP_NODES,
            0,
            Due::Edges(&[
                (EdgeKind::Local, 0),
                (EdgeKind::Interrupt(2, false), 2),
                (EdgeKind::Interrupt(7, false), 12),
                (EdgeKind::Interrupt(7, true), 12),
                (EdgeKind::Return, 0),
            ]),
        ),
        // a vector has one word
        Row(
            Device::M48,
            &[0xFF, 0xCF, 0x18, 0x95],
            &[
                Plan(Kind::Root, 0, true, 0, None),
                Plan(Kind::Vector(2), 1, true, 1, None),
            ],
            0,
            Due::Edges(&[
                (EdgeKind::Local, 0),
                (EdgeKind::Interrupt(2, false), 1),
                (EdgeKind::Interrupt(7, false), 6),
                (EdgeKind::Interrupt(7, true), 6),
                (EdgeKind::Return, 0),
            ]),
        ),
        Row(
            Device::M328,
            LINE,
            &[
                Plan(Kind::Root, 0, false, 0, None),
                Plan(Kind::Root, 0, false, 1, Some((0, 0))),
            ],
            0,
            Due::Edges(&[(EdgeKind::Local, 1)]),
        ),
        Row(
            Device::M328,
            LINE,
            &[
                Plan(Kind::Root, 0, false, 0, None),
                Plan(Kind::Root, 0, false, 2, Some((0, 0))),
            ],
            0,
            Due::Missing(1),
        ),
        Row(
            Device::M328,
            &[0xFF, 0xFF],
            &[Plan(Kind::Root, 0, false, 0, None)],
            0,
            Due::Fault(NodeFault::Unsupported(0)),
        ),
    ],
)];
