//! The order on a table of keys.

use node_keys::{EdgeKind, High, InstKey, Kind, NodeKey, SpForm};
use row_tests::WorkedRow;
use std::alloc::Global;
use std::cmp::Ordering;
use vector_table::Masks;

// An instance: its kind, entry, masks and flag.
struct Inst(Kind, u32, u128, bool);

const ROOT: Inst = Inst(Kind::Root, 0, 0, false);

const CALL: Inst = Inst(Kind::Call, 1, 0, false);

fn inst_of(inst: &Inst) -> InstKey {
    InstKey {
        kind: inst.0,
        entry: inst.1,
        masks: Masks::from_bits(inst.2),
        i: inst.3,
    }
}

/// An instance, and its place.
pub struct InstPlace(u8, Inst);

const ALL_INSTANCES: &[InstPlace] = &[
    InstPlace(0, ROOT),
    InstPlace(1, Inst(Kind::Root, 0, 0, true)),
    InstPlace(2, Inst(Kind::Root, 0, 1, false)),
    InstPlace(3, Inst(Kind::Root, 1, 0, false)),
    InstPlace(4, Inst(Kind::Call, 0, 0, false)),
    InstPlace(5, Inst(Kind::Call, 9, 4, true)),
    InstPlace(6, Inst(Kind::Call, 9, 5, false)),
    InstPlace(7, Inst(Kind::Call, 9, 1 << 64, false)),
    InstPlace(8, Inst(Kind::Call, 0x1_0000, 0, false)),
    InstPlace(9, Inst(Kind::Vector(2), 2, 0, false)),
    InstPlace(10, Inst(Kind::Vector(3), 0, 0, false)),
];

/// Instances, which ascend by kind, entry, masks and flag.
pub static INSTANCES: [(&str, &[InstPlace]); 1] = [("instance", ALL_INSTANCES)];

// Whether two keys have this order, by both orders, and are equal by `==` exactly if the order says so.
fn is_order<K: Ord>(a: &K, b: &K, order: Ordering) -> bool {
    a.cmp(b) == order && a.partial_cmp(b) == Some(order) && (a == b) == order.is_eq()
}

impl WorkedRow for InstPlace {
    fn holds(&self, _alloc: Global) -> bool {
        let key = inst_of(&self.1);
        for other in ALL_INSTANCES {
            if !is_order(&key, &inst_of(&other.1), self.0.cmp(&other.0)) {
                return false;
            }
        }
        true
    }
}

/// A node's place, its instance, word, masks, flag, delay, stack pointer and pick.
pub struct NodePlace(u8, Inst, u32, u128, bool, bool, SpForm, Option<u8>);

fn node_of(node: &NodePlace) -> NodeKey {
    NodeKey {
        inst: inst_of(&node.1),
        pc: node.2,
        masks: Masks::from_bits(node.3),
        i: node.4,
        delay: node.5,
        sp: node.6,
        pick: node.7,
    }
}

const BASE: SpForm = SpForm::Closed(0);

const ALL_NODES: &[NodePlace] = &[
    NodePlace(0, ROOT, 0, 0, false, false, BASE, None),
    NodePlace(1, ROOT, 0, 0, false, false, BASE, Some(0)),
    NodePlace(2, ROOT, 0, 0, false, false, BASE, Some(255)),
    NodePlace(3, ROOT, 0, 0, false, false, SpForm::Closed(2), None),
    NodePlace(
        4,
        ROOT,
        0,
        0,
        false,
        false,
        SpForm::Open(0, High::Known(8)),
        None,
    ),
    NodePlace(
        5,
        ROOT,
        0,
        0,
        false,
        false,
        SpForm::Open(0, High::Known(9)),
        None,
    ),
    NodePlace(
        6,
        ROOT,
        0,
        0,
        false,
        false,
        SpForm::Open(0, High::Tag(0)),
        None,
    ),
    NodePlace(
        7,
        ROOT,
        0,
        0,
        false,
        false,
        SpForm::Open(1, High::Known(0)),
        None,
    ),
    NodePlace(8, ROOT, 0, 0, false, true, BASE, None),
    NodePlace(9, ROOT, 0, 0, true, false, BASE, None),
    NodePlace(10, ROOT, 0, 1, false, false, BASE, None),
    NodePlace(11, ROOT, 0, 1 << 75, false, false, BASE, None),
    NodePlace(12, ROOT, 7, 0, false, false, BASE, None),
    NodePlace(13, ROOT, 0x1_0000, 0, false, false, BASE, None),
    NodePlace(14, CALL, 0, 0, false, false, BASE, None),
    NodePlace(15, CALL, 1, 0, false, false, BASE, None),
];

/// Nodes, which ascend by instance and then by their fields.
pub static NODES: [(&str, &[NodePlace]); 1] = [("node", ALL_NODES)];

impl WorkedRow for NodePlace {
    fn holds(&self, _alloc: Global) -> bool {
        let key = node_of(self);
        for other in ALL_NODES {
            if !is_order(&key, &node_of(other), self.0.cmp(&other.0)) {
                return false;
            }
        }
        true
    }
}

/// An edge's kind, and its place.
pub struct EdgePlace(u8, EdgeKind);

const ALL_EDGES: &[EdgePlace] = &[
    EdgePlace(0, EdgeKind::Local),
    EdgePlace(1, EdgeKind::Call),
    EdgePlace(2, EdgeKind::Interrupt(7, false)),
    EdgePlace(3, EdgeKind::Interrupt(7, true)),
    EdgePlace(4, EdgeKind::Interrupt(8, false)),
    EdgePlace(5, EdgeKind::Return),
];

/// Edges, which ascend by kind and then by vector.
pub static EDGES: [(&str, &[EdgePlace]); 1] = [("edge", ALL_EDGES)];

impl WorkedRow for EdgePlace {
    fn holds(&self, _alloc: Global) -> bool {
        for other in ALL_EDGES {
            if !is_order(&self.1, &other.1, self.0.cmp(&other.0)) {
                return false;
            }
        }
        true
    }
}

// The first node of an instance, and a later one.
static PLACES: [NodePlace; 2] = [
    NodePlace(
        0,
        Inst(Kind::Vector(17), 32, 0x8001, false),
        32,
        0x8001,
        false,
        false,
        BASE,
        None,
    ),
    NodePlace(
        0,
        ROOT,
        4,
        0,
        false,
        false,
        SpForm::Open(2048, High::Known(1)),
        None,
    ),
];

// Whether this is the first node of its instance.
fn begins(place: &NodePlace) -> bool {
    let key = inst_of(&place.1);
    let begin = NodeKey::entry(&key);
    begin == node_of(place) && begin.inst == key && begin.offset() == 0
}

/// Whether an instance begins at its entry, and each form gives its offset.
pub fn is_begin() -> bool {
    let offsets = [
        SpForm::Closed(7).offset(),
        SpForm::Open(9, High::Tag(300)).offset(),
        node_of(&PLACES[1]).offset(),
    ];
    InstKey::root() == inst_of(&ALL_INSTANCES[0].1)
        && begins(&ALL_NODES[0])
        && begins(&ALL_NODES[15])
        && begins(&PLACES[0])
        && offsets == [7, 9, 2048]
}
