//! Verdicts on a small firmware, worked by hand: a call, a jump to itself after it, and the callee's return.

ghost use Rattle.std.specs.Prelude.{◌≡◌, IfOk};
ghost use Rattle.edge_rules.specs.Examples.{callee};
ghost use Rattle.family_tables.specs.Examples.{form_by, nodes_by, insts_by};

use super::edges::flash_on;
use abs_state::AbsState;
use avr_model::device::Device;
use cert_check::{Judgement, Reason, is_attained, judge};
use certificate::{Certificate, HeldState, Inst, NodeForm};
use family_edges::Task;
use flash_image::Flash;
use node_keys::{InstKey, Kind, NodeKey};
use row_tests::WorkedRow;
use std::alloc::{AllocError, Global};
use vector_table::{Assumptions, Entry, Masks};

// `rcall .+2`, `rjmp .-2`, `ret`.
const CALL: [u8; 6] = [0x01, 0xD0, 0xFF, 0xCF, 0x08, 0x95];

// The same with a `nop` after the call.
const RUN_ON: [u8; 6] = [0x01, 0xD0, 0x00, 0x00, 0x08, 0x95];

// The same with an undefined word as the callee.
const UNDEFINED: [u8; 6] = [0x01, 0xD0, 0xFF, 0xCF, 0x01, 0x00];

// The same with a `nop` instead of the call.
const NO_CALL: [u8; 6] = [0x00, 0x00, 0xFF, 0xCF, 0x08, 0x95];

/// An image and a certificate for it, and the verdict.
pub struct Row {
    // The device of the image, and that of the certificate.
    device: Device,
    claimed: Device,
    image: [u8; 6],
    // Whether the call has an assumption that the certificate lacks.
    assumed: bool,
    // Whether the node after the call comes from the one before it.
    from: bool,
    // The bound, at most 2,048.
    bound: u16,
    // The root's rank and need, at most 2,048.
    rank: u16,
    need: u16,
    // The number of the reason, or 0; then its numbers, or the bound.
    verdict: (u8, u32, u32),
}

fn told(verdict: &Judgement<u16>) -> (u8, u32, u32) {
    match verdict {
        Judgement::Accepted(bound) => (0, u32::from(*bound), 0),
        Judgement::Rejected(reason) => told_of(reason),
    }
}

fn told_of(reason: &Reason) -> (u8, u32, u32) {
    match reason {
        Reason::Root => (1, 0, 0),
        Reason::Node(node, cause) => (2, *node, u32::from(*cause)),
        Reason::Edge(node, to) => (3, *node, to.pc),
        Reason::Rank(inst, entered) => (4, *inst, *entered),
        Reason::Need(inst, need) => (5, *inst, *need),
        Reason::Bound(need) => (6, *need, 0),
        Reason::Assumptions => (7, 0, 0),
        Reason::Expansion(node) => (9, *node, 0),
        Reason::Device => (10, 0, 0),
    }
}

// The callee, at word 2.
fn callee() -> InstKey
    ensures { result ≡ callee }
{
    InstKey {
        kind: Kind::Call,
        entry: 2,
        masks: Masks::none(),
        i: false,
    }
}

// How the state after the call is given.
fn form(alloc: Global, from: bool) -> Result<NodeForm, AllocError>
    ensures { IfOk result (λ form. form ≡ form_by from) }
{
    if from {
        return Ok(NodeForm::From(0));
    }
    let root = HeldState::new(alloc, AbsState::root(alloc))?;
    Ok(NodeForm::State(root))
}

// The nodes: the call, the word after the call, and the callee.
fn nodes(alloc: Global, from: bool) -> Result<Vec<(NodeKey, NodeForm)>, AllocError>
    ensures { IfOk result (λ nodes. nodes.items ≡ nodes_by from) }
{
    let reset = NodeKey::entry(&InstKey::root());
    let mut behind = reset;
    behind.pc = 1;
    let root = form(alloc, false)?;
    let next = form(alloc, from)?;
    let inside = HeldState::new(alloc, AbsState::root(alloc).entered(alloc)?)?;
    let mut nodes = Vec::new(alloc);
    nodes.push((reset, root))?;
    nodes.push((behind, next))?;
    nodes.push((NodeKey::entry(&callee()), NodeForm::State(inside)))?;
    Ok(nodes)
}

// The root with this rank and need, and the callee.
fn instances(alloc: Global, rank: u16, need: u16) -> Result<Vec<Inst>, AllocError>
    ensures { IfOk result (λ instances. instances.items ≡ insts_by rank need) }
{
    let root = Inst {
        key: InstKey::root(),
        rank: u32::from(rank),
        need: u32::from(need),
    };
    let entered = Inst {
        key: callee(),
        rank: 0,
        need: 0,
    };
    let mut instances = Vec::new(alloc);
    instances.push(root)?;
    instances.push(entered)?;
    Ok(instances)
}

// The row's certificate.
fn certificate(alloc: Global, row: &Row) -> Result<Certificate, AllocError> {
    let bound = row.bound.min(2048);
    let rank = row.rank.min(2048);
    let need = row.need.min(2048);
    let instances = instances(alloc, rank, need)?;
    let nodes = nodes(alloc, row.from)?;
    Ok(Certificate::build(
        row.claimed,
        bound,
        Assumptions::empty(alloc),
        instances,
        nodes,
    ))
}

// The verdict on a certificate in numbers, whether or not a schedule attains its bound.
fn verdict_in_numbers(
    task: &Task<'_>,
    certificate: &Certificate,
) -> Result<(u8, u32, u32), AllocError> {
    match judge(task, certificate) {
        Ok(verdict) if is_attained(task, certificate) => Ok(told(&verdict)),
        Ok(_) => Ok((8, 0, 0)),
        Err(fault) => Err(fault),
    }
}

// The assumptions of the call: one, or none.
fn assumptions(alloc: Global, assumed: bool) -> Assumptions {
    let mut list = Assumptions::empty(alloc);
    if assumed {
        let _pushed = list.push(Entry::Prove(0));
    }
    list
}

// Whether the verdict on this certificate is that of the row.
fn is_judged(alloc: Global, flash: &Flash, certificate: &Certificate, row: &Row) -> bool {
    let assumptions = assumptions(alloc, row.assumed);
    let task = Task {
        alloc,
        flash,
        assumptions: &assumptions,
    };
    match verdict_in_numbers(&task, certificate) {
        Ok(verdict) => verdict == row.verdict,
        Err(_) => false,
    }
}

fn is_on(alloc: Global, flash: &Flash, row: &Row) -> bool {
    match certificate(alloc, row) {
        Ok(certificate) => is_judged(alloc, flash, &certificate, row),
        Err(_) => false,
    }
}

impl WorkedRow for Row {
    fn holds(&self, alloc: Global) -> bool {
        match flash_on(alloc, self.device, &self.image) {
            Some(flash) => is_on(alloc, &flash, self),
            None => false,
        }
    }
}

// A row on the greatest device, with neither an assumption nor a node that comes from another.
const PLAIN: Row = Row {
    device: Device::M328,
    claimed: Device::M328,
    image: CALL,
    assumed: false,
    from: false,
    bound: 0,
    rank: 0,
    need: 0,
    verdict: (0, 0, 0),
};

pub static ROWS: [(&str, &[Row]); 1] = [(
    "verdict",
    &[
        Row {
            bound: 2,
            rank: 1,
            need: 2,
            verdict: (0, 2, 0),
            ..PLAIN
        },
        Row {
            bound: 7,
            rank: 9,
            need: 3,
            verdict: (0, 7, 0),
            ..PLAIN
        },
        Row {
            image: RUN_ON,
            bound: 2,
            rank: 0,
            need: 1,
            verdict: (3, 1, 2),
            ..PLAIN
        },
        Row {
            image: UNDEFINED,
            bound: 2,
            rank: 0,
            need: 1,
            verdict: (2, 2, 5),
            ..PLAIN
        },
        Row {
            bound: 1,
            rank: 0,
            need: 1,
            verdict: (4, 0, 1),
            ..PLAIN
        },
        Row {
            bound: 0,
            rank: 1,
            need: 1,
            verdict: (5, 0, 2),
            ..PLAIN
        },
        Row {
            bound: 1,
            rank: 1,
            need: 2,
            verdict: (6, 2, 0),
            ..PLAIN
        },
        Row {
            image: NO_CALL,
            bound: 0,
            rank: 0,
            need: 0,
            verdict: (0, 0, 0),
            ..PLAIN
        },
        // a bound of exactly the least SRAM, and of one more
        Row {
            device: Device::M48,
            claimed: Device::M48,
            bound: 512,
            rank: 1,
            need: 2,
            verdict: (0, 512, 0),
            ..PLAIN
        },
        Row {
            device: Device::M48,
            claimed: Device::M48,
            bound: 513,
            rank: 1,
            need: 2,
            verdict: (6, 2, 0),
            ..PLAIN
        },
        // for another device than the image's, which comes before all else
        Row {
            claimed: Device::M48,
            bound: 2,
            rank: 1,
            need: 2,
            verdict: (10, 0, 0),
            ..PLAIN
        },
        Row {
            device: Device::M48,
            from: true,
            bound: 0,
            rank: 0,
            need: 0,
            verdict: (10, 0, 0),
            ..PLAIN
        },
        Row {
            assumed: true,
            bound: 2,
            rank: 1,
            need: 2,
            verdict: (7, 0, 0),
            ..PLAIN
        },
        Row {
            from: true,
            bound: 0,
            rank: 0,
            need: 0,
            verdict: (9, 1, 0),
            ..PLAIN
        },
        Row {
            image: NO_CALL,
            from: true,
            bound: 0,
            rank: 0,
            need: 0,
            verdict: (0, 0, 0),
            ..PLAIN
        },
    ],
)];
