//! The effect of writing a byte to a known data address.

ghost use Rattle.std.specs.Prelude.{◌≡◌, ◌<◌, ◌∷◌, [], IfOk, IfErr};
ghost use Rattle.avr_model.specs.State.{REGISTERS};
ghost use Rattle.avr_model.specs.Written.{bits_of};
ghost use Rattle.sp_domain.specs.Slots.{resized};
ghost use Rattle.abs_state.specs.Ended.{written_hull};
ghost use Rattle.local_rules.specs.declared.local.NodeFault.TheVariants.{Memory};
ghost use Rattle.local_rules.specs.Registers.{forgotten};
ghost use Rattle.local_rules.specs.Writes as writes;
ghost use Rattle.abs_step.specs.Adding.{Adds};
ghost use Rattle.abs_step.specs.Sites.{write_of};
ghost use Rattle.abs_step.specs.Stores.{register_by, closing_by, flags_by, masks_by, each_masks};

use crate::moves::Moves;
use crate::site::ByteWrite;
use crate::successors::{add_copy, add_two, changed, copied};
use abs_state::{AbsFlags, AbsState, Registers, end_facts, hull_written};
use avr_model::device::{RAMPZ, REGISTERS, Special};
use bit_domain::Tri;
use local_reads::banks::stored_value;
use local_reads::stack_pointer::{closing_offset, high_part};
use local_rows::bits::I;
use local_rows::registers::set_at;
use local_rows::status::flags_written;
use local_rules::local::NodeFault;
use node_keys::{High, NodeKey, SpForm, split};
use pair_domain::Facts;
use sp_domain::CarryTag;
use std::alloc::Global;
use vector_table::Masks;

// A write of the high byte of the stack pointer.
fn opening(
    nodes: &mut Moves<'_>,
    alloc: Global,
    high: Option<High>,
    write: &ByteWrite<'_>,
) -> Result<(), NodeFault>
    ensures { Adds nodes.old nodes.new result (writes.opening high write.now.key write.now.state.now write.now.pc) }
{
    let key = write.key;
    match high {
        Some(high) => {
            let sp = SpForm::Open(key.sp.offset(), high);
            add_copy(nodes, alloc, NodeKey { sp, ..key }, write.state)
        }
        None => Err(NodeFault::UntrackedSp(write.pc)),
    }
}

/// The state with this many slots.
pub fn with_slots(alloc: Global, state: &AbsState, count: u16) -> Result<AbsState, NodeFault>
    ensures ok { IfOk result (λ s. s ≡ record state.now { slots = resized count state.now.slots }) }
    ensures err { IfErr result (λ e. e ≡ Memory) }
{
    let mut after = copied(alloc, state)?;
    after.slots.resize(count)?;
    Ok(after)
}

// A write of the low byte of the stack pointer.
fn closing(
    nodes: &mut Moves<'_>,
    alloc: Global,
    offset: Option<u16>,
    write: &ByteWrite<'_>,
) -> Result<(), NodeFault>
    ensures { Adds nodes.old nodes.new result (closing_by (write_of write.now) offset) }
{
    match offset {
        Some(n) => {
            if n > write.device.size() {
                return Err(NodeFault::TooDeep(write.pc, u32::from(n)));
            }
            let after = with_slots(alloc, write.state, n)?;
            let sp = SpForm::Closed(n);
            nodes.add(NodeKey { sp, ..write.key }, after)
        }
        None => Err(NodeFault::UntrackedSp(write.pc)),
    }
}

// The key with this I.
fn with_i(key: &NodeKey, is_out: bool, on: bool) -> NodeKey
    ensures { result ≡ writes.with_i key.now is_out on }
{
    NodeKey {
        i: on,
        delay: is_out && on && !key.i,
        ..*key
    }
}

// One successor for each of these enable bits.
fn add_masks(
    nodes: &mut Moves<'_>,
    alloc: Global,
    write: &ByteWrite<'_>,
    all: &[Masks],
) -> Result<(), NodeFault>
    ensures { Adds nodes.old nodes.new result (each_masks (write_of write.now) all.now) }
{
    for at in 0..all.len() {
        let masks = all[at];
        add_copy(nodes, alloc, NodeKey { masks, ..write.key }, write.state)?;
    }
    Ok(())
}

// A write of an address where vectors may be enabled: one successor for each value that the enable bits may have afterwards.
fn masks_written(
    nodes: &mut Moves<'_>,
    alloc: Global,
    write: &ByteWrite<'_>,
    address: u16,
) -> Result<(), NodeFault>
    ensures { Adds nodes.old nodes.new result (masks_by (write_of write.now) address) }
{
    let (key, bits) = (&write.key, &write.value.bits);
    let all = split(alloc, write.device, key.masks, address, bits)?;
    let added = add_masks(nodes, alloc, write, &all);
    drop(all);
    added
}

// The carry tag ends if it names the written register.
fn forgotten(carry: CarryTag, d: u16) -> CarryTag
    ensures { result ≡ forgotten (d ∷ []) carry }
{
    match carry {
        CarryTag::Less(r, _) => {
            if d == u16::from(r) {
                CarryTag::None
            } else {
                carry
            }
        }
        CarryTag::None | CarryTag::Borrow(_, _) | CarryTag::Sum(_, _) => carry,
    }
}

// A write of a register by its address. The register gets the byte's bits and tag; RAMPZ and EIND have fewer bits.
fn register_written(
    nodes: &mut Moves<'_>,
    alloc: Global,
    write: &ByteWrite<'_>,
    d: u16,
) -> Result<(), NodeFault>
    requires { d < REGISTERS }
    ensures { Adds nodes.old nodes.new result (register_by (write_of write.now) d) }
{
    let state = write.state;
    let value = stored_value(write.device, d, write.value);
    let registers = set_at(&state.registers, d, value);
    let flags = AbsFlags {
        carry: forgotten(state.flags.carry, d),
        ..state.flags
    };
    let mut after = changed(alloc, state, &registers, flags)?;
    end_facts(&mut after.facts, set_of(d), false, false);
    end_hull(&mut after.facts, &registers, d);
    nodes.add(write.key, after)
}

// The interval of the written register's pair; RAMPZ and EIND are in none.
fn end_hull(facts: &mut Facts, registers: &Registers, d: u16)
    requires { d < REGISTERS }
    ensures { facts.new ≡ written_hull registers.now d facts.old }
{
    facts.kept();
    if d < RAMPZ {
        hull_written(facts, registers, usize::from(d));
    }
}

// The set of one register, as a bit.
fn set_of(d: u16) -> u64
    requires { d < REGISTERS }
    ensures { result ≡ bits_of (d ∷ []) }
{
    1u64 << d
}

// A write of the status register by its address: one successor for each permitted value of I.
fn flags_set(
    nodes: &mut Moves<'_>,
    alloc: Global,
    write: &ByteWrite<'_>,
    is_out: bool,
) -> Result<(), NodeFault>
    ensures { Adds nodes.old nodes.new result (flags_by (write_of write.now) is_out) }
{
    let (state, value) = (write.state, write.value);
    let mut after = changed(alloc, state, &state.registers, flags_written(value))?;
    end_facts(&mut after.facts, 0, true, true);
    let off = with_i(&write.key, is_out, false);
    let on = with_i(&write.key, is_out, true);
    let added = match value.bits.bit(I) {
        Tri::Zero => add_copy(nodes, alloc, off, &after),
        Tri::One => add_copy(nodes, alloc, on, &after),
        Tri::Any => add_two(nodes, alloc, off, on, &after),
    };
    drop(after);
    added
}

/// Writes a byte to a known address, by `out` or another instruction.
#[tactic(auto, unfolding(local_rules::specs::Writes::written_at))]
pub fn written_at(
    nodes: &mut Moves<'_>,
    alloc: Global,
    write: &ByteWrite<'_>,
    is_out: bool,
    address: u16,
) -> Result<(), NodeFault>
    ensures { Adds nodes.old nodes.new result (writes.written_at (write_of write.now) is_out address) }
{
    if let Some(r) = write.device.register_at(address) {
        return register_written(nodes, alloc, write, r);
    }
    let (inst, sp) = (&write.key.inst, write.key.sp);
    match write.device.special(address) {
        Some(Special::Spl) => {
            let offset = closing_offset(write.device, inst.kind, sp, write.value);
            closing(nodes, alloc, offset, write)
        }
        Some(Special::Sph) => opening(nodes, alloc, high_part(inst.kind, write.value), write),
        Some(Special::Sreg) => flags_set(nodes, alloc, write, is_out),
        None => masks_written(nodes, alloc, write, address),
    }
}
