//! Answers of the table: the successors of a node, its calls and its return. Of states only what the node changes is printed.

use abs_state::{AbsByte, AbsState};
use local_rules::local::{Local, Node};
use node_keys::{High, NodeKey, SpForm};
use sp_domain::{CarryTag, Slot, Tag};
use std::io;

fn show_value(rt: &HostRuntime, value: AbsByte) -> io::Result<()> {
    match value.tag {
        Tag::None => print!(rt; "-")?,
        Tag::EntryFlags => print!(rt; "f")?,
        Tag::Entry(r) => print!(rt; "e{r:02X}")?,
        Tag::SpLo(j) => print!(rt; "l{j:02X}")?,
        Tag::SpHi(k) => print!(rt; "h{k:04X}")?,
    }
    let bits = value.bits;
    print!(rt;
        "{:02X}{:02X}{:02X}{:02X}",
        bits.known, bits.value, value.low, value.high
    )
}

fn show_key(rt: &HostRuntime, key: &NodeKey) -> io::Result<()> {
    let (i, delay) = (u8::from(key.i), u8::from(key.delay));
    print!(rt; "  to {:04X} {:07X} {i} {delay} ", key.pc, key.masks.bits())?;
    match key.sp {
        SpForm::Closed(offset) => print!(rt; "c{offset}")?,
        SpForm::Open(offset, High::Known(high)) => print!(rt; "o{offset},k{high:02X}")?,
        SpForm::Open(offset, High::Tag(k)) => print!(rt; "o{offset},t{k:04X}")?,
    }
    match key.pick {
        Some(byte) => print!(rt; " pick={byte:02X}"),
        None => Ok(()),
    }
}

fn show_registers(rt: &HostRuntime, state: &AbsState, before: &AbsState) -> io::Result<()> {
    let values = state.registers.iter().zip(before.registers.iter());
    for (r, (value, was)) in values.enumerate() {
        if value != was {
            print!(rt; " r{r}=")?;
            show_value(rt, *value)?;
        }
    }
    Ok(())
}

fn show_flags(rt: &HostRuntime, state: &AbsState, before: &AbsState) -> io::Result<()> {
    let (flags, was) = (state.flags, before.flags);
    match (was.entry, flags.entry) {
        (true, false) => print!(rt; " -entry")?,
        (false, true) => print!(rt; " entry")?,
        _ => {}
    }
    if flags.bits != was.bits {
        print!(rt; " flags=-{:02X}{:02X}", flags.bits.known, flags.bits.value)?;
    }
    if flags.carry == was.carry {
        return Ok(());
    }
    match flags.carry {
        CarryTag::None => print!(rt; " carry=-"),
        CarryTag::Borrow(j, k) => print!(rt; " carry=b{j:02X}{k:02X}"),
        CarryTag::Sum(j, k) => print!(rt; " carry=s{j:02X}{k:02X}"),
        CarryTag::Less(r, number) => print!(rt; " carry=c{r:02X}{number:02X}"),
    }
}

// A new slot is shown unless it is free.
fn show_slots(rt: &HostRuntime, state: &AbsState, before: &AbsState) -> io::Result<()> {
    for (d, slot) in state.slots.as_slice().iter().enumerate() {
        let was = before.slots.as_slice().get(d).copied();
        if *slot != was.unwrap_or(Slot::Free) {
            print!(rt; " s{d}=")?;
            match slot {
                Slot::Free => print!(rt; ".")?,
                Slot::Guarded(value) => show_value(rt, *value)?,
            }
        }
    }
    Ok(())
}

fn show_node(rt: &HostRuntime, node: &Node, before: &AbsState) -> io::Result<()> {
    show_key(rt, &node.key)?;
    show_registers(rt, &node.state, before)?;
    show_flags(rt, &node.state, before)?;
    show_slots(rt, &node.state, before)?;
    println!(rt; "")
}

/// Prints the successors of a node, from this state.
pub fn show(rt: &HostRuntime, found: &Local, before: &AbsState) -> io::Result<()> {
    let (same, calls) = (found.same.as_slice(), found.calls.as_slice());
    if same.is_empty() && calls.is_empty() && found.exit.is_none() {
        return println!(rt; "  nowhere");
    }
    for node in same {
        show_node(rt, node, before)?;
    }
    for site in calls {
        println!(rt; "  call {:04X} back {:04X}", site.entry, site.back)?;
    }
    if let Some(exit) = found.exit {
        let (i, delay) = (u8::from(exit.i), u8::from(exit.delay));
        println!(rt; "  exit {:07X} {i} {delay}", exit.masks.bits())?;
    }
    Ok(())
}
