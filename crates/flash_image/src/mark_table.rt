//! Tables of marks, with a truth for each 16-bit number, and ascending lists of marks.

ghost use Rattle.std.specs.Prelude.{◌≡◌, ◌+◌, ◌*◌, ◌<◌, ◌++◌, ℕ, List, Some, IfOk, length};
ghost use Rattle.avr_model.specs.Devices.{Image};
ghost use Rattle.avr_model.specs.Marks.{loaded_number, pair_number, added_number, side_marks, usual_marks, device_marks};
ghost use Rattle.pair_domain.specs.Marks.{mark_below, mark_above, outward};
ghost use Rattle.flash_image.specs.Marked.{marked, IsTable, AreListed, IsListOfMarks, noted, AreLoads};

use avr_decode::is_pair;
use avr_model::device::Device;
use avr_model::instruction::{ImmediateInstr, ImmediateOp};
use pair_domain::Interval;
use std::alloc::{AllocError, Global};

// The number of 16-bit numbers.
pub(crate) const NUMBERS: usize = 65536;

// The number of pairs of a register and a byte: byte `b` of register `r` is number `256 * r + b`.
pub(crate) const LOADS: usize = 8192;

// The number of two bytes.
fn number(low: u8, high: u8) -> u16
    ensures { result ≡ 256 * high + low }
{
    256 * u16::from(high) + u16::from(low)
}

// Marks the number of both bytes, if the registers are a pair.
fn mark_pair(table: &mut [bool; NUMBERS], low: ImmediateInstr, high: ImmediateInstr)
    ensures { table.new ≡ marked table.old (pair_number low high) }
{
    if is_pair(low.register, high.register) {
        table[usize::from(number(low.byte, high.byte))] = true;
    }
}

// Marks the number that two instructions load into a pair.
#[tactic(auto, using(crate::proofs::Marked::marked_append))]
pub(crate) fn mark_loaded(
    table: &mut [bool; NUMBERS],
    first: ImmediateInstr,
    second: ImmediateInstr,
)
    ensures { table.new ≡ marked table.old (loaded_number first second) }
{
    if matches!(first.op, ImmediateOp::Ldi) && matches!(second.op, ImmediateOp::Ldi) {
        mark_pair(table, first, second);
        mark_pair(table, second, first);
    }
}

// Marks the number that two instructions add to a pair.
pub(crate) fn mark_added(table: &mut [bool; NUMBERS], first: ImmediateInstr, second: ImmediateInstr)
    ensures { table.new ≡ marked table.old (added_number first second) }
{
    if matches!(first.op, ImmediateOp::Subi)
        && matches!(second.op, ImmediateOp::Sbci)
        && is_pair(first.register, second.register)
    {
        table[usize::from(0u16.wrapping_sub(number(first.byte, second.byte)))] = true;
    }
}

// Notes the byte that an instruction loads into its register.
pub(crate) fn note_load(loads: &mut [bool; LOADS], load: ImmediateInstr)
    requires { load.register < 32 }
    ensures { loads.new ≡ noted loads.old (Some load) }
{
    if matches!(load.op, ImmediateOp::Ldi) {
        loads[256 * usize::from(load.register) + usize::from(load.byte)] = true;
    }
}

// Marks a low byte with each high byte that the program loads into a register, and with 0.
pub(crate) fn mark_side(table: &mut [bool; NUMBERS], loads: &[bool; LOADS], side: u16, low: u8)
    requires { side < 32 }
    ensures { (image : Image) → AreLoads image loads.now → table.new ≡ marked table.old (side_marks image low (Some side)) }
{
    table[usize::from(low)] = true;
    for high in 0..256 {
        if loads[256 * usize::from(side) + high] {
            table[256 * high + usize::from(low)] = true;
        }
    }
}

// Marks the marks of every program, and those of the device.
pub(crate) fn mark_usual(table: &mut [bool; NUMBERS], device: Device)
    ensures { table.new ≡ marked table.old (usual_marks ++ device_marks device) }
{
    table[0] = true;
    table[0x7FFF] = true;
    table[0x8000] = true;
    table[0xFFFF] = true;
    for page in 0..9 {
        table[256 * page + 255] = true;
        table[256 * page + 256] = true;
    }
    let start = usize::from(device.io_end());
    table[start] = true;
    table[start + 1] = true;
    let end = usize::from(device.ramend());
    table[end] = true;
    table[end + 1] = true;
}

// The greatest mark up to `x`, or 0.
fn below(table: &[bool], x: u16) -> u16
    requires { length table.now ≡ NUMBERS }
    ensures { (ms : List ℕ) → IsTable ms table.now → result ≡ mark_below ms x }
{
    let mut at = x;
    while !table[usize::from(at)] {
        if at == 0 {
            return 0;
        }
        at -= 1;
    }
    at
}

// The least mark from `x` on, or 65,535.
fn above(table: &[bool], x: u16) -> u16
    requires { length table.now ≡ NUMBERS }
    ensures { (ms : List ℕ) → IsTable ms table.now → result ≡ mark_above ms x }
{
    let mut at = x;
    while !table[usize::from(at)] {
        if at == 0xFFFF {
            return 0xFFFF;
        }
        at += 1;
    }
    at
}

// The interval, widened outwards to the nearest marks.
pub(crate) fn widened(table: &[bool], interval: Interval) -> Interval
    requires { length table.now ≡ NUMBERS }
    ensures { (ms : List ℕ) → IsTable ms table.now → result ≡ outward ms interval }
{
    Interval {
        low: below(table, interval.low),
        high: above(table, interval.high),
    }
}

// The numbers that are marked, ascending.
pub(crate) fn listed(alloc: Global, table: &[bool]) -> Result<Vec<u16>, AllocError>
    requires { length table.now ≡ NUMBERS }
    ensures { IfOk result (λ list. AreListed table.now list.items) }
{
    let mut list = Vec::new(alloc);
    for at in 0..table.len() {
        if table[at] {
            list.push(at as u16)?;
        }
    }
    Ok(list)
}

// The greatest of ascending marks up to `x`, or 0.
fn last_to(marks: &[u16], x: u16) -> u16
    ensures { (ms : List ℕ) → IsListOfMarks ms marks.now → result ≡ mark_below ms x }
{
    let count = marks.partition_point(|mark| *mark <= x);
    if count == 0 { 0 } else { marks[count - 1] }
}

// The least of ascending marks from `x` on, or 65,535.
fn first_from(marks: &[u16], x: u16) -> u16
    ensures { (ms : List ℕ) → IsListOfMarks ms marks.now → result ≡ mark_above ms x }
{
    let at = marks.partition_point(|mark| *mark < x);
    if at < marks.len() { marks[at] } else { 0xFFFF }
}

// The interval, widened outwards to the nearest of ascending marks. Each end is found by bisection.
pub(crate) fn widened_by(marks: &[u16], interval: Interval) -> Interval
    ensures { (ms : List ℕ) → IsListOfMarks ms marks.now → result ≡ outward ms interval }
{
    Interval {
        low: last_to(marks, interval.low),
        high: first_from(marks, interval.high),
    }
}
