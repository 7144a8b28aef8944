//! The instruction table: successors, calls and return of each instruction.

ghost use Rattle.std.specs.Prelude.{◌<◌};
ghost use Rattle.local_rules.specs.Local.{binary_row, flow_row, memory_row, row_of};
ghost use Rattle.abs_step.specs.Adding.{Adds};
ghost use Rattle.abs_step.specs.Leading.{LeadsOn};
ghost use Rattle.abs_step.specs.Sites.{task_of, site_of};

use crate::bits::{bit_row, flag_row};
use crate::data_transfer::{
    elpm_row, extended_moved, known_write, load_row, lpm_row, read_row, store_row,
};
use crate::flow::{
    Outgoing, calling, flag_branch, indirect_call, jumping, port_skip, relative_call, returning,
    skipping, staying,
};
use crate::moves::Moves;
use crate::pointer_stores::{Indirect, pointer_write};
use crate::site::Site;
use crate::stack::{is_free, pop_row, push_row};
use crate::successors::{going_to, setting};
use avr_decode::{far, near};
use avr_model::device::EIND;
use avr_model::instruction::{BinaryOp, Instr, Pointer, Register};
use bit_domain::TriByte;
use local_reads::flow::{further, port, register_bit};
use local_reads::pointers::step_before;
use local_rows::registers::{bits, value_at};
use local_rows::rows::{binary_at, computed_by};
use local_rows::transfer::{base_register, pointer_moved, pointer_register};
use local_rules::local::{Exit, NodeFault};

// Control flow, and instructions without operands.
fn flow_row(
    nodes: &mut Moves<'_>,
    site: &Site<'_>,
    scratch: bool,
    instr: &Instr,
) -> Result<Outgoing, NodeFault>
    ensures { LeadsOn nodes.old nodes.new result (flow_row (task_of site.now) scratch (site_of site.now) instr.now) }
{
    let (a, device) = (site.alloc, site.device);
    let (key, state) = (site.key, site.state);
    let added = match instr {
        Instr::Ijmp => jumping(nodes, site, TriByte::of(0)),
        Instr::Icall => return indirect_call(site, TriByte::of(0)),
        Instr::Eijmp => jumping(nodes, site, value_at(&state.registers, EIND).bits),
        Instr::Eicall => {
            let bank = value_at(&state.registers, EIND).bits;
            return indirect_call(site, bank);
        }
        Instr::Ret => {
            let (masks, i, delay) = (key.masks, key.i, false);
            return returning(site, Exit { masks, i, delay });
        }
        Instr::Reti => {
            let (masks, i, delay) = (key.masks, true, true);
            return returning(site, Exit { masks, i, delay });
        }
        Instr::Jmp(t) => going_to(nodes, site, device.wrap(*t)),
        Instr::Call(t) => {
            let targets = [device.wrap(*t)];
            return calling(a, key, further(device, key, 2), &targets);
        }
        Instr::Rjmp(t) => going_to(nodes, site, device.wrap(far(key.pc, t.get()))),
        Instr::Rcall(t) => {
            let target = device.wrap(far(key.pc, t.get()));
            return relative_call(nodes, site, scratch, target);
        }
        Instr::Brbs(n, t) => {
            let words = (device.wrap(near(key.pc, t.get())), further(device, key, 1));
            flag_branch(nodes, site, *n, true, words)
        }
        Instr::Brbc(n, t) => {
            let words = (device.wrap(near(key.pc, t.get())), further(device, key, 1));
            flag_branch(nodes, site, *n, false, words)
        }
        Instr::Sbic(port, bit) => port_skip(nodes, site, *port, *bit, false),
        Instr::Sbis(port, bit) => port_skip(nodes, site, *port, *bit, true),
        Instr::Sbrc(r, bit) => {
            let condition = register_bit(state, *r, *bit).complement();
            skipping(nodes, site, condition)
        }
        Instr::Sbrs(r, bit) => skipping(nodes, site, register_bit(state, *r, *bit)),
        _ => going_to(nodes, site, further(device, key, 1)),
    };
    staying(a, added)
}

// Loads, stores and I/O. Not inlined: its states would be laid out for each other instruction too.
#[inline(never)]
fn memory_row(
    nodes: &mut Moves<'_>,
    site: &Site<'_>,
    scratch: bool,
    instr: &Instr,
) -> Result<Outgoing, NodeFault>
    ensures { LeadsOn nodes.old nodes.new result (memory_row (task_of site.now) scratch (site_of site.now) instr.now) }
{
    let state = site.state;
    let added = match instr {
        Instr::Ldd(d, b, q) => {
            let from = Indirect {
                r: base_register(*b),
                up: q.get(),
            };
            load_row(nodes, site, &state.registers, *d, from)
        }
        Instr::Std(b, q, r) => {
            let to = Indirect {
                r: base_register(*b),
                up: q.get(),
            };
            pointer_write(nodes, site, to, *r, state)
        }
        Instr::Lds(d, address) => read_row(nodes, site, 2, *d, *address),
        Instr::Sts(address, r) => known_write(nodes, site, false, *address, *r),
        Instr::Ld(d, p) => {
            let registers = pointer_moved(site.view(), *p, state);
            let from = Indirect {
                r: pointer_register(*p),
                up: step_before(*p),
            };
            load_row(nodes, site, &registers, *d, from)
        }
        Instr::St(p, r) => store_row(nodes, site, *p, *r),
        Instr::LpmZ(d) => lpm_row(nodes, site, &state.registers, *d),
        Instr::LpmZPlus(d) => {
            let moved = pointer_moved(site.view(), Pointer::ZPlus, state);
            lpm_row(nodes, site, &moved, *d)
        }
        Instr::Lpm => lpm_row(nodes, site, &state.registers, Register::new(0)),
        Instr::ElpmZ(d) => elpm_row(nodes, site, &state.registers, *d),
        Instr::ElpmZPlus(d) => {
            let moved = extended_moved(site);
            elpm_row(nodes, site, &moved, *d)
        }
        Instr::Elpm => elpm_row(nodes, site, &state.registers, Register::new(0)),
        Instr::Pop(d) => pop_row(nodes, site, *d),
        Instr::Push(r) => push_row(nodes, site, is_free(site, scratch), *r),
        Instr::In(d, i) => read_row(nodes, site, 1, *d, port(site.device, *i)),
        Instr::Out(i, r) => known_write(nodes, site, true, port(site.device, *i), *r),
        Instr::Cbi(i, b) => bit_row(nodes, site, *i, *b, false),
        Instr::Sbi(i, b) => bit_row(nodes, site, *i, *b, true),
        _ => return flow_row(nodes, site, scratch, instr),
    };
    staying(site.alloc, added)
}

// Instructions of two registers. Only `cpse` skips, if they are equal.
fn binary_row(
    nodes: &mut Moves<'_>,
    site: &Site<'_>,
    op: BinaryOp,
    d: Register,
    r: Register,
) -> Result<(), NodeFault>
    ensures { Adds nodes.old nodes.new result (binary_row (task_of site.now) (site_of site.now) op d r) }
{
    let line = site.assumptions.frame(site.key.pc);
    match binary_at(site.view(), line, site.state, op, (d, r)) {
        Some(set) => setting(nodes, site, &set.registers, set.flags),
        None => {
            let same = bit_domain::equal(bits(site.state, d), bits(site.state, r));
            skipping(nodes, site, same)
        }
    }
}

// Adds the successors of an instruction to the list, and returns its calls and return.
pub(crate) fn row(
    nodes: &mut Moves<'_>,
    site: &Site<'_>,
    scratch: bool,
    instr: &Instr,
) -> Result<Outgoing, NodeFault>
    ensures { LeadsOn nodes.old nodes.new result (row_of (task_of site.now) scratch (site_of site.now) instr.now) }
{
    let line = site.assumptions.frame(site.key.pc);
    let added = match computed_by(site.view(), line, site.state, instr) {
        Some(set) => setting(nodes, site, &set.registers, set.flags),
        None => match instr {
            Instr::Binary(op, d, r) => binary_row(nodes, site, *op, *d, *r),
            Instr::Bset(n) => flag_row(nodes, site, *n, true),
            Instr::Bclr(n) => flag_row(nodes, site, *n, false),
            _ => return memory_row(nodes, site, scratch, instr),
        },
    };
    staying(site.alloc, added)
}
