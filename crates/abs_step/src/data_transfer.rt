//! Data transfer: loads, stores, bytes of flash, and I/O.

ghost use Rattle.std.specs.Prelude.{◌≡◌, Some};
ghost use Rattle.local_rules.specs.Local.{read_row};
ghost use Rattle.local_rules.specs.Local as rows;
ghost use Rattle.abs_step.specs.Adding.{Adds};
ghost use Rattle.abs_step.specs.Sites.{task_of, site_of, loaded};

use crate::moves::Moves;
use crate::pointer_stores::{Indirect, pointer_write};
use crate::site::{ByteWrite, Site};
use crate::stores::written_at;
use crate::successors::{at_word, changed, setting};
use abs_state::{AbsByte, Registers};
use avr_model::device::RAMPZ;
use avr_model::instruction::{Pointer, Register};
use local_reads::banks::{extended_constant, stepped_bank, z_constant};
use local_reads::flow::further;
use local_reads::pointers::{flash_value, point, read_pointed, step_before};
use local_reads::reads::read_at;
use local_rows::registers::{set, set_at, value};
use local_rows::transfer::{pointer_moved, pointer_register};
use local_rules::local::NodeFault;

/// `ld` and `ldd`: register `d` of these gets the byte at an address in registers. No successor if nothing can be read.
pub fn load_row(
    nodes: &mut Moves<'_>,
    site: &Site<'_>,
    registers: &Registers,
    d: Register,
    from: Indirect,
) -> Result<(), NodeFault>
    ensures { Adds nodes.old nodes.new result (loaded site.now registers.now d from) }
{
    let pointed = point(site.view(), site.state, from.r, from.up);
    let may = site.assumptions.reads_masks(site.device);
    match read_pointed(site.device, may, site.key, site.state, pointed) {
        Some(value) => {
            let registers = set(registers, d, value);
            setting(nodes, site, &registers, site.state.flags)
        }
        None => Ok(()),
    }
}

/// `in` and `lds`, of this many words: register `d` gets the value of a known address.
pub fn read_row(
    nodes: &mut Moves<'_>,
    site: &Site<'_>,
    words: u16,
    d: Register,
    address: u16,
) -> Result<(), NodeFault>
    ensures { Adds nodes.old nodes.new result (read_row site.now.assumptions.now (site_of site.now) words d address) }
{
    let may = site.assumptions.reads_masks(site.device);
    let read = read_at(site.device, may, site.key, site.state, address);
    let registers = set(&site.state.registers, d, read);
    let after = changed(site.alloc, site.state, &registers, site.state.flags)?;
    let pc = further(site.device, site.key, words);
    nodes.add(at_word(site.key, pc), after)
}

/// `lpm`: register `d` of these gets a byte of flash.
pub fn lpm_row(
    nodes: &mut Moves<'_>,
    site: &Site<'_>,
    registers: &Registers,
    d: Register,
) -> Result<(), NodeFault>
    ensures { Adds nodes.old nodes.new result (rows.lpm_row site.now.flash.now (site_of site.now) registers.now d) }
{
    let value = flash_value(site.flash, z_constant(site.state));
    set_row(nodes, site, registers, d, value)
}

/// `elpm`: register `d` of these gets a byte of flash in the bank that RAMPZ chooses.
pub fn elpm_row(
    nodes: &mut Moves<'_>,
    site: &Site<'_>,
    registers: &Registers,
    d: Register,
) -> Result<(), NodeFault>
    ensures { Adds nodes.old nodes.new result (rows.elpm_row site.now.flash.now (site_of site.now) registers.now d) }
{
    let value = flash_value(site.flash, extended_constant(site.state));
    set_row(nodes, site, registers, d, value)
}

/// The registers with Z, and with it RAMPZ, as behind Z+.
pub fn extended_moved(site: &Site<'_>) -> Registers
    ensures { result ≡ rows.extended_moved (site_of site.now) }
{
    let moved = pointer_moved(site.view(), Pointer::ZPlus, site.state);
    set_at(&moved, RAMPZ, stepped_bank(site.device, site.state))
}

// Register `d` of these gets this value.
fn set_row(
    nodes: &mut Moves<'_>,
    site: &Site<'_>,
    registers: &Registers,
    d: Register,
    value: AbsByte,
) -> Result<(), NodeFault>
    ensures { Adds nodes.old nodes.new result (rows.loading (site_of site.now) registers.now d (Some value)) }
{
    let registers = set(registers, d, value);
    setting(nodes, site, &registers, site.state.flags)
}

/// `st`, through a pointer that may move.
pub fn store_row(
    nodes: &mut Moves<'_>,
    site: &Site<'_>,
    pointer: Pointer,
    r: Register,
) -> Result<(), NodeFault>
    ensures { Adds nodes.old nodes.new result (rows.store_row (task_of site.now) (site_of site.now) pointer r) }
{
    let registers = pointer_moved(site.view(), pointer, site.state);
    let after = changed(site.alloc, site.state, &registers, site.state.flags)?;
    let to = Indirect {
        r: pointer_register(pointer),
        up: step_before(pointer),
    };
    let added = pointer_write(nodes, site, to, r, &after);
    drop(after);
    added
}

/// `out`, of one word, and `sts`, of two: register `r` is written to a known address.
pub fn known_write(
    nodes: &mut Moves<'_>,
    site: &Site<'_>,
    is_out: bool,
    address: u16,
    r: Register,
) -> Result<(), NodeFault>
    ensures { Adds nodes.old nodes.new result (rows.known_write (site_of site.now) is_out address r) }
{
    let words = if is_out { 1 } else { 2 };
    let write = ByteWrite {
        device: site.device,
        pc: site.key.pc,
        key: at_word(site.key, further(site.device, site.key, words)),
        state: site.state,
        value: value(site.state, r),
    };
    written_at(nodes, site.alloc, &write, is_out, address)
}
