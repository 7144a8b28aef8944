//! Bits of I/O, and single flags.

ghost use Rattle.local_rules.specs.Registers as registers;
ghost use Rattle.local_rules.specs.Local as rows;
ghost use Rattle.abs_step.specs.Adding.{Adds};
ghost use Rattle.abs_step.specs.Sites.{site_of, port_at};

use crate::moves::Moves;
use crate::site::{ByteWrite, Site};
use crate::stores::written_at;
use crate::successors::{add_copy, next, setting};
use abs_state::AbsByte;
use avr_model::instruction::{Bit, LowPort};
use local_reads::flow::port;
use local_reads::reads::kept_bits;
use local_rows::bits::{flag, tri_of};
use local_rules::local::NodeFault;
use node_keys::NodeKey;

/// Sets or clears one bit of an I/O address.
pub fn bit_row(
    nodes: &mut Moves<'_>,
    site: &Site<'_>,
    i: LowPort,
    bit: Bit,
    on: bool,
) -> Result<(), NodeFault>
    ensures { Adds nodes.old nodes.new result (rows.bit_row (site_of site.now) (port_at site.now i) bit on) }
{
    let address = port(site.device, i.widened());
    let bits = kept_bits(site.device, site.key.masks, address).with(bit.get() as u8, tri_of(on));
    let write = ByteWrite {
        device: site.device,
        pc: site.key.pc,
        key: next(site.device, site.key),
        state: site.state,
        value: AbsByte::untagged(bits),
    };
    written_at(nodes, site.alloc, &write, false, address)
}

/// `bset` of flag `n` if `on`, else `bclr`. I is in the key: after `sei` one more instruction executes before any interrupt.
pub fn flag_row(nodes: &mut Moves<'_>, site: &Site<'_>, n: Bit, on: bool) -> Result<(), NodeFault>
    ensures { Adds nodes.old nodes.new result (registers.flag_row (site_of site.now) n on) }
{
    match flag(site.state, n, on) {
        Some(set) => setting(nodes, site, &set.registers, set.flags),
        None => {
            let key = NodeKey {
                i: on,
                delay: on && !site.key.i,
                ..next(site.device, site.key)
            };
            add_copy(nodes, site.alloc, key, site.state)
        }
    }
}
