//! The successors of a node by its instruction.

ghost use Rattle.std.specs.Prelude.{◌≡◌, ◌<◌, false, if◌then◌else◌, IfOk, IfErr};
ghost use Rattle.local_rules.specs.declared.local.NodeFault.TheVariants.{Memory};
ghost use Rattle.avr_model.specs.Written.{written};
ghost use Rattle.sp_domain.specs.declared.tags.CarryTag.TheVariants as tag;
ghost use Rattle.local_rules.specs.Registers as registers;
ghost use Rattle.local_rules.specs.Local.{fetched_row};
ghost use Rattle.abs_step.specs.Leading.{LeadsOn, LeadsAs};
ghost use Rattle.abs_step.specs.Sites.{task_of, site_of, row_before};

use crate::flow::Outgoing;
use crate::moves::Moves;
use crate::pairs::{paired_row, row_through};
use crate::site::Site;
use crate::successors::changed;
use crate::table::row;
use abs_state::{AbsFlags, AbsState, end_facts};
use avr_decode::{sets, writes};
use avr_model::instruction::Instr;
use local_rules::local::{NodeFault, Nodes};
use pair_rows::{sets_carry, sets_flags};
use sp_domain::CarryTag;
use std::alloc::Global;

// Whether the instruction ends some fact: the carry tag of a register that it sets, or possibly a fact on pairs.
fn is_ended(state: &AbsState, instr: &Instr) -> bool
    ensures { result ≡ false → registers.before instr.now state.now ≡ state.now }
{
    ends(state.flags.carry, instr) || state.facts.is_followed()
}

// The state with the facts that survive the instruction.
pub(crate) fn before(alloc: Global, state: &AbsState, instr: &Instr) -> Result<AbsState, NodeFault>
    ensures ok { IfOk result (λ s. s ≡ registers.before instr.now state.now) }
    ensures err { IfErr result (λ e. e ≡ Memory) }
{
    let carry = if ends(state.flags.carry, instr) {
        CarryTag::None
    } else {
        state.flags.carry
    };
    let flags = AbsFlags {
        carry,
        ..state.flags
    };
    let mut left = changed(alloc, state, &state.registers, flags)?;
    end_facts(
        &mut left.facts,
        writes(instr).bits,
        sets_flags(instr),
        sets_carry(instr),
    );
    Ok(left)
}

// Whether the carry tag ends, because the instruction sets its register.
fn ends(carry: CarryTag, instr: &Instr) -> bool
    ensures { registers.forgotten (written instr.now) carry ≡ (if result then tag.None else carry) }
{
    match carry {
        CarryTag::Less(r, _) => sets(instr, u16::from(r)),
        CarryTag::None | CarryTag::Borrow(_, _) | CarryTag::Sum(_, _) => false,
    }
}

// The successors by the rows. The state is copied only if some fact may end.
pub(crate) fn row_forgetting(
    nodes: &mut Moves<'_>,
    site: &Site<'_>,
    scratch: bool,
    instr: &Instr,
) -> Result<Outgoing, NodeFault>
    ensures { LeadsOn nodes.old nodes.new result (row_before site.now scratch instr.now) }
{
    let state = site.state;
    if !is_ended(state, instr) {
        return row(nodes, site, scratch, instr);
    }
    let left = before(site.alloc, state, instr)?;
    let forgetting = Site {
        alloc: site.alloc,
        device: site.device,
        flash: site.flash,
        assumptions: site.assumptions,
        key: site.key,
        state: &left,
    };
    let led = row(nodes, &forgetting, scratch, instr);
    drop(forgetting);
    drop(left);
    led
}

// The successors by the node's instruction; its word may lie behind the device's flash.
pub(crate) fn at_instruction(nodes: &mut Nodes, site: &Site<'_>) -> Result<Outgoing, NodeFault>
    ensures { LeadsAs nodes.old nodes.new result (fetched_row (task_of site.now) (site_of site.now)) }
{
    let pc = site.key.pc;
    if pc >= site.device.words() {
        return Err(NodeFault::Unsupported(pc));
    }
    let scratch = site.flash.is_scratch(pc);
    match site.flash.instruction(pc) {
        Some(instr) => {
            if site.state.facts.is_followed() {
                return paired_row(nodes, site, scratch, &instr);
            }
            row_through(nodes, site, scratch, &instr, false)
        }
        None => Err(NodeFault::Unsupported(pc)),
    }
}
