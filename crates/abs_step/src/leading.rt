//! The local part of a node: the successors in its instance, its calls and its return, or its fault.

ghost use Rattle.std.specs.Prelude.{◌≡◌, ◌<◌, ◌∷◌, length, Err};
ghost use Rattle.node_keys.specs.Keys.{offset_of};
ghost use Rattle.local_rules.specs.declared.local.NodeFault.TheVariants.{Memory};
ghost use Rattle.local_rules.specs.Raw.{Raw};
ghost use Rattle.local_rules.specs.Site.{task_with};
ghost use Rattle.local_rules.specs.Local as rows;
ghost use Rattle.text_base.specs.Answers.{Answers};
ghost use Rattle.abs_step.specs.Leading.{Settles};
ghost use Rattle.abs_step.specs.Sites.{task_of, site_of};

use crate::site::Site;
use crate::splitting::splitting;
use abs_state::AbsState;
use flash_image::Flash;
use local_reads::stack_pointer::is_hung;
use local_rules::local::{Local, NodeFault, Nodes};
use node_keys::NodeKey;
use std::alloc::Global;
use vector_table::Assumptions;

// The local part, also of a node that splits, before its depth is checked.
fn led(site: &Site<'_>) -> Result<Local, NodeFault>
    ensures { Settles result (rows.split_row (task_of site.now) (site_of site.now)) }
{
    let mut same = Nodes::new(site.alloc);
    let outside = splitting(&mut same, site)?;
    Ok(Local {
        same,
        calls: outside.calls,
        exit: outside.exit,
    })
}

// The fault that counts if the node has this one as well.
fn stopped(found: &Result<Local, NodeFault>, besides: NodeFault) -> NodeFault
    ensures { (r : Raw) → Settles found.now r → Settles (Err result) (record r { faults = besides ∷ r.faults }) }
{
    match found {
        Ok(_) => besides,
        Err(fault) => {
            let cause = fault.cause();
            if cause == 0 {
                return NodeFault::Memory;
            }
            besides.lesser(*fault)
        }
    }
}

// The local part, or a fault if the frame is deeper than the device's SRAM.
fn in_sram(site: &Site<'_>) -> Result<Local, NodeFault>
    ensures { Settles result (rows.deep_row (task_of site.now) (site_of site.now)) }
{
    let found = led(site);
    let offset = site.key.offset();
    if offset > site.device.size() {
        let deep = NodeFault::TooDeep(site.key.pc, u32::from(offset));
        return Err(stopped(&found, deep));
    }
    found
}

/// The local part of a node: the successors in its instance, joined by key, its calls and its return, or the fault that counts. `Memory`
/// is no fault of the node.
#[tactic(auto, unfolding(local_rules::specs::Local::local, local_rules::specs::Local::raw))]
pub fn local(
    alloc: Global,
    flash: &Flash,
    assumptions: &Assumptions,
    key: &NodeKey,
    state: &AbsState,
) -> Result<Local, NodeFault>
    requires sized { length state.now.slots ≡ offset_of key.now.sp }
    ensures { Answers (λ l. l) Memory result (rows.local (task_with flash.now assumptions.now) key.now state.now) }
{
    let site = Site {
        alloc,
        device: flash.device(),
        flash,
        assumptions,
        key,
        state,
    };
    let found = in_sram(&site);
    if is_hung(site.device, assumptions, key) {
        return Err(stopped(&found, NodeFault::UntrackedSp(key.pc)));
    }
    found
}
