//! Branches on C, which cut the range of the carry tag's register.

ghost use Rattle.std.specs.Prelude.{◌≡◌, IfErr};
ghost use Rattle.local_rules.specs.declared.local.NodeFault.TheVariants.{Memory};
ghost use Rattle.local_rules.specs.Flow as flow;
ghost use Rattle.abs_step.specs.Adding.{Adds};

use crate::moves::Moves;
use crate::site::Site;
use crate::successors::{changed, off_table};
use bit_domain::Tri;
use local_reads::cuts::registers_where;
use local_rules::local::NodeFault;

// Continues at a word if C may have this value.
fn going_where(
    nodes: &mut Moves<'_>,
    site: &Site<'_>,
    carry: bool,
    pc: u32,
) -> Result<(), NodeFault>
    ensures added { Adds nodes.old nodes.new result (flow.carry_to site.now.key.now site.now.state.now carry pc) }
    ensures err { IfErr result (λ e. e ≡ Memory) }
{
    match registers_where(site.state, carry) {
        Some(registers) => {
            let after = changed(site.alloc, site.state, &registers, site.state.flags)?;
            nodes.add(off_table(site.key, pc), after)
        }
        None => Ok(()),
    }
}

/// To one word if C is 1, and to the other if it is 0.
pub fn carry_branch(
    nodes: &mut Moves<'_>,
    site: &Site<'_>,
    carry: Tri,
    set: u32,
    clear: u32,
) -> Result<(), NodeFault>
    ensures { Adds nodes.old nodes.new result (flow.carry_branch carry site.now.key.now site.now.state.now set clear) }
{
    match carry {
        Tri::One => going_where(nodes, site, true, set),
        Tri::Zero => going_where(nodes, site, false, clear),
        Tri::Any => {
            going_where(nodes, site, false, clear)?;
            going_where(nodes, site, true, set)
        }
    }
}
