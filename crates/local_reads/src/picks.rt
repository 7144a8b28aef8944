//! The bytes by which a node at a table site splits.

ghost use Rattle.std.specs.Prelude.{◌≡◌, IfOk, IfErr};
ghost use Rattle.local_rules.specs.declared.local.NodeFault.TheVariants.{Memory};
ghost use Rattle.local_rules.specs.Local.{picks};

use crate::members::may_be;
use abs_state::AbsState;
use avr_model::instruction::Register;
use local_rows::registers::value;
use local_rules::local::NodeFault;
use std::alloc::Global;

/// The possible bytes of r30, ascending. Fails if memory runs out.
pub fn picks(alloc: Global, state: &AbsState) -> Result<Vec<u8>, NodeFault>
    ensures ok { IfOk result (λ v. v.items ≡ picks state.now) }
    ensures err { IfErr result (λ e. e ≡ Memory) }
{
    let index = value(state, Register::new(30));
    let mut picks = Vec::new(alloc);
    for byte in 0..256u16 {
        if may_be(index, byte as u8) {
            if picks.push(byte as u8).is_err() {
                return Err(NodeFault::Memory);
            }
        }
    }
    Ok(picks)
}
