//! A store, or another instruction, at a node.

ghost use Rattle.clear_laws.specs.Clear.{store_at};
ghost use Rattle.local_rules.specs.Site.{task_with};
ghost use Rattle.store_clear.specs.Guards.{IsGuardOf};

use crate::guards::Guard;
use abs_state::AbsState;
use avr_model::instruction::Instr;
use flash_image::Flash;
use vector_table::Assumptions;

// An instruction at a word, with the firmware, the assumptions, the state there, and the guard.
#[derive(Clone, Copy)]
pub(crate) struct GivenStore<'t, 's> {
    // The words of flash.
    pub flash: &'t Flash,
    // The assumptions.
    pub assumptions: &'t Assumptions,
    // The word.
    pub pc: u32,
    // The state of a node there.
    pub state: &'s AbsState,
    // The instruction.
    pub instr: &'s Instr,
    // Which writes it flags.
    pub guard: Guard<'t>,
    ghost guarded: { IsGuardOf (task_with flash.now assumptions.now) (store_at pc state.now instr.now) guard },
}
