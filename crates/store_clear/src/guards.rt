//! Which writes a store is flagged for.

ghost use Rattle.std.specs.Prelude.{◌≡◌, ◌&&◌, not};
ghost use Rattle.avr_model.specs.Assumptions as assumed;
ghost use Rattle.avr_model.specs.Step as steps;
ghost use Rattle.clear_laws.specs.Clear.{stored_bits, store_at};
ghost use Rattle.family_edges.specs.Tasks.{task_of};
ghost use Rattle.store_clear.specs.Guards.{IsGuardOf};

use abs_state::AbsState;
use avr_model::instruction::Instr;
use bit_domain::TriByte;
use family_edges::Task;
use local_rows::registers::bits;

// The addresses at which a store's write is flagged.
#[derive(Clone, Copy)]
pub(crate) enum Guard<'a> {
    // None: it is no pointer store, or its site is fixed.
    Nothing,
    // Registers, the stack pointer and the status register, and enable bits of barred vectors in which this byte may have 1.
    Barred(TriByte),
    // All protected ones but these.
    Unlisted(&'a [u16]),
}

// The bits of the byte that a pointer store stores.
pub(crate) fn stored_bits(state: &AbsState, instr: &Instr) -> TriByte
    ensures { result ≡ stored_bits state.now instr.now }
{
    match instr {
        Instr::Std(_, _, r) => bits(state, *r),
        Instr::St(_, r) => bits(state, *r),
        _ => TriByte::any(),
    }
}

// Whether the instruction is `st` or `std` at a site that isn't fixed.
fn is_unfixed(task: &Task<'_>, pc: u32, instr: &Instr) -> bool
    ensures { result ≡ (steps.is_pointer_store instr.now && not (assumed.is_fixed_site task.now.flash.now task.now.assumptions.now pc)) }
{
    matches!(instr, Instr::Std(..) | Instr::St(..))
        && !task.flash.is_fixed_site(task.assumptions, pc)
}

impl<'a> Guard<'a> {
    // The guard of a store. The lines of its site are looked up here, and not for each address.
    pub fn of(task: &Task<'a>, pc: u32, state: &AbsState, instr: &Instr) -> Guard<'a>
        ensures { IsGuardOf (task_of task.now) (store_at pc state.now instr.now) result }
    {
        if !is_unfixed(task, pc, instr) {
            return Guard::Nothing;
        }
        if task.assumptions.admits_enables(task.flash.device(), pc) {
            return Guard::Barred(stored_bits(state, instr));
        }
        Guard::Unlisted(task.assumptions.stores(pc))
    }
}
