//! Shows `avr_machine` with `stimulus`.

ghost use Rattle.std.specs.Prelude.{◌≡◌, ◌≤◌, ℕ};
ghost use Rattle.avr_model.specs.Run.{Bounded};
ghost use Rattle.avr_model.specs.declared.choice.Choice.TheVariants.{Go};

use avr_machine::{Assumptions, Choice, Firmware, Flash, Machine, Menu};
use stimulus::laws::depth_is_kept;
use stimulus::{Driver, Until};

/// How deep the stack is in so many steps from reset without interrupts, with 0 in memory and inputs. A bound of all runs bounds it.
pub fn depth_of_trial(flash: &Flash, assumptions: &Assumptions, steps: u32) -> u16
    ensures { (bound : ℕ) → Bounded flash.now assumptions.now bound → result ≤ bound }
{
    depth_is_kept();
    let mut machine = Machine::start(flash.device(), 0);
    let mut driver = Driver::new(
        |_menu: &Menu| -> Choice
            ensures { result ≡ Go 0 0 }
        { Choice::Go(0, 0) },
    );
    let until = Until {
        target: u16::MAX,
        steps,
    };
    driver.run(&mut machine, &Firmware { flash, assumptions }, until);
    machine.depth()
}
