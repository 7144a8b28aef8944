//! The rows that store.

ghost use Rattle.std.specs.Prelude.{◌≡◌, ◌<◌, false, None};
ghost use Rattle.avr_model.specs.Bits.{with_bit};
ghost use Rattle.avr_model.specs.Devices.{words_of};
ghost use Rattle.avr_model.specs.Sites.{pointer_register};
ghost use Rattle.avr_model.specs.Effects.{delay_of_out, pointed};
ghost use Rattle.avr_model.specs.Step.{result_of, state_after};
ghost use Rattle.avr_machine.specs.Quiet.{onward_answer, through_answer, output_answer, bit_answer};

use crate::bits::{has_bit, with_bit};
use crate::firmware::Firmware;
use crate::flags::{flag_by, moves_at, protected_at};
use crate::processor::Processor;
use crate::transfers::pointed;
use avr_decode::pointer_register;
use avr_model::choice::StepResult;
use avr_model::device::I;
use avr_model::effect::Write;
use avr_model::instruction::Pointer;

/// How a machine goes on after a store.
#[derive(Clone, Copy)]
pub struct Onward {
    /// The next word.
    pub pc: u32,
    /// Whether one more instruction executes before any interrupt.
    pub delay: bool,
}

impl Processor {
    /// Stores a byte at a data address and continues at a word, unless the step is flagged: the byte is live, `protected` is given, or the
    /// byte sets a moving bit.
    #[tactic(auto, unfolding(avr_model::specs::Step::memory_after))]
    #[inline(always)]
    pub fn store_step(
        &mut self,
        firmware: &Firmware<'_>,
        protected: Option<u16>,
        write: Write,
        onward: Onward,
    ) -> StepResult
        requires { onward.pc < words_of self.old.device }
        ensures answer { result ≡ result_of (onward_answer firmware.now.flash.now firmware.now.assumptions.now self.old protected write onward) }
        ensures state { self.new ≡ state_after self.old (onward_answer firmware.now.flash.now firmware.now.assumptions.now self.old protected write onward) }
    {
        let live = self.memory.live_write(&[write]);
        let moves = moves_at(firmware, write);
        match flag_by(self.pc, live, protected, None, moves) {
            Some(flag) => StepResult::Flagged(flag),
            None => {
                self.store(&write);
                self.go_to(onward.pc);
                self.pc = onward.pc;
                self.delay = onward.delay;
                StepResult::Done
            }
        }
    }

    /// `st` through a pointer: reads the byte, moves the pointer, then stores the byte.
    #[tactic(auto, unfolding(avr_model::specs::Step::memory_after))]
    pub fn store_through(&mut self, firmware: &Firmware<'_>, pointer: Pointer, r: u16) -> StepResult
        requires { r < 32 }
        ensures answer { result ≡ result_of (through_answer firmware.now.flash.now firmware.now.assumptions.now self.old pointer r) }
        ensures state { self.new ≡ state_after self.old (through_answer firmware.now.flash.now firmware.now.assumptions.now self.old pointer r) }
    {
        let at = self.pair(pointer_register(pointer));
        let address = pointed(pointer, at);
        let byte = self.register(r);
        let protected = protected_at(firmware, self.pc, Write { address, byte });
        let live = self.memory.live_write(&[Write { address, byte }]);
        let moves = moves_at(firmware, Write { address, byte });
        match flag_by(self.pc, live, protected, None, moves) {
            Some(flag) => StepResult::Flagged(flag),
            None => {
                self.move_pointer(pointer, at);
                self.store(&Write { address, byte });
                self.go_on();
                StepResult::Done
            }
        }
    }

    // Whether this write to a data address turns I on.
    fn turns_on(&self, address: u16, byte: u8) -> bool
        ensures { result ≡ delay_of_out self.now address byte }
    {
        self.device.is_sreg(address) && has_bit(byte, I) && !self.flag(I)
    }

    /// `out`. If it sets I, one more instruction executes before any interrupt (own for `out`).
    pub fn output(&mut self, firmware: &Firmware<'_>, address: u16, r: u16) -> StepResult
        requires address { address < 64 }
        requires r { r < 32 }
        ensures answer { result ≡ result_of (output_answer firmware.now.flash.now firmware.now.assumptions.now self.old address r) }
        ensures state { self.new ≡ state_after self.old (output_answer firmware.now.flash.now firmware.now.assumptions.now self.old address r) }
    {
        let address = self.port(address);
        let byte = self.register(r);
        let next = self.further(1);
        let delay = self.turns_on(address, byte);
        let onward = Onward { pc: next, delay };
        self.store_step(firmware, None, Write { address, byte }, onward)
    }

    /// `sbi` if `on`, else `cbi`: changes this bit, and leaves all other enable bits.
    pub fn change_bit(
        &mut self,
        firmware: &Firmware<'_>,
        address: u16,
        index: u16,
        on: bool,
    ) -> StepResult
        requires address { address < 64 }
        requires index { index < 8 }
        ensures answer { result ≡ result_of (bit_answer firmware.now.flash.now firmware.now.assumptions.now self.old address index on) }
        ensures state { self.new ≡ state_after self.old (bit_answer firmware.now.flash.now firmware.now.assumptions.now self.old address index on) }
    {
        let address = self.port(address);
        let byte = with_bit(self.kept_byte(address), index, on);
        let onward = Onward {
            pc: self.further(1),
            delay: false,
        };
        self.store_step(firmware, None, Write { address, byte }, onward)
    }
}
