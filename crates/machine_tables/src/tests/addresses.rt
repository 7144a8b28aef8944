//! What data addresses are on a device whose registers have none, beside the ATmega328P. Worked by hand: I/O address 0 has data address 0
//! on the ATtiny1614, and 0x20 behind the registers on the ATmega328P.

use crate::tests::programs::flash_of;
use avr_machine::{Assumptions, Choice, Device, Flag, Machine, StepResult};
use flash_image::Flash;
use row_tests::WorkedRow;
use std::alloc::Global;
use vector_table::Entry;

/// The device, and whether the list has `masks`; words, and the number of instructions that are executed first; the answer to the next; the
/// program counter, the stack pointer and the depth afterwards; and then SREG and r17.
pub struct Addressed(
    (Device, bool),
    (&'static [u16], u32),
    StepResult,
    [u32; 3],
    [u8; 2],
);

/// The device; words, and the number of instructions that are executed; a vector, and whether it may be entered then.
pub struct Entered(Device, (&'static [u16], u32), u8, bool);

// Each read gives the first byte where nothing is held.
const GO: Choice = Choice::Go(0x96, 0x3C);

const T1614: (Device, bool) = (Device::T1614, false);

const M328: (Device, bool) = (Device::M328, false);

const MASKED: (Device, bool) = (Device::T1614, true);

const DONE: StepResult = StepResult::Done;

const MOVED: StepResult = StepResult::Flagged(Flag::Moved(1));

// `push r0` and back.
const PUSHES: &[u16] = &[0x920F, 0xCFFE];

// `sbi 0x1D, 0`, `sei` and a loop.
const SET_BIT: &[u16] = &[0x9AE8, 0x9478, 0xCFFF];

// The same by `out 0x3F, r16` in place of `sei`.
const OUT_STATUS_OF_M328: &[u16] = &[0x9AE8, 0xE800, 0xBF0F, 0xCFFF];

// RTC_INTCTRL is 1, and I is set by `out 0x3F, r16`, or by `sts 0x003F, r16`.
const OUT_STATUS: &[u16] = &[0xE001, 0x9300, 0x0142, 0xE800, 0xBF0F, 0xCFFF];

const STORED_STATUS: &[u16] = &[0xE001, 0x9300, 0x0142, 0xE800, 0x9300, 0x003F, 0xCFFF];

// SP at 003E by `out`, with C set; then `pop r17`.
const POPS_STATUS: &[u16] = &[0x9408, 0xE000, 0xBF0E, 0xE30E, 0xBF0D, 0x911F];

// `ldi r16, 0x82`, `out 0x3F, r16`, and `lds r17`.
const LOADS_003F: &[u16] = &[0xE802, 0xBF0F, 0x9110, 0x003F];

const LOADS_005F: &[u16] = &[0xE802, 0xBF0F, 0x9110, 0x005F];

// `ldi r16, 7`, `mov r0, r16`, `lds r17, 0`.
const LOADS_0000: &[u16] = &[0xE007, 0x2E00, 0x9110, 0x0000];

// `ldi r16, 7`, `sts 0x0011, r16`.
const STORES_0011: &[u16] = &[0xE007, 0x9300, 0x0011];

pub static ROWS: [(&str, &[Addressed]); 4] = [
    (
        "stack pointer",
        &[
            // `sts` of 0x10 to 003D and to 005D
            Addressed(
                T1614,
                (&[0xE100, 0x9300, 0x003D], 1),
                DONE,
                [3, 0x3F10, 239],
                [0, 0],
            ),
            Addressed(
                T1614,
                (&[0xE100, 0x9300, 0x005D], 1),
                DONE,
                [3, 0x3FFF, 0],
                [0, 0],
            ),
            Addressed(
                M328,
                (&[0xE100, 0x9300, 0x003D], 1),
                DONE,
                [3, 0x08FF, 0],
                [0, 0],
            ),
            Addressed(
                M328,
                (&[0xE100, 0x9300, 0x005D], 1),
                DONE,
                [3, 0x0810, 239],
                [0, 0],
            ),
            // of 0x3E to 003E, behind which SP is half written, and to 005E
            Addressed(
                T1614,
                (&[0xE30E, 0x9300, 0x003E], 1),
                DONE,
                [3, 0x3EFF, 0],
                [0, 0],
            ),
            Addressed(
                T1614,
                (&[0xE30E, 0x9300, 0x005E], 1),
                DONE,
                [3, 0x3FFF, 0],
                [0, 0],
            ),
            // `out` of 0x3E to both
            Addressed(
                T1614,
                (&[0xE30E, 0xBF0E, 0xBF0D], 2),
                DONE,
                [3, 0x3E3E, 449],
                [0, 0],
            ),
            // SRAM lies from 3800 to 3FFF: 2,048 pushes, and one more; a `pop` above it
            Addressed(T1614, (PUSHES, 4094), DONE, [1, 0x37FF, 2048], [0, 0]),
            Addressed(
                T1614,
                (PUSHES, 4096),
                StepResult::Overflow(0),
                [0, 0x37FF, 2048],
                [0, 0],
            ),
            Addressed(T1614, (&[0x911F], 0), DONE, [1, 0x4000, 0], [0, 0x96]),
        ],
    ),
    (
        "status register",
        &[
            // `sts` of 0x82 to 003F and to 005F
            Addressed(
                T1614,
                (&[0xE802, 0x9300, 0x003F], 1),
                DONE,
                [3, 0x3FFF, 0],
                [0x82, 0],
            ),
            Addressed(
                T1614,
                (&[0xE802, 0x9300, 0x005F], 1),
                DONE,
                [3, 0x3FFF, 0],
                [0, 0],
            ),
            // `in r17, 0x3F` behind it
            Addressed(
                T1614,
                (&[0xE802, 0x9300, 0x003F, 0xB71F], 2),
                DONE,
                [4, 0x3FFF, 0],
                [0x82, 0x82],
            ),
            Addressed(
                M328,
                (&[0xE802, 0x9300, 0x005F, 0xB71F], 2),
                DONE,
                [4, 0x08FF, 0],
                [0x82, 0x82],
            ),
            Addressed(T1614, (LOADS_003F, 2), DONE, [4, 0x3FFF, 0], [0x82, 0x82]),
            Addressed(T1614, (LOADS_005F, 2), DONE, [4, 0x3FFF, 0], [0x82, 0x96]),
            Addressed(M328, (LOADS_003F, 2), DONE, [4, 0x08FF, 0], [0x82, 0x96]),
            Addressed(M328, (LOADS_005F, 2), DONE, [4, 0x08FF, 0], [0x82, 0x82]),
            // a `pop` reads it where it lies
            Addressed(T1614, (POPS_STATUS, 5), DONE, [6, 0x003F, 16321], [1, 1]),
            Addressed(M328, (POPS_STATUS, 5), DONE, [6, 0x003F, 2241], [1, 0x96]),
        ],
    ),
    (
        "registers",
        &[
            Addressed(T1614, (LOADS_0000, 2), DONE, [4, 0x3FFF, 0], [0, 0x96]),
            Addressed(M328, (LOADS_0000, 2), DONE, [4, 0x08FF, 0], [0, 7]),
            Addressed(T1614, (STORES_0011, 1), DONE, [3, 0x3FFF, 0], [0, 0]),
            Addressed(M328, (STORES_0011, 1), DONE, [3, 0x08FF, 0], [0, 7]),
        ],
    ),
    (
        "moving bits",
        &[
            // CPUINT.CTRLA has IVSEL and CVT: `sts` of 0x20, 0x40 and all other bits to 0110
            Addressed(
                MASKED,
                (&[0xE200, 0x9300, 0x0110], 1),
                MOVED,
                [1, 0x3FFF, 0],
                [0, 0],
            ),
            Addressed(
                MASKED,
                (&[0xE400, 0x9300, 0x0110], 1),
                MOVED,
                [1, 0x3FFF, 0],
                [0, 0],
            ),
            Addressed(
                MASKED,
                (&[0xE90F, 0x9300, 0x0110], 1),
                DONE,
                [3, 0x3FFF, 0],
                [0, 0],
            ),
            Addressed(
                T1614,
                (&[0xE200, 0x9300, 0x0110], 1),
                DONE,
                [3, 0x3FFF, 0],
                [0, 0],
            ),
            // IVSEL of the ATmega328P is bit 1 of 0055
            Addressed(
                MASKED,
                (&[0xE002, 0x9300, 0x0055], 1),
                DONE,
                [3, 0x3FFF, 0],
                [0, 0],
            ),
            Addressed(
                (Device::M328, true),
                (&[0xE002, 0x9300, 0x0055], 1),
                MOVED,
                [1, 0x08FF, 0],
                [0, 0],
            ),
            // reads of 0110 and 0055 give 0 there
            Addressed(
                MASKED,
                (&[0x9110, 0x0110], 0),
                DONE,
                [2, 0x3FFF, 0],
                [0, 0x96],
            ),
            Addressed(
                MASKED,
                (&[0x9110, 0x0055], 0),
                DONE,
                [2, 0x3FFF, 0],
                [0, 0x96],
            ),
            Addressed(
                (Device::M328, true),
                (&[0x9110, 0x0055], 0),
                DONE,
                [2, 0x08FF, 0],
                [0, 0x94],
            ),
        ],
    ),
];

pub static ENTERED: [(&str, &[Entered]); 1] = [(
    "entered",
    &[
        // `sbi 0x1D, 0` reaches EIMSK's INT0 on the ATmega328P
        Entered(Device::M328, (SET_BIT, 3), 2, true),
        Entered(Device::T1614, (SET_BIT, 3), 2, false),
        // RTC_INTCTRL, by either bit
        Entered(
            Device::T1614,
            (&[0xE001, 0x9300, 0x0142, 0x9478, 0xCFFF], 4),
            7,
            true,
        ),
        Entered(
            Device::T1614,
            (&[0xE002, 0x9300, 0x0142, 0x9478, 0xCFFF], 4),
            7,
            true,
        ),
        Entered(
            Device::T1614,
            (&[0xE004, 0x9300, 0x0142, 0x9478, 0xCFFF], 4),
            7,
            false,
        ),
        // ADC0_INTCTRL.WCMP and not RESRDY
        Entered(
            Device::T1614,
            (&[0xE002, 0x9300, 0x060A, 0x9478, 0xCFFF], 4),
            22,
            true,
        ),
        Entered(
            Device::T1614,
            (&[0xE002, 0x9300, 0x060A, 0x9478, 0xCFFF], 4),
            21,
            false,
        ),
        // NVMCTRL_INTCTRL, the last of the guarded addresses
        Entered(
            Device::T1614,
            (&[0xE001, 0x9300, 0x1003, 0x9478, 0xCFFF], 4),
            31,
            true,
        ),
        // PORTA_PIN3CTRL.ISC, which is written 0 again: other pins may enable the vector
        Entered(
            Device::T1614,
            (
                &[
                    0xE001, 0x9300, 0x0413, 0xE000, 0x9300, 0x0413, 0x9478, 0xCFFF,
                ],
                6,
            ),
            4,
            true,
        ),
        // `out` to SREG sets I, and one more instruction comes before an interrupt; `sts` to it does not wait
        Entered(Device::M328, (OUT_STATUS_OF_M328, 3), 2, false),
        Entered(Device::M328, (OUT_STATUS_OF_M328, 4), 2, true),
        Entered(Device::T1614, (OUT_STATUS, 4), 7, false),
        Entered(Device::T1614, (OUT_STATUS, 5), 7, true),
        Entered(Device::T1614, (STORED_STATUS, 4), 7, true),
        // reserved
        Entered(Device::T1614, (&[0x9478, 0xCFFF], 2), 6, false),
    ],
)];

// Whether this many instructions are executed.
fn are_done(machine: &mut Machine, flash: &Flash, assumptions: &Assumptions, steps: u32) -> bool {
    for _ in 0..steps {
        if machine.step(flash, assumptions, GO) != DONE {
            return false;
        }
    }
    true
}

// The flash of a program on a device.
fn flash_on(alloc: Global, words: &[u16], device: Device) -> Option<Flash> {
    match flash_of(alloc, words, 0xFFFF) {
        Ok(whole) if device.limit() == 16384 => whole.narrow(device).ok(),
        _ => None,
    }
}

fn is_left(machine: &Machine, row: &Addressed) -> bool {
    [
        machine.pc(),
        u32::from(machine.sp()),
        u32::from(machine.depth()),
    ] == row.3
        && [machine.sreg().bits(), machine.register(17)] == row.4
}

fn goes_so(flash: &Flash, assumptions: &Assumptions, row: &Addressed) -> bool {
    let mut machine = Machine::start(flash.device(), 0);
    are_done(&mut machine, flash, assumptions, row.1.1)
        && machine.step(flash, assumptions, GO) == row.2
        && is_left(&machine, row)
}

fn is_entered(flash: &Flash, assumptions: &Assumptions, row: &Entered) -> bool {
    let mut machine = Machine::start(flash.device(), 0);
    are_done(&mut machine, flash, assumptions, row.1.1)
        && machine.menu().has(Choice::Take(row.2, false)) == row.3
}

impl WorkedRow for Addressed {
    fn holds(&self, alloc: Global) -> bool {
        let mut assumptions = Assumptions::empty(alloc);
        let listed = !self.0.1 || assumptions.push(Entry::Masks).is_ok();
        match flash_on(alloc, self.1.0, self.0.0) {
            Some(flash) => listed && goes_so(&flash, &assumptions, self),
            None => false,
        }
    }
}

impl WorkedRow for Entered {
    fn holds(&self, alloc: Global) -> bool {
        match flash_on(alloc, self.1.0, self.0) {
            Some(flash) => is_entered(&flash, &Assumptions::empty(alloc), self),
            None => false,
        }
    }
}
