//! The address of a store.

ghost use Rattle.std.specs.Prelude.{◌≡◌};
ghost use Rattle.clear_laws.specs.Aims.{first_byte, last_byte, pair_span, raised, lowered, pointer_reach, slot_aimed, aim_of};

use abs_state::{AbsByte, AbsState};
use avr_model::device::Device;
use avr_model::instruction::{Instr, LowRegister, Pointer};
use clear_laws::stores::{Aim, Reach, Span};
use local_reads::members::may_be;
use local_reads::pointers::{point, step_before};
use local_rows::registers::pair;
use local_rows::transfer::{base_register, pointer_register};
use local_rules::{Pointed, SpView};
use node_keys::{Kind, NodeKey};

// The least possible byte of the value.
fn first_byte(value: AbsByte) -> Option<u8>
    ensures { result ≡ first_byte value }
{
    for byte in 0..256u16 {
        if may_be(value, byte as u8) {
            return Some(byte as u8);
        }
    }
    None
}

// The greatest possible byte of the value.
fn last_byte(value: AbsByte) -> Option<u8>
    ensures { result ≡ last_byte value }
{
    for below in 0..256u16 {
        let byte = (255 - below) as u8;
        if may_be(value, byte) {
            return Some(byte);
        }
    }
    None
}

// The least and the greatest number that the registers permit.
fn pair_span(state: &AbsState, r: LowRegister) -> Option<Span>
    ensures { result ≡ pair_span state.now r }
{
    let (low, high) = pair(state, r);
    let (first_low, first_high) = (first_byte(low), first_byte(high));
    let (last_low, last_high) = (last_byte(low), last_byte(high));
    match (first_low, first_high, last_low, last_high) {
        (Some(first_low), Some(first_high), Some(last_low), Some(last_high)) => Some(Span {
            first: u16::from(first_low) + 256 * u16::from(first_high),
            last: u16::from(last_low) + 256 * u16::from(last_high),
        }),
        _ => None,
    }
}

// The span with a number added to both ends.
fn raised(span: Option<Span>, up: u16) -> Reach
    ensures { result ≡ raised span up }
{
    match span {
        None => Reach::Nothing,
        Some(span) if span.first <= 65535 - up && span.last <= 65535 - up => Reach::Within(Span {
            first: span.first + up,
            last: span.last + up,
        }),
        Some(_) => Reach::Beyond,
    }
}

// The span with 1 subtracted from both ends.
fn lowered(span: Option<Span>) -> Reach
    ensures { result ≡ lowered span }
{
    match span {
        None => Reach::Nothing,
        Some(span) if 1 <= span.first && 1 <= span.last => Reach::Within(Span {
            first: span.first - 1,
            last: span.last - 1,
        }),
        Some(_) => Reach::Beyond,
    }
}

// The addresses of a store through a pointer.
fn pointer_reach(pointer: Pointer, state: &AbsState) -> Reach
    ensures { result ≡ pointer_reach pointer state.now }
{
    let span = pair_span(state, pointer_register(pointer));
    match pointer {
        Pointer::MinusZ | Pointer::MinusY | Pointer::MinusX => lowered(span),
        Pointer::ZPlus | Pointer::YPlus | Pointer::X | Pointer::XPlus => raised(span, 0),
    }
}

// The slot of the running frame at the address, if it is known; in the root, whose base is the end of SRAM, by a number.
fn slot_aimed(device: Device, kind: Kind, pointed: Pointed) -> Option<u16>
    ensures { result ≡ slot_aimed device kind pointed }
{
    match kind {
        Kind::Root => match pointed.constant {
            Some(address) if address <= device.ramend() => Some(device.ramend() - address),
            _ => None,
        },
        Kind::Call | Kind::Vector(_) => pointed.frame,
    }
}

// The aim of `st`, `std` or `sts` on this device; None for other instructions.
pub(crate) fn aim(device: Device, key: &NodeKey, state: &AbsState, instr: &Instr) -> Option<Aim>
    ensures { result ≡ aim_of device key.now state.now instr.now }
{
    let (kind, view) = (key.inst.kind, SpView::of(device, key));
    match instr {
        Instr::Std(base, q, _) => {
            let (register, up) = (base_register(*base), q.get());
            Some(Aim {
                reach: raised(pair_span(state, register), up),
                slot: slot_aimed(device, kind, point(view, state, register, up)),
            })
        }
        Instr::St(pointer, _) => {
            let register = pointer_register(*pointer);
            let pointed = point(view, state, register, step_before(*pointer));
            Some(Aim {
                reach: pointer_reach(*pointer, state),
                slot: slot_aimed(device, kind, pointed),
            })
        }
        Instr::Sts(address, _) => {
            let (first, last) = (*address, *address);
            let pointed = Pointed {
                constant: Some(first),
                frame: None,
            };
            Some(Aim {
                reach: Reach::Within(Span { first, last }),
                slot: slot_aimed(device, kind, pointed),
            })
        }
        _ => None,
    }
}
