//! Whether each possible address of a store is harmless, if pairs are followed.

ghost use Rattle.std.specs.Prelude.{ℕ, ◌≡◌, ◌≤◌, Some};
ghost use Rattle.avr_model.specs.Devices.{device_of, size_of};
ghost use Rattle.clear_laws.specs.Aims.{is_between, is_in_interval};
ghost use Rattle.clear_laws.specs.Clear.{are_addresses_harmless, is_address_harmless};
ghost use Rattle.store_clear.specs.Numbers.{is_range_harmless, is_number_harmless, are_numbers_harmless};
ghost use Rattle.store_clear.specs.Stores.{task_in, store_of};

use crate::need::is_address_harmless;
use crate::store::GivenStore;
use avr_model::instruction::{Instr, LowRegister};
use flash_image::Flash;
use local_reads::members::permits_bytes;
use local_reads::pointers::step_before;
use local_rows::transfer::{base_register, pointer_register};
use pair_domain::{Interval, PairFacts};
use pair_rows::told::interval_of;

// Whether the addresses from the first to the last are in SRAM below the stack's reach, or above SRAM. If the last is less than the
// first, they wrap around the end of data space.
fn is_range_harmless(flash: &Flash, bound: u16, first: u16, last: u16) -> bool
    requires { bound ≤ size_of (device_of flash.now) }
    ensures { result ≡ is_range_harmless (device_of flash.now) bound first last }
{
    let device = flash.device();
    let (below, ramend) = (device.io_end(), device.ramend());
    first <= last && ((below < first && last <= ramend - bound) || ramend < first)
}

// Whether the bytes of registers `r` and `r + 1` exclude the number, or the address `up` further is harmless.
fn is_number_harmless(
    store: &GivenStore<'_, '_>,
    bound: u16,
    r: LowRegister,
    up: u16,
    number: u16,
) -> bool
    requires { bound ≤ size_of (device_of store.now.flash.now) }
    ensures { result ≡ is_number_harmless (is_address_harmless (task_in store.now) bound (store_of store.now)) store.now.state.now r up number }
{
    let address = number.wrapping_add(up);
    !permits_bytes(store.state, r, number) || is_address_harmless(store, bound, address)
}

// Whether, for each possible number of registers `r` and `r + 1` in an interval, the address `up` further is harmless. Other numbers are
// impossible.
fn is_interval_harmless(
    store: &GivenStore<'_, '_>,
    bound: u16,
    r: LowRegister,
    up: u16,
    interval: Interval,
) -> bool
    requires small { bound ≤ size_of (device_of store.now.flash.now) }
    requires follows { (p : ℕ) → is_in_interval store.now.state.now.facts r p ≡ is_between interval.low interval.high p }
    ensures { result ≡ are_numbers_harmless (task_in store.now) bound (store_of store.now) r up }
{
    let first = interval.low.wrapping_add(up);
    let last = interval.high.wrapping_add(up);
    if is_range_harmless(store.flash, bound, first, last) {
        return true;
    }
    for number in u32::from(interval.low)..u32::from(interval.high) + 1 {
        let number = number as u16;
        if !is_number_harmless(store, bound, r, up, number) {
            return false;
        }
    }
    true
}

// Whether, for each possible number of registers `r` and `r + 1`, the address `up` further is harmless.
fn are_numbers_harmless(
    store: &GivenStore<'_, '_>,
    bound: u16,
    facts: &PairFacts,
    r: LowRegister,
    up: u16,
) -> bool
    requires small { bound ≤ size_of (device_of store.now.flash.now) }
    requires follows { store.now.state.now.facts ≡ Some facts.now }
    ensures { result ≡ are_numbers_harmless (task_in store.now) bound (store_of store.now) r up }
{
    let interval = interval_of(facts, r.widened());
    is_interval_harmless(store, bound, r, up, interval)
}

// Whether pairs are followed, and each possible address of a store is harmless, if the stack takes at most this many bytes.
pub(crate) fn are_addresses_harmless(store: &GivenStore<'_, '_>, bound: u16) -> bool
    requires { bound ≤ size_of (device_of store.now.flash.now) }
    ensures { result ≡ are_addresses_harmless (task_in store.now) bound (store_of store.now) }
{
    let Some(facts) = store.state.facts.get() else {
        return false;
    };
    match store.instr {
        Instr::Std(base, q, _) => {
            let (r, up) = (base_register(*base), q.get());
            are_numbers_harmless(store, bound, &facts, r, up)
        }
        Instr::St(pointer, _) => {
            let (r, up) = (pointer_register(*pointer), step_before(*pointer));
            are_numbers_harmless(store, bound, &facts, r, up)
        }
        Instr::Sts(address, _) => is_address_harmless(store, bound, *address),
        _ => true,
    }
}
