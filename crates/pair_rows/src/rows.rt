//! Intervals of sums, differences and products. Unknown if the numbers would wrap in part.

ghost use Rattle.std.specs.Prelude.{◌≡◌, if◌then◌else◌};
ghost use Rattle.pair_domain.specs.Rows as rows;
ghost use Rattle.pair_rules.specs.Told.{carried, borrowed};

use avr_model::instruction::Register;
use pair_domain::{Interval, SumTag};

// The numbers from one to another, modulo 65,536.
fn modulo(low: u64, high: u64) -> Option<Interval>
    ensures { result ≡ rows.modulo low high }
{
    if low / 65_536 == high / 65_536 {
        Some(Interval {
            low: (low % 65_536) as u16,
            high: (high % 65_536) as u16,
        })
    } else {
        None
    }
}

/// The numbers of an interval plus a byte if `up`, otherwise less it.
pub fn moved(interval: Interval, up: bool, number: u8) -> Option<Interval>
    ensures { result ≡ (if up then rows.moved_up interval number else rows.moved_down interval number) }
{
    let number = if up {
        u64::from(number)
    } else {
        65_536 - u64::from(number)
    };
    modulo(
        u64::from(interval.low) + number,
        u64::from(interval.high) + number,
    )
}

/// The numbers of an interval with a byte from `low` to `high` added to the high byte if `up`, otherwise subtracted.
pub fn paged(interval: Interval, up: bool, low: u8, high: u8) -> Option<Interval>
    ensures { result ≡ (if up then rows.pages_up interval low high else rows.pages_down interval low high) }
{
    let (first, last) = (u64::from(interval.low), u64::from(interval.high));
    let (low, high) = (256 * u64::from(low), 256 * u64::from(high));
    if up {
        modulo(first + low, last + high)
    } else {
        modulo(first + (65_536 - high), last + (65_536 - low))
    }
}

/// The numbers of the pair with high byte `d` after its high byte gets a byte from `low` to `high` and the carry of the sum if `up`,
/// otherwise loses the byte and the borrow of the difference. `None` under another tag.
pub fn carried(tag: SumTag, up: bool, d: Register, low: u8, high: u8) -> Option<Interval>
    ensures { result ≡ (if up then carried tag d low high else borrowed tag d low high) }
{
    let (low, high) = (256 * u64::from(low), 256 * u64::from(high));
    match tag {
        SumTag::Up(r, first, last) if up && u16::from(r) + 1 == d.get() => modulo(
            u64::from(first) + (65_280 + low),
            u64::from(last) + (65_280 + high),
        ),
        SumTag::Down(r, first, last) if !up && u16::from(r) + 1 == d.get() => modulo(
            u64::from(first) + (65_280 - high),
            u64::from(last) + (65_280 - low),
        ),
        _ => None,
    }
}

/// The products of a byte from `low` to `high` and one from `least` to `greatest`.
#[tactic(auto, using(basics::specs::Numbers::product_of_bytes))]
pub fn product(low: u8, high: u8, least: u8, greatest: u8) -> Interval
    ensures { result ≡ rows.product low high least greatest }
{
    Interval {
        low: u16::from(low) * u16::from(least),
        high: u16::from(high) * u16::from(greatest),
    }
}
