//! The lists of enable places by their numbers, written by tests/devices/rows.

ghost use Rattle.std.specs.Prelude.{◌≡◌};
ghost use Rattle.avr_model.specs.Families.{family_of};

use crate::device_table as table;
use crate::rows::EnablePlace;

/// The list of enable places of this number; a number of no list has none.
pub(crate) fn family(number: u8) -> &'static [EnablePlace]
    ensures { result.now ≡ family_of number }
{
    match number {
        0 => &table::FAMILY_0,
        1 => &table::FAMILY_1,
        2 => &table::FAMILY_2,
        3 => &table::FAMILY_3,
        4 => &table::FAMILY_4,
        5 => &table::FAMILY_5,
        6 => &table::FAMILY_6,
        7 => &table::FAMILY_7,
        8 => &table::FAMILY_8,
        9 => &table::FAMILY_9,
        10 => &table::FAMILY_10,
        11 => &table::FAMILY_11,
        12 => &table::FAMILY_12,
        13 => &table::FAMILY_13,
        14 => &table::FAMILY_14,
        15 => &table::FAMILY_15,
        16 => &table::FAMILY_16,
        17 => &table::FAMILY_17,
        18 => &table::FAMILY_18,
        19 => &table::FAMILY_19,
        20 => &table::FAMILY_20,
        21 => &table::FAMILY_21,
        22 => &table::FAMILY_22,
        23 => &table::FAMILY_23,
        24 => &table::FAMILY_24,
        25 => &table::FAMILY_25,
        26 => &table::FAMILY_26,
        27 => &table::FAMILY_27,
        28 => &table::FAMILY_28,
        29 => &table::FAMILY_29,
        30 => &table::FAMILY_30,
        31 => &table::FAMILY_31,
        32 => &table::FAMILY_32,
        33 => &table::FAMILY_33,
        34 => &table::FAMILY_34,
        35 => &table::FAMILY_35,
        36 => &table::FAMILY_36,
        37 => &table::FAMILY_37,
        38 => &table::FAMILY_38,
        39 => &table::FAMILY_39,
        40 => &table::FAMILY_40,
        41 => &table::FAMILY_41,
        42 => &table::FAMILY_42,
        43 => &table::FAMILY_43,
        44 => &table::FAMILY_44,
        45 => &table::FAMILY_45,
        46 => &table::FAMILY_46,
        47 => &table::FAMILY_47,
        48 => &table::FAMILY_48,
        49 => &table::FAMILY_49,
        50 => &table::FAMILY_50,
        51 => &table::FAMILY_51,
        52 => &table::FAMILY_52,
        53 => &table::FAMILY_53,
        _ => &[],
    }
}
