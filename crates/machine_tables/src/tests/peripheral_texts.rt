//! Texts of peripherals. Refused texts, and runs that peripherals choose, are in tests/end_to_end.

use avr_model::device::Device;
use peripherals::Peripherals;
use row_tests::WorkedRow;
use std::alloc::Global;

/// A text with the number of its sources.
pub struct Text(&'static [u8], usize);

pub static TEXTS: [(&str, &[Text]); 1] = [(
    "peripherals",
    &[
        Text(b"devices 1\nfill 00\nend\n", 0),
        Text(b"devices 1\nfill FF\ntimer 2 10 20\nend\n", 1),
        Text(
            b"devices 1\nfill 00\nbytes 26 16777216 16777216 02 FF\ntimer 2 0 1\ntimer 2 0 1\nend\n",
            3,
        ),
    ],
)];

impl WorkedRow for Text {
    fn holds(&self, alloc: Global) -> bool {
        match Peripherals::read(alloc, Device::M328, self.0) {
            Ok(peripherals) => peripherals.count() == self.1,
            Err(_) => false,
        }
    }
}
