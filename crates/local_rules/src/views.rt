//! The stack pointer as an instruction's operands depend on it.

ghost use Rattle.std.specs.Prelude.{◌≡◌};
ghost use Rattle.local_rules.specs.HighBytes.{view_by};

use avr_model::device::Device;
use node_keys::NodeKey;

/// The stack pointer where an instruction executes.
#[derive(Clone, Copy)]
pub struct SpView {
    /// Whether it has a high byte.
    pub high: bool,
    /// How far it is below the base.
    pub offset: u16,
}

impl SpView {
    /// That of a node on this device.
    pub fn of(device: Device, key: &NodeKey) -> SpView
        ensures { result ≡ view_by device key.now }
    {
        SpView {
            high: device.has_sph(),
            offset: key.offset(),
        }
    }
}
