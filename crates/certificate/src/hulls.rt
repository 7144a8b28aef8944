//! The hulls of all register pairs.

ghost use Rattle.std.specs.Prelude.{◌≡◌};
ghost use Rattle.certificate.specs.Hulls.{hulls_of};

use abs_state::Registers;
use abs_state::pairs::hull_of;
use pair_domain::Interval;

/// The hulls of the sixteen pairs of r0 to r31, that of r0 and r1 first.
pub fn hulls_of(registers: &Registers) -> [Interval; 16]
    ensures { result ≡ hulls_of registers.now }
{
    let mut hulls = [Interval::whole(); 16];
    for n in 0..16 {
        hulls[n] = hull_of(registers[2 * n], registers[2 * n + 1]);
    }
    hulls
}
