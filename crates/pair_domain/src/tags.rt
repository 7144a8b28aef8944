//! Tags that tie flags to registers and pairs.

ghost use Rattle.std.specs.Prelude.{◌≡◌, ◌↔◌, ◌+◌, nat_lt, IsTrue};
ghost use Rattle.pair_domain.specs.Tags.{up_from, down_from, sum_join, IsSumTagWithin, compare_join, IsCompareWithin, zero_join, IsZeroWithin};

/// The relation between a register pair and C, between the two instructions of a 16-bit sum or difference. A tag is normal if its ends
/// are less than 65,535 apart. Source: own.
#[derive(Clone, Copy, PartialEq, Eq)]
pub enum SumTag {
    /// Unknown.
    None,
    /// The number of this pair plus 256 plus 256 C is from the second number to the third.
    Up(u8, u32, u32),
    /// The number of this pair plus 256, less 256 C, is from the second number to the third.
    Down(u8, u32, u32),
}

/// The right side of a comparison. Source: own.
#[derive(Clone, Copy, PartialEq, Eq)]
pub enum Side {
    /// This byte.
    Byte(u8),
    /// The current value of this register, 0 to 31.
    Register(u8),
}

/// The comparison of current values that C, Z and S reflect. C: the left number is below the right one. Z: they are equal. S: the left one
/// is below the right one as signed numbers. Source: own.
#[derive(Clone, Copy, PartialEq, Eq)]
pub enum CompareTag {
    /// Unknown.
    None,
    /// Of this register, 0 to 31, with the side.
    Byte(u8, Side),
    /// Of this pair with the side plus 256 times the last register.
    Pair(u8, Side, u8),
}

/// The register or pair that is 0 exactly when Z is 1. Source: own.
#[derive(Clone, Copy, PartialEq, Eq)]
pub enum ZeroTag {
    /// Unknown.
    None,
    /// This register, 0 to 31.
    Byte(u8),
    /// This pair.
    Pair(u8),
}

// Whether the ends are less than 65,535 apart.
fn are_near(low: u32, high: u32) -> bool
    ensures { result ≡ nat_lt high (low + 65535) }
{
    u64::from(high) < u64::from(low) + 65_535
}

/// The sum of a pair with these ends; none if they are too far apart.
pub fn up_from(pair: u8, low: u32, high: u32) -> SumTag
    ensures { result ≡ up_from pair low high }
{
    if are_near(low, high) {
        SumTag::Up(pair, low, high)
    } else {
        SumTag::None
    }
}

/// The difference of a pair with these ends; none if they are too far apart.
pub fn down_from(pair: u8, low: u32, high: u32) -> SumTag
    ensures { result ≡ down_from pair low high }
{
    if are_near(low, high) {
        SumTag::Down(pair, low, high)
    } else {
        SumTag::None
    }
}

impl SumTag {
    /// The join: the hull of the ends if both are of one kind and pair and it is normal, otherwise none.
    pub fn join(self, other: SumTag) -> SumTag
        ensures { result ≡ sum_join self other }
    {
        match (self, other) {
            (SumTag::Up(r, a, b), SumTag::Up(s, c, d)) if r == s => up_from(r, a.min(c), b.max(d)),
            (SumTag::Down(r, a, b), SumTag::Down(s, c, d)) if r == s => {
                down_from(r, a.min(c), b.max(d))
            }
            _ => SumTag::None,
        }
    }

    /// Whether `other` is above this: it is none, or of the same kind and pair with ends around this one's, or its ends are too far apart.
    pub fn le(self, other: SumTag) -> bool
        ensures { IsTrue result ↔ IsSumTagWithin self other }
    {
        match (self, other) {
            (_, SumTag::None) => true,
            (SumTag::Up(r, a, b), SumTag::Up(s, c, d)) => {
                !are_near(c, d) || (r == s && c <= a && b <= d)
            }
            (SumTag::Down(r, a, b), SumTag::Down(s, c, d)) => {
                !are_near(c, d) || (r == s && c <= a && b <= d)
            }
            (_, SumTag::Up(_, c, d)) | (_, SumTag::Down(_, c, d)) => !are_near(c, d),
        }
    }
}

impl CompareTag {
    /// The join: the tag if both are equal, otherwise none.
    pub fn join(self, other: CompareTag) -> CompareTag
        ensures { result ≡ compare_join self other }
    {
        if self == other {
            self
        } else {
            CompareTag::None
        }
    }

    /// Whether `other` is above this: it is none, or the same.
    pub fn le(self, other: CompareTag) -> bool
        ensures { IsTrue result ↔ IsCompareWithin self other }
    {
        other == CompareTag::None || self == other
    }
}

impl ZeroTag {
    /// The join: the tag if both are equal, otherwise none.
    pub fn join(self, other: ZeroTag) -> ZeroTag
        ensures { result ≡ zero_join self other }
    {
        if self == other { self } else { ZeroTag::None }
    }

    /// Whether `other` is above this: it is none, or the same.
    pub fn le(self, other: ZeroTag) -> bool
        ensures { IsTrue result ↔ IsZeroWithin self other }
    {
        other == ZeroTag::None || self == other
    }
}
