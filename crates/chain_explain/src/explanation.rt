//! Explanations.

use avr_model::listed::Listed;
use node_keys::InstKey;

/// Where a link of the deepest chain stands.
#[derive(Drop)]
pub enum PartPoint {
    /// At this word address, to which this shortest path within the instance leads, both ends included.
    Node(u32, Listed<u32>),
    /// At the depth of the `recur` line of this word, which the next instance begins with: the root's recur edge to it.
    Recur(u32),
}

/// One link of the deepest chain: an instance and a point in it.
#[derive(Drop)]
pub struct Part {
    /// The instance.
    pub inst: InstKey,
    /// The point.
    pub point: PartPoint,
    /// The bytes that the link adds: the offset at its point or the depth of the line, and those of a return address if the chain
    /// continues.
    pub adds: u16,
}

/// The deepest chain over the reached nodes of a certificate, link by link from the root, and its depth.
#[derive(Drop)]
pub struct Explanation {
    pub(crate) least: u16,
    pub(crate) parts: Listed<Part>,
}

impl Explanation {
    ghost use Rattle.std.specs.Prelude.{◌≡◌, ◌<◌, length, slice_get, Some};

    /// The root's least need over the reached nodes, in bytes: the sum of the parts.
    pub fn least(&self) -> u16
        ensures { result ≡ self.now.least }
    {
        self.least
    }

    /// The number of parts.
    pub fn count(&self) -> usize
        ensures { result ≡ length self.now.parts }
    {
        self.parts.as_slice().len()
    }

    /// The part of this number, from 0.
    pub fn part(&self, n: usize) -> &Part
        requires { n < length self.now.parts }
        ensures { slice_get self.now.parts n ≡ Some result.now }
    {
        &self.parts.as_slice()[n]
    }
}
