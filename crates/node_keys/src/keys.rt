//! Keys of instances and nodes.

ghost use Rattle.std.specs.Prelude.{◌≡◌, ◌↔◌, ◌<◌, IsTrue, refl};
ghost use Rattle.std.specs.Ordering.{as_partial_cmp};
ghost use Rattle.node_keys.specs.Order.{inst_cmp, node_cmp, same_inst, same_node};
ghost use Rattle.node_keys.specs.Total.{inst_total, inst_equivalence, inst_partial, inst_equal, node_total, node_equivalence, node_partial, node_equal};
ghost use Rattle.node_keys.specs.Hashes.{kind_number, high_number, pick_number, entered_number, form_number, first_bits, word_number, inst_hash, insts_alike, node_hash, nodes_alike};

use std::cmp::Ordering;
use std::hash::{Hash, Hasher};
use vector_table::{Assumptions, Masks};

/// How an instance is entered.
#[derive(Clone, Copy, PartialEq, Eq, PartialOrd, Ord)]
pub enum Kind {
    /// At reset.
    Root,
    /// By a call.
    Call,
    /// By the interrupt of this vector, 2 to the device's last.
    Vector(u8),
}

/// An instance: the root, one call or one interrupt entry, with the machine's enable bits and I there. Ordered by how it is entered, the
/// word, the enable bits and I.
#[derive(Clone, Copy)]
pub struct InstKey {
    /// The enable bits at its entry.
    pub masks: Masks,
    /// The word address at which it begins.
    pub entry: u32,
    /// How it is entered.
    pub kind: Kind,
    /// The flag I at its entry.
    pub i: bool,
}

/// The high byte of a stack pointer, after only the high byte was written.
#[derive(Clone, Copy, PartialEq, Eq, PartialOrd, Ord)]
pub enum High {
    /// This byte.
    Known(u8),
    /// That of the base less this number, modulo 65,536.
    Tag(u16),
}

/// The stack pointer by its offset: the number of bytes below the base, which is the stack pointer after the frame's entry.
#[derive(Clone, Copy, PartialEq, Eq, PartialOrd, Ord)]
pub enum SpForm {
    /// Whole, at this offset.
    Closed(u16),
    /// Its low byte is that of this offset, and its high byte was written.
    Open(u16, High),
}

/// A node: an instance and a place in it. Ordered by the instance, the program counter, the enable bits, I, the delay, the stack pointer and
/// the pick.
#[derive(Clone, Copy)]
pub struct NodeKey {
    /// The instance.
    pub inst: InstKey,
    /// The enable bits.
    pub masks: Masks,
    /// The program counter, a word address.
    pub pc: u32,
    /// The flag I.
    pub i: bool,
    /// One more instruction executes before any interrupt.
    pub delay: bool,
    /// The stack pointer.
    pub sp: SpForm,
    /// The byte that picked an entry of a jump table, until the code reaches that entry. It claims nothing of the machine: it keeps the
    /// paths to the entries of one table apart.
    pub pick: Option<u8>,
}

/// The kind of an edge.
#[derive(Clone, Copy, PartialEq, Eq, PartialOrd, Ord)]
pub enum EdgeKind {
    /// By an instruction, in the same instance.
    Local,
    /// Into the instance of a call.
    Call,
    /// Into the instance of an interrupt of this vector, 2 to the device's last, and whether its own enable bit is cleared.
    Interrupt(u8, bool),
    /// Out of an instance.
    Return,
}

impl InstKey {
    ghost use Rattle.node_keys.specs.Keys.{root_inst, cut_at};

    /// The instance that begins at reset.
    pub fn root() -> InstKey
        ensures { result ≡ root_inst }
    {
        InstKey {
            masks: Masks::none(),
            entry: 0,
            kind: Kind::Root,
            i: false,
        }
    }

    /// The depth of the `recur` entry of the word that the instance's call enters, in bytes: with one the instance is cut. None if there is
    /// no such entry, or no call enters the instance.
    #[tactic(auto, unfolding(crate::specs::Keys::cut_at))]
    pub fn cut(&self, assumptions: &Assumptions) -> Option<u16>
        ensures { result ≡ cut_at assumptions.now self.now }
    {
        match self.kind {
            Kind::Call => assumptions.recur(self.entry),
            Kind::Root | Kind::Vector(_) => None,
        }
    }
}

impl SpForm {
    ghost use Rattle.node_keys.specs.Keys.{offset_of};

    /// The number of bytes between the base and the stack pointer; for an open form, by the low byte.
    pub fn offset(&self) -> u16
        ensures { result ≡ offset_of self.now }
    {
        match *self {
            SpForm::Closed(offset) => offset,
            SpForm::Open(offset, _) => offset,
        }
    }
}

impl NodeKey {
    ghost use Rattle.node_keys.specs.Keys.{offset_of, entry_key};

    /// The first node of an instance.
    pub fn entry(inst: &InstKey) -> NodeKey
        ensures { result ≡ entry_key inst.now }
    {
        NodeKey {
            inst: *inst,
            masks: inst.masks,
            pc: inst.entry,
            i: inst.i,
            delay: false,
            sp: SpForm::Closed(0),
            pick: None,
        }
    }

    /// The offset of its stack pointer.
    pub fn offset(&self) -> u16
        ensures { result ≡ offset_of self.now.sp }
    {
        self.sp.offset()
    }
}

impl Ord for InstKey {
    ghost cmp = { inst_cmp };

    ghost total = { inst_total };

    ghost matches_partial_cmp = { λ a b. refl };

    ghost matches_eq = { inst_equal };

    /// The first difference decides.
    fn cmp(&self, other: &InstKey) -> Ordering {
        let found = self.kind.cmp(&other.kind);
        let found = Ordering::or_cmp(found, &self.entry, &other.entry);
        let found = Ordering::or_cmp(found, &self.masks, &other.masks);
        Ordering::or_cmp(found, &self.i, &other.i)
    }
}

impl PartialOrd for InstKey {
    ghost partial_cmp = { as_partial_cmp inst_cmp };

    ghost laws = { inst_partial };

    fn partial_cmp(&self, other: &InstKey) -> Option<Ordering> {
        Some(self.cmp(other))
    }
}

impl PartialEq for InstKey {
    ghost eq = { same_inst };

    ghost laws = { inst_equivalence.0 };

    /// Whether all fields are equal. The word is compared first: most different instances differ in it.
    #[tactic(auto, using(crate::proofs::SameKeys::inst_is))]
    fn eq(&self, other: &InstKey) -> bool
        ensures test { result ≡ same_inst self.now other.now }
        ensures same { IsTrue result ↔ (self.now ≡ other.now) }
    {
        self.entry == other.entry
            && self.masks == other.masks
            && self.i == other.i
            && self.kind == other.kind
    }
}

impl Eq for InstKey {
    ghost laws = { inst_equivalence.1 };
}

impl Hash for InstKey {
    ghost hash_input = { inst_hash };

    ghost respects_eq = { insts_alike };

    fn hash<H: Hasher>(&self, state: &mut H) {
        let masks = self.masks.bits();
        first_bits(masks).hash(state);
        word_number(self.entry, entered_number(self), masks).hash(state);
    }
}

impl Ord for NodeKey {
    ghost cmp = { node_cmp };

    ghost total = { node_total };

    ghost matches_partial_cmp = { λ a b. refl };

    ghost matches_eq = { node_equal };

    /// The first difference decides.
    fn cmp(&self, other: &NodeKey) -> Ordering {
        let found = self.inst.cmp(&other.inst);
        let found = Ordering::or_cmp(found, &self.pc, &other.pc);
        let found = Ordering::or_cmp(found, &self.masks, &other.masks);
        let found = Ordering::or_cmp(found, &self.i, &other.i);
        let found = Ordering::or_cmp(found, &self.delay, &other.delay);
        let found = Ordering::or_cmp(found, &self.sp, &other.sp);
        Ordering::or_cmp(found, &self.pick, &other.pick)
    }
}

impl PartialOrd for NodeKey {
    ghost partial_cmp = { as_partial_cmp node_cmp };

    ghost laws = { node_partial };

    fn partial_cmp(&self, other: &NodeKey) -> Option<Ordering> {
        Some(self.cmp(other))
    }
}

impl PartialEq for NodeKey {
    ghost eq = { same_node };

    ghost laws = { node_equivalence.0 };

    /// Whether all fields are equal. The word is compared first: most different nodes differ in it.
    #[tactic(auto, using(crate::proofs::SameKeys::node_is))]
    fn eq(&self, other: &NodeKey) -> bool
        ensures test { result ≡ same_node self.now other.now }
        ensures same { IsTrue result ↔ (self.now ≡ other.now) }
    {
        self.pc == other.pc
            && self.masks == other.masks
            && self.i == other.i
            && self.delay == other.delay
            && self.sp == other.sp
            && self.pick == other.pick
            && self.inst == other.inst
    }
}

impl Eq for NodeKey {
    ghost laws = { node_equivalence.1 };
}

impl Hash for NodeKey {
    ghost hash_input = { node_hash };

    ghost respects_eq = { nodes_alike };

    fn hash<H: Hasher>(&self, state: &mut H) {
        let masks = self.masks.bits();
        self.inst.hash(state);
        first_bits(masks).hash(state);
        word_number(self.pc, 0, masks).hash(state);
        form_number(self).hash(state);
    }
}

// ---- what keys feed to a hasher

fn kind_number(kind: Kind) -> u16
    ensures number { result ≡ kind_number kind }
    ensures low { result < 258 }
{
    match kind {
        Kind::Root => 0,
        Kind::Call => 1,
        Kind::Vector(vector) => 2 + u16::from(vector),
    }
}

// How an instance is entered, and I there.
fn entered_number(key: &InstKey) -> u16
    ensures { result ≡ entered_number key.now }
{
    u16::from(key.i) + 2 * kind_number(key.kind)
}

// The first 64 enable bits.
fn first_bits(masks: u128) -> u64
    ensures { result ≡ first_bits masks }
{
    (masks % 18_446_744_073_709_551_616) as u64
}

// A word with a number and the enable bits behind the first 64.
fn word_number(word: u32, n: u16, masks: u128) -> u64
    ensures { result ≡ word_number word n masks }
{
    let behind = u128::from(n) + 1024 * (masks / 18_446_744_073_709_551_616);
    u64::from(word) + 4_294_967_296 * ((behind % 4_294_967_296) as u64)
}

fn high_number(sp: SpForm) -> u64
    ensures number { result ≡ high_number sp }
    ensures low { result < 131072 }
{
    match sp {
        SpForm::Closed(_) => 0,
        SpForm::Open(_, High::Known(byte)) => 1 + u64::from(byte),
        SpForm::Open(_, High::Tag(below)) => 257 + u64::from(below),
    }
}

fn pick_number(pick: Option<u8>) -> u64
    ensures number { result ≡ pick_number pick }
    ensures low { result < 257 }
{
    match pick {
        None => 0,
        Some(byte) => 1 + u64::from(byte),
    }
}

// I, delay, pick and stack pointer.
fn form_number(key: &NodeKey) -> u64
    ensures { result ≡ form_number key.now }
{
    let flags = u64::from(key.i) + 2 * u64::from(key.delay);
    let pointer = u64::from(key.offset()) + 65_536 * high_number(key.sp);
    flags + 4 * pick_number(key.pick) + 2_048 * pointer
}
