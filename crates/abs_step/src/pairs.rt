//! Instructions if pairs are followed: branches and skips cut the state by their outcome, and other successors are refined.

ghost use Rattle.std.specs.Prelude.{◌≡◌, ◌<◌, true, length};
ghost use Rattle.node_keys.specs.Keys.{offset_of};
ghost use Rattle.abs_state.specs.PairBytes.{left_in};
ghost use Rattle.local_rules.specs.Flow.{going_where};
ghost use Rattle.local_rules.specs.Local.{paired_row};
ghost use Rattle.local_rules.specs.Local as rows;
ghost use Rattle.abs_step.specs.Adding.{Inserts};
ghost use Rattle.abs_step.specs.Leading.{LeadsAs};
ghost use Rattle.abs_step.specs.Conditions.{IsTest, cut_by, both_by, skip_by};
ghost use Rattle.abs_step.specs.Sites.{task_of, site_of, row_through, stored, branched, refined_moved};

use crate::flow::{Outgoing, skip_words, staying};
use crate::instruction::{before, row_forgetting};
use crate::moves::{Moves, put};
use crate::pointer_stores::{Indirect, pointer_write};
use crate::site::Site;
use crate::successors::{copied, off_table};
use abs_state::AbsState;
use avr_decode::near;
use avr_model::instruction::{BinaryOp, Bit, Instr, Pointer, Register};
use local_reads::flow::further;
use local_reads::pointers::step_before;
use local_reads::settling::settle;
use local_rows::transfer::{pointer_moved, pointer_register};
use local_rules::local::{NodeFault, Nodes};
use pair_cuts::{bit_cut, equal_cut, flag_cut};
use pair_steps::refine;
use std::mem;

// A test that cuts the state by its outcome.
#[derive(Clone, Copy)]
pub(crate) enum PairTest {
    // Whether this flag is 1.
    Flag(u8),
    // Whether a register's bit is 1.
    Bit(u8, u8),
    // Whether two registers are equal.
    Equal(u8, u8),
}

// The two targets of a test.
#[derive(Clone, Copy)]
pub(crate) struct Ways {
    // The word if the test has the outcome.
    pub pc: u32,
    // The word if it has the other.
    pub other: u32,
}

// A branch on a flag.
#[derive(Clone, Copy)]
pub(crate) struct FlagBranch {
    // The flag.
    pub n: Bit,
    // The word if it is 0.
    pub clear: u32,
    // The word if it is 1.
    pub set: u32,
}

// An `st` with its operands.
#[derive(Drop)]
pub(crate) struct StoreInstr<'a> {
    // The instruction.
    pub instr: &'a Instr,
    // The pointer.
    pub pointer: Pointer,
    // The register that is stored.
    pub r: Register,
}

// Cuts the state to the outcome of the test. Returns whether anything is left.
#[tactic(auto, using(crate::proofs::Slots::cut_slots))]
fn cut(test: PairTest, on: bool, state: &mut AbsState) -> bool
    requires { IsTest test }
    ensures left { left_in result state.new ≡ cut_by test on state.old }
    ensures slots { result ≡ true → state.new.slots ≡ state.old.slots }
{
    match test {
        PairTest::Flag(n) => flag_cut(state, n, on),
        PairTest::Bit(r, bit) => bit_cut(state, r, bit, on),
        PairTest::Equal(d, r) => equal_cut(state, d, r, on),
    }
}

// Continues at a word if the test may have this outcome.
fn going_where(
    nodes: &mut Nodes,
    site: &Site<'_>,
    test: PairTest,
    on: bool,
    pc: u32,
) -> Result<(), NodeFault>
    requires { IsTest test }
    ensures { Inserts nodes.old nodes.new result (going_where site.now.key.now (cut_by test on site.now.state.now) pc) }
{
    let mut after = copied(site.alloc, site.state)?;
    let left = cut(test, on, &mut after);
    put(nodes, off_table(site.key, pc), left, after)
}

// To one word if the test has the outcome, and to another if it has the other.
fn both_ways(
    nodes: &mut Nodes,
    site: &Site<'_>,
    test: PairTest,
    on: bool,
    ways: Ways,
) -> Result<(), NodeFault>
    requires { IsTest test }
    ensures { Inserts nodes.old nodes.new result (both_by (site_of site.now) test on ways) }
{
    going_where(nodes, site, test, on, ways.pc)?;
    going_where(nodes, site, test, !on, ways.other)
}

// To the next instruction if the test has the outcome, else past it.
fn skip_unless(
    nodes: &mut Nodes,
    site: &Site<'_>,
    test: PairTest,
    on: bool,
) -> Result<(), NodeFault>
    requires test { IsTest test }
    ensures { Inserts nodes.old nodes.new result (skip_by site.now.flash.now (site_of site.now) test on) }
{
    let (past, next) = skip_words(site);
    let ways = Ways {
        pc: next,
        other: past,
    };
    both_ways(nodes, site, test, on, ways)
}

// Settles and refines the state in which a pointer has moved. Returns whether anything is left.
#[tactic(auto, using(crate::proofs::Slots::told_slots))]
fn is_moved_left(site: &Site<'_>, instr: &Instr, moved: &mut AbsState) -> bool
    ensures left { left_in result moved.new ≡ refined_moved site.now instr.now moved.old }
    ensures slots { result ≡ true → moved.new.slots ≡ moved.old.slots }
{
    if !settle(site.view(), moved) {
        return false;
    }
    refine(site.flash, instr, site.state, moved)
}

// `st`: the pointer moves, and its pair is settled and refined, before the byte is stored.
fn store_row(
    nodes: &mut Nodes,
    site: &Site<'_>,
    pointer: Pointer,
    r: Register,
) -> Result<(), NodeFault>
    ensures { Inserts nodes.old nodes.new result (rows.paired_store (task_of site.now) (site_of site.now) pointer r) }
{
    let instr = Instr::St(pointer, r);
    let mut moved = before(site.alloc, site.state, &instr)?;
    moved.registers = pointer_moved(site.view(), pointer, site.state);
    let left = is_moved_left(site, &instr, &mut moved);
    let store = StoreInstr {
        instr: &instr,
        pointer,
        r,
    };
    let added = stored(nodes, site, &store, left, &moved);
    drop(moved);
    added
}

// Stores the byte, if anything is left of the state.
fn stored(
    nodes: &mut Nodes,
    site: &Site<'_>,
    store: &StoreInstr<'_>,
    left: bool,
    moved: &AbsState,
) -> Result<(), NodeFault>
    requires { left ≡ true → length moved.now.slots ≡ offset_of site.now.key.now.sp }
    ensures { Inserts nodes.old nodes.new result (stored site.now store.now (left_in left moved.now)) }
{
    if !left {
        return Ok(());
    }
    let to = Indirect {
        r: pointer_register(store.pointer),
        up: step_before(store.pointer),
    };
    let so_far = mem::replace(nodes, Nodes::new(site.alloc));
    let mut moves = Moves::plain(so_far, site, store.instr);
    let added = pointer_write(&mut moves, site, to, store.r, moved);
    *nodes = moves.into_nodes();
    added
}

// The successors by the plain rules, settled, and refined by the transfer function of pairs if `refines`.
pub(crate) fn row_through(
    nodes: &mut Nodes,
    site: &Site<'_>,
    scratch: bool,
    instr: &Instr,
    refines: bool,
) -> Result<Outgoing, NodeFault>
    ensures { LeadsAs nodes.old nodes.new result (row_through site.now scratch instr.now refines) }
{
    let so_far = mem::replace(nodes, Nodes::new(site.alloc));
    let mut moves = Moves::new(so_far, site, instr, refines);
    let led = row_forgetting(&mut moves, site, scratch, instr);
    *nodes = moves.into_nodes();
    led
}

// A branch on a flag: to one word if it is 0, and to another if it is 1. For I, which is in the key, the plain rules apply.
fn paired_branch(
    nodes: &mut Nodes,
    site: &Site<'_>,
    scratch: bool,
    instr: &Instr,
    branch: FlagBranch,
) -> Result<Outgoing, NodeFault>
    ensures { LeadsAs nodes.old nodes.new result (branched site.now scratch instr.now branch) }
{
    if branch.n.get() >= 7 {
        return row_through(nodes, site, scratch, instr, false);
    }
    let test = PairTest::Flag(branch.n.get() as u8);
    let ways = Ways {
        pc: branch.clear,
        other: branch.set,
    };
    let added = both_ways(nodes, site, test, false, ways);
    staying(site.alloc, added)
}

// The successors of an instruction if pairs are followed.
pub(crate) fn paired_row(
    nodes: &mut Nodes,
    site: &Site<'_>,
    scratch: bool,
    instr: &Instr,
) -> Result<Outgoing, NodeFault>
    ensures { LeadsAs nodes.old nodes.new result (paired_row (task_of site.now) scratch (site_of site.now) instr.now) }
{
    let (a, device, key) = (site.alloc, site.device, site.key);
    match instr {
        Instr::Brbs(n, t) => {
            let branch = FlagBranch {
                n: *n,
                clear: further(device, key, 1),
                set: device.wrap(near(key.pc, t.get())),
            };
            paired_branch(nodes, site, scratch, instr, branch)
        }
        Instr::Brbc(n, t) => {
            let branch = FlagBranch {
                n: *n,
                clear: device.wrap(near(key.pc, t.get())),
                set: further(device, key, 1),
            };
            paired_branch(nodes, site, scratch, instr, branch)
        }
        Instr::Sbrc(r, bit) => {
            let test = PairTest::Bit(r.get() as u8, bit.get() as u8);
            staying(a, skip_unless(nodes, site, test, true))
        }
        Instr::Sbrs(r, bit) => {
            let test = PairTest::Bit(r.get() as u8, bit.get() as u8);
            staying(a, skip_unless(nodes, site, test, false))
        }
        Instr::Binary(op, d, r) => match op {
            BinaryOp::Cpse => {
                let test = PairTest::Equal(d.get() as u8, r.get() as u8);
                staying(a, skip_unless(nodes, site, test, false))
            }
            _ => row_through(nodes, site, scratch, instr, true),
        },
        Instr::St(p, r) => staying(a, store_row(nodes, site, *p, *r)),
        _ => row_through(nodes, site, scratch, instr, true),
    }
}
