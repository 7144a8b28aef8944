//! Whether an instruction calls a word that has a `recur` line.

ghost use Rattle.std.specs.Prelude.{◌≡◌, None, filter};
ghost use Rattle.std.specs.List.{list_any};
ghost use Rattle.avr_model.specs.Assumptions.{lists, jump_line};
ghost use Rattle.avr_model.specs.Devices.{device_of};
ghost use Rattle.family_edges.specs.Tasks.{task_of};
ghost use Rattle.clear_laws.specs.Clear.{or_none, is_cut, calls_cut};
ghost use Rattle.local_rules.specs.Flow.{words_on, targets_by, z_with};

use crate::need::target_bank;
use abs_state::AbsState;
use assumption_files::targets_on;
use avr_decode::far;
use avr_model::instruction::{Base, Instr};
use bit_domain::TriByte;
use family_edges::Task;
use local_reads::flow::is_target;
use local_rows::registers::pair;
use local_rows::transfer::base_register;
use node_keys::NodeKey;

// Whether the word has a `recur` line.
fn is_cut(task: &Task<'_>, word: u32) -> bool
    ensures { result ≡ is_cut task.now.assumptions.now word }
{
    task.assumptions.recur(word).is_some()
}

// Whether one of these words has.
fn is_some_cut(task: &Task<'_>, words: &[u32]) -> bool
    ensures { result ≡ list_any (is_cut task.now.assumptions.now) words.now }
{
    words.iter().any(|word| is_cut(task, *word))
}

// Whether one of the listed words that the bits of Z with this third byte permit has.
fn is_listed_cut(task: &Task<'_>, state: &AbsState, bank: TriByte, listed: &[u32]) -> bool
    ensures { result ≡ list_any (is_cut task.now.assumptions.now) (filter (lists (words_on (device_of task.now.flash.now) (z_with state.now bank))) listed.now) }
{
    for word in listed {
        if is_target(task.flash.device(), state, bank, *word) && is_cut(task, *word) {
            return true;
        }
    }
    false
}

// Whether one of the words that the bits of Z with this third byte permit has, if they are few.
fn is_permitted_cut(task: &Task<'_>, state: &AbsState, bank: TriByte) -> bool
    ensures { result ≡ list_any (is_cut task.now.assumptions.now) (or_none (targets_by (device_of task.now.flash.now) None (z_with state.now bank))) }
{
    let (low, high) = pair(state, base_register(Base::Z));
    match targets_on(task.flash.device(), &low.bits, &high.bits, &bank) {
        Ok(words) => is_some_cut(task, words.as_slice()),
        Err(_) => false,
    }
}

// Whether `icall` or `eicall` with this third byte calls such a word.
fn is_pointed_cut(task: &Task<'_>, key: &NodeKey, state: &AbsState, bank: TriByte) -> bool
    ensures { result ≡ list_any (is_cut task.now.assumptions.now) (or_none (targets_by (device_of task.now.flash.now) (jump_line task.now.assumptions.now key.now.pc) (z_with state.now bank))) }
{
    match task.assumptions.jumps(key.pc) {
        Some(listed) => is_listed_cut(task, state, bank, listed),
        None => is_permitted_cut(task, state, bank),
    }
}

// Whether an instruction calls such a word.
pub(crate) fn calls_cut(task: &Task<'_>, key: &NodeKey, state: &AbsState, instr: &Instr) -> bool
    ensures { result ≡ calls_cut (task_of task.now) key.now state.now instr.now }
{
    let device = task.flash.device();
    match instr {
        Instr::Call(target) => is_cut(task, device.wrap(*target)),
        Instr::Rcall(target) => {
            !task.flash.is_scratch(key.pc) && is_cut(task, device.wrap(far(key.pc, target.get())))
        }
        Instr::Icall | Instr::Eicall => {
            is_pointed_cut(task, key, state, target_bank(state, instr))
        }
        _ => false,
    }
}
