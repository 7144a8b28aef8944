//! The nodes that aren't clear, linked by their words.

ghost use Rattle.std.specs.Prelude.{ℕ, ◌≡◌, ◌<◌, length, get_or, IfOk};
ghost use Rattle.avr_model.specs.Image.{WORDS};
ghost use Rattle.store_clear.specs.ByWord.{AreLinked};

use crate::listing::{ListedNodes, is_discharged};
use avr_model::device::WORDS;
use std::alloc::{AllocError, Global};

// For each word the number of its first node that isn't clear, and by the number of each such node that of the next one of its word. The
// number of all nodes stands for none.
#[derive(Drop)]
pub(crate) struct ByWord {
    pub first: Vec<usize>,
    pub later: Vec<usize>,
}

// Links the nodes that aren't clear, the last one first.
fn link_all(told: &ListedNodes<'_>, first: &mut [usize], later: &mut [usize])
    requires same { length told.now.conditions.now ≡ length told.now.nodes.now }
    requires words { length first.old ≡ WORDS }
    requires each { length later.old ≡ length told.now.conditions.now }
    requires none { (pc : ℕ) → pc < WORDS → get_or first.old pc 0 ≡ length told.now.conditions.now }
    ensures { AreLinked told.now.nodes.now told.now.conditions.now 0 first.new later.new }
{
    let _count = told.nodes.count();
    let mut at = told.conditions.len();
    while at > 0 {
        at -= 1;
        if !is_discharged(told.conditions[at]) {
            let word = told.nodes.key(at).pc as usize;
            later[at] = first[word];
            first[word] = at;
        }
    }
}

// The nodes that aren't clear, by their words. Each node is looked at once.
pub(crate) fn by_word(alloc: Global, told: &ListedNodes<'_>) -> Result<ByWord, AllocError>
    requires { length told.now.conditions.now ≡ length told.now.nodes.now }
    ensures { IfOk result (λ l. AreLinked told.now.nodes.now told.now.conditions.now 0 l.first.items l.later.items) }
{
    let count = told.conditions.len();
    let mut first = vec![in alloc; count; WORDS as usize]?;
    let mut later = vec![in alloc; count; count]?;
    link_all(told, first.as_mut_slice(), later.as_mut_slice());
    Ok(ByWord { first, later })
}
