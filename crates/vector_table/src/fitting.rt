//! Whether the entries of an assumption list fit a device.

ghost use Rattle.std.specs.Prelude.{◌≡◌};
ghost use Rattle.std.specs.List.{list_all};
ghost use Rattle.avr_model.specs.Vectors as vectors;
ghost use Rattle.vector_table.specs.Entries.{fits_device, is_word_of};

use crate::table::is_protected;
use avr_model::assumption::Entry;
use avr_model::device::Device;

/// Whether a word address is one of the device's texts. Source: own.
pub fn is_word(device: Device, word: u32) -> bool
    ensures { result ≡ is_word_of device word }
{
    word < device.limit()
}

/// Whether all are word addresses of the device's texts. Source: own.
pub fn are_all_words(device: Device, items: &[u32]) -> bool
    ensures { result ≡ list_all (is_word_of device) items.now }
{
    for item in items {
        if !is_word(device, *item) {
            return false;
        }
    }
    true
}

/// Whether all are data addresses that `is_protected` names. Source: own.
pub fn are_all_protected(device: Device, items: &[u16]) -> bool
    ensures { result ≡ list_all (vectors.is_protected device) items.now }
{
    for item in items {
        if !is_protected(device, *item) {
            return false;
        }
    }
    true
}

/// Whether a list of the device may have the entry: its words and depths are those of the device's texts, and a store lists protected
/// addresses. Source: own.
#[tactic(auto, unfolding(crate::specs::Entries::fits_device))]
pub fn fits(device: Device, entry: &Entry) -> bool
    ensures { result ≡ fits_device device entry.now }
{
    match entry {
        Entry::Pairs | Entry::Masks => true,
        Entry::Jump(site, words) => {
            is_word(device, *site) && are_all_words(device, words.as_slice())
        }
        Entry::Store(site, addresses) => {
            is_word(device, *site) && are_all_protected(device, addresses.as_slice())
        }
        Entry::Recur(word, depth) => is_word(device, *word) && *depth <= device.depth(),
        Entry::Prove(site) | Entry::Free(site) | Entry::Never(site) => is_word(device, *site),
        Entry::Frame(site) | Entry::Scratch(site) => is_word(device, *site),
    }
}
