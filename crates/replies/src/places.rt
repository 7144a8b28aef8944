//! The lines of places at which a step may be flagged.

ghost use Rattle.std.specs.Prelude.{◌≡◌, ◌≤◌, IfOk, OnOk, false, map, take};
ghost use Rattle.std.specs.List.{flat_map};
ghost use Rattle.flash_image.specs.Naming.{least_name};
ghost use Rattle.text_base.specs.Lines.{line};
ghost use Rattle.text_base.specs.Writing.{with_words, with_end};
ghost use Rattle.line_reading.specs.Appending.{with_text};
ghost use Rattle.replies.specs.Places.{clear_text, place_words, unclear_text, name_up_to, place_line, place_text, never_text, count_line, premises_text, address_text, protected_words, word_where, cause_words, pair_text, pointer_words, why_line, why_text};

use crate::causes::put_instruction;
use crate::texts::{ended, put_address, put_number, put_two_and_number};
use clear_laws::FlaggedPlace;
use clear_laws::stores::{PointerNumbers, PointerPair};
use flash_image::{Device, Flash, Names};
use line_reading::laws::appending_laws;
use reports::write_name;
use std::alloc::{AllocError, Global};
use text_base::LineWriter;

/// A firmware with the names of its words.
#[derive(Clone, Copy)]
pub struct NamedFirmware<'a> {
    /// The firmware.
    pub flash: &'a Flash,
    /// The names.
    pub names: &'a Names,
}

/// The line for a firmware no step of which can be flagged, with its certificate's bound.
pub fn clear_text(alloc: Global, bound: u16) -> Result<Vec<u8>, AllocError>
    ensures { IfOk result (λ v. v.items ≡ clear_text bound) }
{
    let mut line = LineWriter::new(alloc);
    put_two_and_number(&mut line, b"clear", b"bound", u64::from(bound))?;
    ended(line)
}

// Writes a word, and the instruction there.
fn put_place(alloc: Global, line: &mut LineWriter, flash: &Flash, pc: u32) -> Result<(), AllocError>
    ensures { OnOk result (line.new ≡ with_words line.old (place_words flash.now pc)) }
{
    put_address(line, flash.device(), b"at", pc)?;
    put_instruction(alloc, line, flash, pc)
}

/// The line of the least node that may flag a step: its number, its word, and the instruction there.
pub fn unclear_text(alloc: Global, flash: &Flash, node: u32, pc: u32) -> Result<Vec<u8>, AllocError>
    ensures { IfOk result (λ v. v.items ≡ unclear_text flash.now node pc) }
{
    let mut line = LineWriter::new(alloc);
    put_two_and_number(&mut line, b"unclear", b"node", u64::from(node))?;
    put_place(alloc, &mut line, flash, pc)?;
    ended(line)
}

// A word, and the greatest named word up to it, or 0.
#[derive(Clone, Copy)]
struct Reached {
    pc: u32,
    named: u32,
}

// The word from which to search for a name: the last one, unless that is beyond this word.
#[tactic(auto, using(crate::proofs::Sites::up_first))]
fn before(names: &Names, last: Reached, pc: u32) -> Reached
    requires { least_name names.now last.named ≡ name_up_to names.now last.pc }
    ensures low { result.pc ≤ pc }
    ensures named { least_name names.now result.named ≡ name_up_to names.now result.pc }
{
    if last.pc <= pc {
        last
    } else {
        Reached { pc: 0, named: 0 }
    }
}

// Advances from the last word to another. It visits the words between them alone, so all places together visit each word of flash once.
#[tactic(auto, using(crate::proofs::Sites::up_there))]
fn reach(names: &Names, last: Reached, pc: u32) -> Reached
    requires { least_name names.now last.named ≡ name_up_to names.now last.pc }
    ensures pc { result.pc ≡ pc }
    ensures named { least_name names.now result.named ≡ name_up_to names.now pc }
{
    let from = before(names, last, pc);
    let mut at = pc;
    while at > from.pc {
        if let Some(_name) = names.at(at) {
            return Reached { pc, named: at };
        }
        at -= 1;
    }
    Reached {
        pc,
        named: from.named,
    }
}

// Writes a place: its word, its instruction and its name.
fn put_named(
    out: &mut LineWriter,
    alloc: Global,
    firmware: &NamedFirmware<'_>,
    place: Reached,
) -> Result<(), AllocError>
    requires { least_name firmware.now.names.now place.named ≡ name_up_to firmware.now.names.now place.pc }
    ensures { OnOk result (out.new ≡ with_words out.old (place_line firmware.now.flash.now firmware.now.names.now place.pc)) }
{
    put_place(alloc, out, firmware.flash, place.pc)?;
    out.word(b"in")?;
    write_name(out, firmware.names, place.named)
}

// Writes the lines of places. If they ascend, each search continues from the one before.
fn write_places(
    out: &mut LineWriter,
    alloc: Global,
    firmware: &NamedFirmware<'_>,
    sites: &[u32],
) -> Result<(), AllocError>
    requires { out.old.begun ≡ false }
    ensures { OnOk result (out.new ≡ with_text out.old (flat_map (place_text firmware.now.flash.now firmware.now.names.now) sites.now)) }
{
    appending_laws();
    let mut place = Reached { pc: 0, named: 0 };
    for site in sites {
        place = reach(firmware.names, place, *site);
        put_named(out, alloc, firmware, place)?;
        out.end_line()?;
    }
    Ok(())
}

// Writes the lines of vectors' words.
fn write_nevers(out: &mut LineWriter, device: Device, nevers: &[u32]) -> Result<(), AllocError>
    requires { out.old.begun ≡ false }
    ensures { OnOk result (out.new ≡ with_text out.old (flat_map (never_text device) nevers.now)) }
{
    appending_laws();
    for word in nevers {
        put_address(out, device, b"never", *word)?;
        out.end_line()?;
    }
    Ok(())
}

// Writes the first line.
fn write_count(out: &mut LineWriter, bound: u16, count: u64) -> Result<(), AllocError>
    ensures { OnOk result (out.new ≡ with_end (with_words out.old (count_line bound count))) }
{
    put_number(out, b"bound", u64::from(bound))?;
    put_number(out, b"places", count)?;
    out.end_line()
}

/// The bound of a certificate; the places, each with instruction and name; and the words of vectors with a `never` line that may be taken.
pub fn premises_text(
    alloc: Global,
    firmware: &NamedFirmware<'_>,
    bound: u16,
    sites: &[u32],
    nevers: &[u32],
) -> Result<Vec<u8>, AllocError>
    ensures { IfOk result (λ v. v.items ≡ premises_text firmware.now.flash.now firmware.now.names.now bound sites.now nevers.now) }
{
    appending_laws();
    let mut out = LineWriter::new(alloc);
    write_count(&mut out, bound, sites.len() as u64 + nevers.len() as u64)?;
    write_places(&mut out, alloc, firmware, sites)?;
    write_nevers(&mut out, firmware.flash.device(), nevers)?;
    Ok(out.finish())
}

// Writes a word, if this holds.
fn write_where(out: &mut LineWriter, holds: bool, word: &[u8]) -> Result<(), AllocError>
    ensures { OnOk result (out.new ≡ with_words out.old (word_where holds word.now)) }
{
    if holds { out.word(word) } else { Ok(()) }
}

// Writes data addresses.
fn write_addresses(out: &mut LineWriter, addresses: &[u16]) -> Result<(), AllocError>
    ensures { OnOk result (out.new ≡ with_words out.old (map address_text addresses.now)) }
{
    for address in addresses {
        out.hex(u32::from(*address), 4)?;
    }
    Ok(())
}

// At most the first eight.
#[tactic(auto, using(crate::proofs::Sites::few_first))]
fn first_eight(addresses: &[u16]) -> &[u16]
    ensures { result.now ≡ take 8 addresses.now }
{
    if addresses.len() <= 8 {
        addresses
    } else {
        &addresses[..8]
    }
}

// Writes the protected addresses that a store may write, at most eight.
#[tactic(auto, using(crate::proofs::Sites::some_written, crate::proofs::Sites::none_protected))]
fn write_protected(out: &mut LineWriter, addresses: &[u16]) -> Result<(), AllocError>
    ensures { OnOk result (out.new ≡ with_words out.old (protected_words addresses.now)) }
{
    if addresses.is_empty() {
        return Ok(());
    }
    let has_more = addresses.len() > 8;
    out.word(b"protected")?;
    write_addresses(out, first_eight(addresses))?;
    write_where(out, has_more, b"..")
}

// Writes the causes at a place.
#[tactic(auto, using(crate::proofs::Sites::four_written))]
fn write_causes(out: &mut LineWriter, place: &FlaggedPlace) -> Result<(), AllocError>
    ensures { OnOk result (out.new ≡ with_words out.old (cause_words place.now)) }
{
    write_protected(out, place.protected.as_slice())?;
    write_where(out, place.live, b"live")?;
    write_where(out, place.transfer, b"transfer")?;
    write_where(out, place.moves, b"moves")
}

fn pair_text(pair: PointerPair) -> &'static [u8]
    ensures { result.now ≡ pair_text pair }
{
    match pair {
        PointerPair::X => b"X",
        PointerPair::Y => b"Y",
        PointerPair::Z => b"Z",
    }
}

// Writes the register pair of a pointer, and the least and the greatest number that it may have.
#[tactic(auto, using(crate::proofs::Sites::pointer_written))]
fn write_pointer(out: &mut LineWriter, pointer: Option<PointerNumbers>) -> Result<(), AllocError>
    ensures { OnOk result (out.new ≡ with_words out.old (pointer_words pointer)) }
{
    match pointer {
        None => Ok(()),
        Some(PointerNumbers { pair, numbers }) => {
            out.word(pair_text(pair))?;
            out.hex(u32::from(numbers.first), 4)?;
            out.hex(u32::from(numbers.last), 4)
        }
    }
}

// Writes the lines of places with their causes. If they ascend, each search continues from the one before.
fn write_whys(
    out: &mut LineWriter,
    alloc: Global,
    firmware: &NamedFirmware<'_>,
    places: &[FlaggedPlace],
) -> Result<(), AllocError>
    requires { out.old.begun ≡ false }
    ensures { OnOk result (out.new ≡ with_text out.old (flat_map line (map (why_line firmware.now.flash.now firmware.now.names.now) places.now))) }
{
    appending_laws();
    let mut reached = Reached { pc: 0, named: 0 };
    for place in places {
        reached = reach(firmware.names, reached, place.word);
        put_named(out, alloc, firmware, reached)?;
        write_causes(out, place)?;
        write_pointer(out, place.pointer)?;
        out.end_line()?;
    }
    Ok(())
}

/// The text of the places, with their causes after their names, and then the numbers of their pointers.
pub fn why_text(
    alloc: Global,
    firmware: &NamedFirmware<'_>,
    bound: u16,
    places: &[FlaggedPlace],
    nevers: &[u32],
) -> Result<Vec<u8>, AllocError>
    ensures { IfOk result (λ v. v.items ≡ why_text firmware.now.flash.now firmware.now.names.now bound places.now nevers.now) }
{
    appending_laws();
    let mut out = LineWriter::new(alloc);
    write_count(&mut out, bound, places.len() as u64 + nevers.len() as u64)?;
    write_whys(&mut out, alloc, firmware, places)?;
    write_nevers(&mut out, firmware.flash.device(), nevers)?;
    Ok(out.finish())
}
