//! The reader of certificates.

ghost use Rattle.std.specs.Prelude.{◌≡◌, ◌≤◌, ◌<◌, true, Some, None, Ok, IfSome, IfOk, length};
ghost use Rattle.avr_model.specs.Devices.{depth_of};
ghost use Rattle.avr_model.specs.Assumptions.{has_pairs};
ghost use Rattle.avr_model.specs.declared.assumption.Entry.TheVariants.{Pairs};
ghost use Rattle.text_base.specs.Answers.{Answers};
ghost use Rattle.line_reading.specs.Reading.{first_by, line_by};
ghost use Rattle.cert_format.specs.declared.fault.CertFault.TheVariants as fault;
ghost use Rattle.certificate.specs.Claims.{IsCertificate, most_nodes};
ghost use Rattle.certificate.specs.Versions.{is_third, says_device};
ghost use Rattle.witness_replay.specs.Spelling.{IsSchedule};
ghost use Rattle.cert_words.specs.Text.{text_of};
ghost use Rattle.cert_format.specs.Reading.{Reads, ReadsAs, formed, version_by, other_by, device_in, device_by, device_at, version_with, numbered_in, numbered_by, count_in, count_by, ending_by, heading_at, least_entries, first_at, entries_at, insts_at, limited, nodes_at, witness_at, end_at, claim_at, certificate_in};
ghost use Rattle.cert_format.specs.Exact.{AnswersSpelled};
ghost use Rattle.cert_format.specs.Refusals.{IsCertificateDueUnlessMemory};

use crate::fault::CertFault;
use crate::gathered::{NodeList, read_each};
use crate::laws::certificate_texts;
use assumption_files::MOST_ENTRIES;
use avr_model::device::Device;
use avr_model::naming::{class_of, device_of_class};
use certificate::{
    Certificate, Form, Inst, Limit, MOST_INSTANCES, MOST_NODES, Version, says_device,
    written_version,
};
use edge_rules::NodeForm;
use line_reading::{dec_word, expect_word, is_over, peek_text, take_line, take_text};
use node_keys::NodeKey;
use std::alloc::Global;
use text_base::{DigitFault, LineReader, Words, read_dec};
use vector_table::{Assumptions, Entry};
use witness_replay::{Schedule, ScheduleFault};

// The number of the next line, if it is this name and a number in the range.
#[tactic(auto, unfolding(crate::specs::Reading::numbered_in))]
fn numbered(reader: &LineReader<'_>, name: &[u8], least: u64, most: u64) -> Option<u64>
    ensures exact { result ≡ first_by (numbered_by name.now least most) reader.now.rest }
    ensures large { IfSome result (λ n. least ≤ n) }
    ensures small { IfSome result (λ n. n ≤ most) }
{
    let mut words = Words::new(peek_text(reader)?);
    let (Some(()), Some(number)) = (expect_word(&mut words, name), dec_word(&mut words, most))
    else {
        return None;
    };
    if least <= number && is_over(&mut words) {
        Some(number)
    } else {
        None
    }
}

// Reads a line of a name and a number in the range.
#[tactic(auto, unfolding(line_reading::specs::Reading::line_by))]
fn read_numbered(
    reader: &mut LineReader<'_>,
    name: &[u8],
    least: u64,
    most: u64,
) -> Result<u64, CertFault>
    ensures exact { Reads reader.new result (formed (line_by (numbered_by name.now least most) reader.old)) }
    ensures large { IfOk result (λ n. least ≤ n) }
    ensures small { IfOk result (λ n. n ≤ most) }
{
    let found = numbered(reader, name, least, most);
    let number = take_line(reader, found)?;
    Ok(number)
}

// The number of nodes in the next line, if it is within the limit.
#[tactic(auto, unfolding(crate::specs::Reading::count_in))]
fn count_of(reader: &LineReader<'_>) -> Option<Option<u64>>
    ensures exact { result ≡ first_by count_by reader.now.rest }
    ensures small { IfSome result (λ o. IfSome o (λ n. n ≤ most_nodes)) }
{
    let mut words = Words::new(peek_text(reader)?);
    let (Some(()), Some(digits)) = (expect_word(&mut words, b"nodes"), words.next()) else {
        return None;
    };
    if !is_over(&mut words) {
        return None;
    }
    match read_dec(digits, MOST_NODES) {
        Ok(number) => Some(Some(number)),
        Err(DigitFault::TooGreat) => Some(None),
        Err(DigitFault::WrongLength(_)) => None,
        Err(DigitFault::BadDigit(_)) => None,
    }
}

// Reads the number of nodes.
#[tactic(auto, unfolding(line_reading::specs::Reading::line_by))]
fn read_count(reader: &mut LineReader<'_>) -> Result<u64, CertFault>
    ensures exact { Reads reader.new result (limited (formed (line_by count_by reader.old))) }
    ensures small { IfOk result (λ n. n ≤ most_nodes) }
{
    let found = count_of(reader);
    match take_line(reader, found)? {
        Some(count) => Ok(count),
        None => Err(CertFault::Limit(Limit::Nodes)),
    }
}

// The least number of assumptions of a version.
fn least_entries(version: Version) -> u64
    ensures { result ≡ least_entries version }
{
    match version {
        Version::One | Version::Two => 0,
        Version::Three => 1,
    }
}

// Reads the first assumptions of a version: in the third the line `pairs`.
#[tactic(auto, unfolding(crate::specs::Reading::first_at, avr_model::specs::Assumptions::has_pairs))]
fn read_first(
    alloc: Global,
    reader: &mut LineReader<'_>,
    version: Version,
) -> Result<Assumptions, CertFault>
    ensures exact { Reads reader.new result (first_at version reader.old) }
    ensures count { IfOk result (λ a. length a ≡ least_entries version) }
    ensures mode { IfOk result (λ a. has_pairs a ≡ is_third version) }
{
    match version {
        Version::One | Version::Two => Ok(Assumptions::empty(alloc)),
        Version::Three => {
            take_text(reader, b"pairs")?;
            let mut list = Assumptions::empty(alloc);
            match list.push(Entry::Pairs) {
                Ok(()) => Ok(list),
                Err(_) => Err(CertFault::Memory),
            }
        }
    }
}

// Reads the number of assumptions and their lines.
#[tactic(auto, unfolding(crate::specs::Reading::entries_at))]
fn read_entries(
    alloc: Global,
    form: Form,
    reader: &mut LineReader<'_>,
) -> Result<Assumptions, CertFault>
    ensures { Reads reader.new result (entries_at form.device form.version reader.old) }
{
    let least = least_entries(form.version);
    let count = read_numbered(reader, b"assume", least, MOST_ENTRIES as u64)?;
    let mut list = read_first(alloc, reader, form.version)?;
    read_each(alloc, form.device, reader, &mut list, count - least)?;
    Ok(list)
}

// Reads the number of instances and their lines.
#[tactic(auto, unfolding(crate::specs::Reading::insts_at))]
fn read_instances(
    alloc: Global,
    device: Device,
    reader: &mut LineReader<'_>,
) -> Result<Vec<Inst>, CertFault>
    ensures { ReadsAs (λ v. v.items) reader.new result (insts_at device reader.old) }
{
    let count = read_numbered(reader, b"instances", 0, MOST_INSTANCES)?;
    let mut list = Vec::new(alloc);
    let told = read_each(alloc, device, reader, &mut list, count);
    told.and(Ok(list))
}

// Reads the number of nodes and their lines.
#[tactic(auto, unfolding(crate::specs::Reading::nodes_at))]
fn read_nodes(
    alloc: Global,
    form: Form,
    reader: &mut LineReader<'_>,
    instances: &[Inst],
) -> Result<Vec<(NodeKey, NodeForm)>, CertFault>
    ensures { ReadsAs (λ v. v.items) reader.new result (nodes_at form.device form.version instances.now reader.old) }
{
    let count = read_count(reader)?;
    let mut list = NodeList::empty(alloc, form.version, instances);
    let told = read_each(alloc, form.device, reader, &mut list, count);
    told.and(Ok(list.into_nodes()))
}

// Whether a schedule follows, by the next line.
#[tactic(auto, unfolding(crate::specs::Reading::ending_by))]
fn ending_of(reader: &LineReader<'_>) -> Option<bool>
    ensures { result ≡ first_by ending_by reader.now.rest }
{
    let text = peek_text(reader)?;
    if text == b"witness open".as_slice() {
        Some(false)
    } else if text == b"witness attained".as_slice() {
        Some(true)
    } else {
        None
    }
}

// Reads whether there is a schedule, and the schedule.
#[tactic(auto, unfolding(crate::specs::Reading::witness_at, line_reading::specs::Reading::line_by))]
fn read_witness(
    alloc: Global,
    device: Device,
    reader: &mut LineReader<'_>,
) -> Result<Option<Schedule>, CertFault>
    ensures exact { Reads reader.new result (witness_at device reader.old) }
    ensures kept { IfOk result (λ w. IfSome w (IsSchedule device)) }
{
    let found = ending_of(reader);
    if !take_line(reader, found)? {
        return Ok(None);
    }
    match Schedule::read(alloc, device, reader) {
        Ok(schedule) => Ok(Some(schedule)),
        Err(ScheduleFault::Malformed(at)) => Err(CertFault::Malformed(at)),
        Err(ScheduleFault::Memory) => Err(CertFault::Memory),
    }
}

// The version in the next line of a text that says its device, with RAMPZ or without.
#[tactic(auto, unfolding(crate::specs::Reading::version_by))]
fn said_version(text: &[u8], banked: bool) -> Option<Version>
    ensures { result ≡ version_by true banked text.now }
{
    let line = if banked {
        b"stackcert 5"
    } else {
        b"stackcert 4"
    };
    if text == line.as_slice() {
        Some(Version::Two)
    } else {
        None
    }
}

// The version in the next line of a text that says its device, or doesn't.
#[tactic(auto, unfolding(crate::specs::Reading::version_by))]
fn version_of(reader: &LineReader<'_>, says: bool, banked: bool) -> Option<Version>
    ensures { result ≡ first_by (version_by says banked) reader.now.rest }
{
    let text = peek_text(reader)?;
    if says {
        return said_version(text, banked);
    }
    if text == b"stackcert 1".as_slice() {
        Some(Version::One)
    } else if text == b"stackcert 2".as_slice() {
        Some(Version::Two)
    } else if text == b"stackcert 3".as_slice() {
        Some(Version::Three)
    } else {
        None
    }
}

// Whether a name is that of another device than this one, and of which.
#[tactic(auto, unfolding(crate::specs::Reading::other_by))]
fn other_of(device: Device, name: &[u8]) -> Option<Option<Device>>
    ensures { result ≡ other_by device name.now }
{
    if name == class_of(device) {
        return Some(None);
    }
    match device_of_class(name) {
        Some(other) => Some(Some(other)),
        None => None,
    }
}

// Whether the next line says another device than this one, and which.
#[tactic(auto, unfolding(crate::specs::Reading::device_in))]
fn said_other(reader: &LineReader<'_>, device: Device) -> Option<Option<Device>>
    ensures { result ≡ first_by (device_by device) reader.now.rest }
{
    let mut words = Words::new(peek_text(reader)?);
    let (Some(()), Some(name)) = (expect_word(&mut words, b"device"), words.next()) else {
        return None;
    };
    let other = other_of(device, name)?;
    if is_over(&mut words) {
        Some(other)
    } else {
        None
    }
}

// Reads the line that says the device, if there is one.
#[tactic(auto, unfolding(crate::specs::Reading::device_at, line_reading::specs::Reading::line_by))]
fn read_device(device: Device, says: bool, reader: &mut LineReader<'_>) -> Result<(), CertFault>
    ensures { Reads reader.new result (device_at says device reader.old) }
{
    if !says {
        return Ok(());
    }
    let found = said_other(reader, device);
    match take_line(reader, found)? {
        Some(other) => Err(CertFault::Other(other)),
        None => Ok(()),
    }
}

// Reads the version, the device and the bound.
#[tactic(auto, unfolding(crate::specs::Reading::heading_at, line_reading::specs::Reading::line_by))]
fn read_heading(device: Device, reader: &mut LineReader<'_>) -> Result<(Version, u64), CertFault>
    ensures exact { Reads reader.new result (heading_at device reader.old) }
    ensures small { IfOk result (λ h. h.1 ≤ depth_of device) }
{
    let says = says_device(device);
    let found = version_of(reader, says, device.has_elpm());
    let version = take_line(reader, found)?;
    read_device(device, says, reader)?;
    let bound = read_numbered(reader, b"bound", 0, u64::from(device.depth()))?;
    Ok((version, bound))
}

// Reads the last line, after which nothing may follow.
#[tactic(auto, unfolding(crate::specs::Reading::end_at))]
fn read_end(reader: &mut LineReader<'_>) -> Result<(), CertFault>
    ensures { Reads reader.new result (end_at reader.old) }
{
    take_text(reader, b"end")?;
    match reader.peek() {
        None => Ok(()),
        Some(line) => Err(CertFault::Malformed(line.at)),
    }
}

// The version with these assumptions: where the text says its device, they decide it.
fn version_with(device: Device, version: Version, assumptions: &Assumptions) -> Version
    ensures { result ≡ version_with (says_device device) version assumptions.now }
{
    if says_device(device) {
        written_version(assumptions)
    } else {
        version
    }
}

// Reads all parts.
#[tactic(auto, unfolding(crate::specs::Reading::claim_at))]
fn read_claim(
    alloc: Global,
    device: Device,
    reader: &mut LineReader<'_>,
) -> Result<Certificate, CertFault>
    ensures { Reads reader.new result (claim_at device reader.old) }
{
    certificate_texts();
    let (first, bound) = read_heading(device, reader)?;
    let entries_form = Form {
        device,
        version: first,
    };
    let assumptions = read_entries(alloc, entries_form, reader)?;
    let instances = read_instances(alloc, device, reader)?;
    let version = version_with(device, first, &assumptions);
    let form = Form { device, version };
    let nodes = read_nodes(alloc, form, reader, &instances)?;
    let witness = read_witness(alloc, device, reader)?;
    read_end(reader)?;
    let claim = Certificate::of_version(form, bound as u16, assumptions, instances, nodes);
    Ok(claim.with_witness(witness))
}

/// Reads a certificate for a device, which the text says unless it is one of four. The inverse of `cert_writing::writing::write`.
///
/// A text of no certificate is refused at its first bad line: as `Malformed` if it has the wrong form or is missing, else as `Order` if
/// it is not above the last one, else as `Limit` if a limit is passed. A text that says another device is refused as `Other`.
pub fn read(alloc: Global, device: Device, text: &[u8]) -> Result<Certificate, CertFault>
    ensures exact { Answers (λ c. c) fault.Memory result (certificate_in device text.now) }
    ensures for_device { IfOk result (λ c. c.device ≡ device) }
    ensures found { IfOk result (λ c. text.now ≡ text_of c) }
    ensures kept { IfOk result IsCertificate }
    ensures told { IsCertificateDueUnlessMemory device text.now result }
    ensures spelled { AnswersSpelled device text.now result }
{
    certificate_texts();
    let mut reader = LineReader::new(text);
    read_claim(alloc, device, &mut reader)
}
