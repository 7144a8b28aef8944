//! The report as JSON.

ghost use Rattle.std.specs.Prelude.{◌≡◌, ◌++◌, [], IfOk, OnOk, false};
ghost use Rattle.serde_json.specs.Data.{object, string};
ghost use Rattle.serde_json.specs.View.{view, members_view};
ghost use Rattle.serde_json.specs.Written.{compact_text, has_float};
ghost use Rattle.flash_image.specs.Naming.{least_name};
ghost use Rattle.cert_words.specs.KeySpelling.{kind_word};
ghost use Rattle.reports.specs.Json.{fits_data, room_data, static_data, witness_data, enables_data, name_data, inst_data, insts_text, json_text};

use crate::room::{fits_word, room};
use avr_model::device::Device;
use certificate::{Certificate, Inst};
use flash_image::Names;
use node_keys::Kind;
use serde_json::{Map, Value};
use std::alloc::{AllocError, Global};

// The greatest number that each reader of JSON keeps: one with 53 bits.
const MOST_EXACT: u128 = 9_007_199_254_740_991;

// A text as a value.
fn text_value(alloc: Global, text: &str) -> Result<Value, AllocError>
    ensures { IfOk result (λ v. view v ≡ string text.now) }
{
    Ok(Value::String(String::from_str(alloc, text)?))
}

// Whether the stack fits beside static data.
fn fits_value(
    alloc: Global,
    device: Device,
    bound: u16,
    static_end: Option<u16>,
) -> Result<Value, AllocError>
    ensures { IfOk result (λ v. view v ≡ fits_data device bound static_end) }
{
    match static_end {
        Some(end) => text_value(alloc, fits_word(device, bound, end)),
        None => Ok(Value::Null),
    }
}

// The room beside static data.
fn room_value(device: Device, static_end: Option<u16>) -> Value
    ensures { view result ≡ room_data device static_end }
{
    match static_end {
        Some(end) => Value::from(room(device, end)),
        None => Value::Null,
    }
}

// The end of static data.
fn static_value(static_end: Option<u16>) -> Value
    ensures { view result ≡ static_data static_end }
{
    match static_end {
        Some(end) => Value::from(end),
        None => Value::Null,
    }
}

// Whether a schedule attains the bound.
fn witness_value(alloc: Global, certificate: &Certificate) -> Result<Value, AllocError>
    ensures { IfOk result (λ v. view v ≡ witness_data certificate.now.witness) }
{
    match certificate.witness() {
        Some(_) => text_value(alloc, "attained"),
        None => text_value(alloc, "open"),
    }
}

// The name of a word.
fn name_value(alloc: Global, names: &Names, word: u32) -> Result<Value, AllocError>
    ensures { IfOk result (λ v. view v ≡ name_data (least_name names.now word)) }
{
    match names.at(word) {
        Some(name) => Ok(Value::String(String::from_utf8_lossy(alloc, name)?)),
        None => Ok(Value::Null),
    }
}

// Enable bits, as a text where they are above the numbers that each reader of JSON keeps.
fn enables_value(alloc: Global, enables: u128) -> Result<Value, AllocError>
    ensures { IfOk result (λ v. view v ≡ enables_data enables) }
{
    if enables <= MOST_EXACT {
        Ok(Value::from(enables as u64))
    } else {
        Ok(Value::String(enables.to_string(alloc)?))
    }
}

// The kind of an instance.
fn kind_value(alloc: Global, kind: Kind) -> Result<Value, AllocError>
    ensures { IfOk result (λ v. view v ≡ string (kind_word kind)) }
{
    match kind {
        Kind::Root => text_value(alloc, "root"),
        Kind::Call => text_value(alloc, "call"),
        Kind::Vector(vector) => {
            let mut text = String::from_str(alloc, "v")?;
            let digits = vector.to_string(alloc)?;
            text.push_str(digits.as_str())?;
            Ok(Value::String(text))
        }
    }
}

// Adds the members of an instance to an empty object.
fn put_members(
    members: &mut Map<String, Value>,
    alloc: Global,
    names: &Names,
    inst: &Inst,
) -> Result<(), AllocError>
    requires { members.old.entries ≡ [] }
    ensures { OnOk result (object (members_view members.new.entries) ≡ inst_data names.now inst.now) }
{
    serde_json::put(
        members,
        alloc,
        "enables",
        enables_value(alloc, inst.key.masks.bits())?,
    )?;
    serde_json::put(members, alloc, "entry", Value::from(inst.key.entry))?;
    serde_json::put(members, alloc, "i", Value::from(u8::from(inst.key.i)))?;
    serde_json::put(members, alloc, "kind", kind_value(alloc, inst.key.kind)?)?;
    serde_json::put(
        members,
        alloc,
        "name",
        name_value(alloc, names, inst.key.entry)?,
    )?;
    serde_json::put(members, alloc, "need", Value::from(inst.need))
}

// Writes the text before a value, and the value.
fn put_text(
    out: &mut Vec<u8>,
    alloc: Global,
    before: &[u8],
    value: &Value,
) -> Result<(), AllocError>
    requires { has_float (view value.now) ≡ false }
    ensures { OnOk result (out.new.items ≡ out.old.items ++ (before.now ++ compact_text (view value.now))) }
{
    let text = value.to_string(alloc)?;
    out.extend_from_slice(before)?;
    out.extend_from_slice(text.as_bytes())?;
    Ok(())
}

// Writes them for a value that is dropped before the next is made.
fn put(out: &mut Vec<u8>, alloc: Global, before: &[u8], value: Value) -> Result<(), AllocError>
    requires { has_float (view value) ≡ false }
    ensures { OnOk result (out.new.items ≡ out.old.items ++ (before.now ++ compact_text (view value))) }
{
    put_text(out, alloc, before, &value)
}

// Writes an instance.
fn put_inst(
    out: &mut Vec<u8>,
    alloc: Global,
    before: &[u8],
    names: &Names,
    inst: &Inst,
) -> Result<(), AllocError>
    ensures { OnOk result (out.new.items ≡ out.old.items ++ (before.now ++ compact_text (inst_data names.now inst.now))) }
{
    let mut members = Map::new(alloc);
    match put_members(&mut members, alloc, names, inst) {
        Ok(()) => put(out, alloc, before, Value::Object(members)),
        Err(error) => {
            drop(members);
            Err(error)
        }
    }
}

// Writes the instances, separated by commas.
fn put_insts(
    out: &mut Vec<u8>,
    alloc: Global,
    names: &Names,
    insts: &[Inst],
) -> Result<(), AllocError>
    ensures { OnOk result (out.new.items ≡ out.old.items ++ insts_text names.now insts.now) }
{
    let Some((first, others)) = insts.split_first() else {
        return Ok(());
    };
    put_inst(out, alloc, b"", names, first)?;
    for inst in others {
        put_inst(out, alloc, b",", names, inst)?;
    }
    Ok(())
}

// The input of a report: a certificate of firmware on a device, the names of its words and the end of its static data.
#[derive(Clone, Copy)]
struct Reported<'a> {
    device: Device,
    certificate: &'a Certificate,
    names: &'a Names,
    static_end: Option<u16>,
}

// Writes the report, each part before the next is made.
fn put_report(out: &mut Vec<u8>, alloc: Global, told: &Reported<'_>) -> Result<(), AllocError>
    ensures { OnOk result (out.new.items ≡ out.old.items ++ json_text told.now.device told.now.certificate.now told.now.names.now told.now.static_end) }
{
    let bound = told.certificate.bound();
    put(out, alloc, b"{\"bound\":", Value::from(bound))?;
    let fits = fits_value(alloc, told.device, bound, told.static_end)?;
    put(out, alloc, b",\"fits\":", fits)?;
    out.extend_from_slice(b",\"instances\":[")?;
    put_insts(out, alloc, told.names, told.certificate.instances())?;
    put(
        out,
        alloc,
        b"],\"room\":",
        room_value(told.device, told.static_end),
    )?;
    put(out, alloc, b",\"static\":", static_value(told.static_end))?;
    let witness = witness_value(alloc, told.certificate)?;
    put(out, alloc, b",\"witness\":", witness)?;
    out.extend_from_slice(b"}\n")?;
    Ok(())
}

/// The report of a certificate as one JSON object without spaces, and a line feed. It has the same content as the lines; what is absent is
/// null. Each part is written before the next is made, so that it takes little more memory than its text.
pub fn report_json(
    alloc: Global,
    device: Device,
    certificate: &Certificate,
    names: &Names,
    static_end: Option<u16>,
) -> Result<Vec<u8>, AllocError>
    ensures { IfOk result (λ v. v.items ≡ json_text device certificate.now names.now static_end) }
{
    let mut out = Vec::new(alloc);
    let told = Reported {
        device,
        certificate,
        names,
        static_end,
    };
    put_report(&mut out, alloc, &told)?;
    Ok(out)
}
