//! The lines of instances and nodes.

ghost use Rattle.std.specs.Prelude.{◌≡◌, ◌≤◌, IfSome, IfOk};
ghost use Rattle.std.specs.Option.{option_map};
ghost use Rattle.avr_model.specs.Devices.{depth_of};
ghost use Rattle.text_base.specs.Lines.{words_of};
ghost use Rattle.node_keys.specs.Keys.{offset_of};
ghost use Rattle.cert_format.specs.LineReading.{inst_in, whole_key_at, node_in};

use avr_model::device::Device;
use cert_words::{inst_key_of, node_form_of, node_key_of};
use certificate::{Form, Inst};
use edge_rules::NodeForm;
use line_reading::{dec_word, expect_word, is_over};
use node_keys::NodeKey;
use std::alloc::{AllocError, Global};
use text_base::Words;

// The instance of a line of a certificate for the device.
#[tactic(auto, unfolding(crate::specs::LineReading::inst_in))]
pub(crate) fn instance_of(device: Device, text: &[u8]) -> Option<Inst>
    ensures { result ≡ inst_in device (words_of text.now) }
{
    let mut words = Words::new(text);
    let (Some(()), Some(key), Some(()), Some(rank), Some(()), Some(need)) = (
        expect_word(&mut words, b"inst"),
        inst_key_of(device, &mut words),
        expect_word(&mut words, b"rank"),
        dec_word(&mut words, 65_535),
        expect_word(&mut words, b"need"),
        dec_word(&mut words, u64::from(device.depth())),
    ) else {
        return None;
    };
    if is_over(&mut words) {
        Some(Inst {
            key,
            rank: rank as u32,
            need: need as u32,
        })
    } else {
        None
    }
}

// A node's key: its instance by number, and its program point.
#[tactic(auto, unfolding(crate::specs::LineReading::whole_key_at, crate::specs::LineReading::instance_at))]
fn whole_key_of(form: Form, words: &mut Words<'_>, instances: &[Inst]) -> Option<NodeKey>
    ensures exact { option_map (λ k. (k, words.new)) result ≡ whole_key_at form.device form.version instances.now words.old }
    ensures small { IfSome result (λ k. offset_of k.sp ≤ depth_of form.device) }
{
    let (Some(()), Some(number)) = (expect_word(words, b"node"), dec_word(words, 65_535)) else {
        return None;
    };
    let instance = instances.get(number as usize)?;
    node_key_of(form, words, &instance.key)
}

// The node of the line number `at` in a certificate of this form.
#[tactic(auto, unfolding(crate::specs::LineReading::node_in))]
pub(crate) fn node_of(
    alloc: Global,
    form: Form,
    text: &[u8],
    instances: &[Inst],
    at: usize,
) -> Result<Option<(NodeKey, NodeForm)>, AllocError>
    ensures exact { IfOk result (λ o. o ≡ node_in form.device form.version instances.now at (words_of text.now)) }
    ensures small { IfOk result (λ o. IfSome o (λ n. offset_of n.0.sp ≤ depth_of form.device)) }
{
    let mut words = Words::new(text);
    let Some(key) = whole_key_of(form, &mut words, instances) else {
        return Ok(None);
    };
    let Some(node_form) = node_form_of(alloc, form, &mut words, &key, at)? else {
        return Ok(None);
    };
    if is_over(&mut words) {
        Ok(Some((key, node_form)))
    } else {
        drop(node_form);
        Ok(None)
    }
}
