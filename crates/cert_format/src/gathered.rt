//! The lists of a certificate: one reader for a given number of lines, and what each list does with a line.

ghost use Rattle.std.specs.Prelude.{◌≡◌, ◌≤◌, ◌<◌, ◌+◌, ◌||◌, ℕ, List, [], Option, length};
ghost use Rattle.avr_model.specs.State.{SIZE};
ghost use Rattle.avr_model.specs.Assumptions.{has_pairs};
ghost use Rattle.text_base.specs.Answers.{Answers};
ghost use Rattle.avr_model.specs.declared.device.Device as device_type;
ghost use Rattle.node_keys.specs.Keys.{offset_of};
ghost use Rattle.certificate.specs.Versions.{says_device};
ghost use Rattle.cert_format.specs.declared.fault.CertFault.{CertFault};
ghost use Rattle.cert_format.specs.declared.fault.CertFault.TheVariants as fault;
ghost use Rattle.cert_format.specs.Reading.{is_admitted, last_in, is_node_above, with_node, AddsText, AddsLine, AddsLines};

use crate::fault::CertFault;
use crate::lines::{instance_of, node_of};
use assumption_files::entry_of;
use avr_model::assumption::Entry;
use avr_model::device::Device;
use certificate::{Form, Inst, Limit, MOST_CELLS, Version, says_device};
use edge_rules::NodeForm;
use node_keys::NodeKey;
use std::alloc::Global;
use std::marker::Model;
use text_base::LineReader;
use vector_table::{AssumeFault, Assumptions};

// A list that is read line by line.
pub(crate) trait Gathered {
    type Item;

    /// The items so far.
    ghost items: { Self → List Self.Item };

    /// The greatest number of items.
    ghost most: { ℕ };

    /// The item of a line's text in a certificate for a device, by the number of items before it.
    ghost by: { device_type.Device → Self → ℕ → List ℕ → Option Self.Item };

    /// The refusal of an item of a line at an offset, after those before it, if it is refused.
    ghost refused: { List Self.Item → Self.Item → ℕ → Option CertFault };

    // Appends the item of a line's text at this offset.
    fn add(
        &mut self,
        alloc: Global,
        device: Device,
        text: &[u8],
        at: usize,
    ) -> Result<(), CertFault>
        requires { length (items self.old) < most }
        ensures exact { AddsText (items, by device, refused) self.old self.new (text.now, at) result }
        ensures same { by device self.new ≡ by device self.old };
}

// Reads the item of the next line.
#[tactic(auto, unfolding(crate::specs::Reading::longer_at, line_reading::specs::Reading::line_by))]
fn read_next<G: Gathered>(
    alloc: Global,
    device: Device,
    reader: &mut LineReader<'_>,
    list: &mut G,
) -> Result<(), CertFault>
    requires { length (G.items list.old) < G.most }
    ensures exact { AddsLine (G.items, G.by device, G.refused) (list.old, reader.old) (list.new, reader.new) result }
    ensures same { G.by device list.new ≡ G.by device list.old }
{
    let at = reader.offset();
    match reader.next() {
        Some(line) if line.whole => list.add(alloc, device, line.text, at),
        _ => Err(CertFault::Malformed(at)),
    }
}

// Reads this many items of a certificate for the device.
pub(crate) fn read_each<G: Gathered>(
    alloc: Global,
    device: Device,
    reader: &mut LineReader<'_>,
    list: &mut G,
    count: u64,
) -> Result<(), CertFault>
    requires { length (G.items list.old) + count ≤ G.most }
    ensures { AddsLines count (G.items, G.by device, G.refused) (list.old, reader.old) (list.new, reader.new) result }
{
    for _ in 0..count {
        if let Err(fault) = read_next(alloc, device, reader, list) {
            return Err(fault);
        }
    }
    Ok(())
}

// Whether an entry may be in a list that begins so: where the text says no device, `pairs` may be only where it is already.
fn is_admitted(device: Device, list: &Assumptions, entry: &Entry) -> bool
    ensures { result ≡ is_admitted (says_device device || has_pairs list.now) entry.now }
{
    match entry {
        Entry::Pairs => says_device(device) || list.has_pairs(),
        Entry::Masks => true,
        Entry::Jump(_, _) | Entry::Store(_, _) => true,
        Entry::Prove(_) | Entry::Free(_) | Entry::Never(_) | Entry::Frame(_) => true,
        Entry::Recur(_, _) | Entry::Scratch(_) => true,
    }
}

impl Gathered for Assumptions {
    type Item = Entry;

    ghost use Rattle.vector_table.specs.Entries.{most_entries};
    ghost use Rattle.cert_format.specs.Reading.{entry_by, refused_entry};

    ghost items = { λ list. list };

    ghost most = { most_entries };

    ghost by = { λ device list at. entry_by device (says_device device || has_pairs list) };

    ghost refused = { refused_entry };

    fn add(
        &mut self,
        alloc: Global,
        device: Device,
        text: &[u8],
        at: usize,
    ) -> Result<(), CertFault> {
        let Some(entry) = entry_of(alloc, device, text)? else {
            return Err(CertFault::Malformed(at));
        };
        if !is_admitted(device, self, &entry) {
            drop(entry);
            return Err(CertFault::Malformed(at));
        }
        match self.push(entry) {
            Ok(()) => Ok(()),
            Err(AssumeFault::Order) => Err(CertFault::Order(at)),
            Err(AssumeFault::Memory) => Err(CertFault::Memory),
        }
    }
}

impl Gathered for Vec<Inst> {
    type Item = Inst;

    ghost use Rattle.certificate.specs.Claims.{most_instances};
    ghost use Rattle.cert_format.specs.Reading.{inst_by, refused_inst};

    ghost items = { λ list. list.items };

    ghost most = { most_instances };

    ghost by = { λ device list at. inst_by device };

    ghost refused = { refused_inst };

    fn add(
        &mut self,
        _alloc: Global,
        device: Device,
        text: &[u8],
        at: usize,
    ) -> Result<(), CertFault> {
        let Some(instance) = instance_of(device, text) else {
            return Err(CertFault::Malformed(at));
        };
        if let Some(last) = self.last() {
            if !last.key.cmp(&instance.key).is_lt() {
                return Err(CertFault::Order(at));
            }
        }
        match self.push(instance) {
            Ok(()) => Ok(()),
            Err(_) => Err(CertFault::Memory),
        }
    }
}

// Nodes, with the version of their lines and the instances that the lines number. Seen as all three.
#[derive(Drop)]
pub(crate) struct NodeList<'a> {
    version: Version,
    instances: &'a [Inst],
    nodes: Vec<(NodeKey, NodeForm)>,
    cells: u32,
}

impl<'a> Model for NodeList<'a> {
    ghost use Rattle.std.specs.Prelude.{◌≡◌, ◌≤◌};
    ghost use Rattle.certificate.specs.Claims.{most_cells, cells_of, seed_keys};
    ghost use Rattle.cert_format.specs.Reading.{NodesSoFar};

    ghost Value = { NodesSoFar };

    ghost view = { λ l. record { version = l.version; instances = l.instances.now; nodes = l.nodes.items } };

    ghost invariant = { λ l. (l.cells ≡ cells_of (seed_keys l.nodes.items)) × (l.cells ≤ most_cells) };
}

// Whether a node is above the last one.
fn is_node_above(nodes: &[(NodeKey, NodeForm)], key: &NodeKey) -> bool
    ensures { result ≡ is_node_above (last_in nodes.now) key.now }
{
    match nodes.last() {
        Some(last) => last.0.cmp(key).is_lt(),
        None => true,
    }
}

impl<'a> NodeList<'a> {
    // No nodes.
    #[tactic(auto, using(crate::proofs::Items::no_cells))]
    pub(crate) fn empty(alloc: Global, version: Version, instances: &'a [Inst]) -> NodeList<'a>
        ensures { result ≡ record { version = version; instances = instances.now; nodes = [] } }
    {
        NodeList {
            version,
            instances,
            nodes: Vec::new(alloc),
            cells: 0,
        }
    }

    // The nodes.
    pub(crate) fn into_nodes(self) -> Vec<(NodeKey, NodeForm)>
        ensures { result.items ≡ self.entry.nodes }
    {
        self.nodes
    }

    // Appends a node of a line at this offset.
    #[tactic(auto, using(crate::proofs::Items::cells_more))]
    fn append(&mut self, node: (NodeKey, NodeForm), at: usize) -> Result<(), CertFault>
        requires { offset_of node.0.sp ≤ SIZE }
        ensures exact { Answers (λ u. self.new.nodes) fault.Memory result (with_node self.old.nodes node at) }
        ensures version { self.new.version ≡ self.old.version }
        ensures same { self.new.instances ≡ self.old.instances }
    {
        if !is_node_above(&self.nodes, &node.0) {
            drop(node);
            return Err(CertFault::Order(at));
        }
        let more = self.cells + (1 + u32::from(node.0.offset()));
        if u64::from(more) > MOST_CELLS {
            drop(node);
            return Err(CertFault::Limit(Limit::Cells));
        }
        match self.nodes.push(node) {
            Ok(()) => {
                self.cells = more;
                Ok(())
            }
            Err(_) => Err(CertFault::Memory),
        }
    }
}

impl<'a> Gathered for NodeList<'a> {
    type Item = (NodeKey, NodeForm);

    ghost use Rattle.certificate.specs.Claims.{most_nodes};
    ghost use Rattle.cert_format.specs.Reading.{node_by, refused_node};

    ghost items = { λ list. list.nodes };

    ghost most = { most_nodes };

    ghost by = { λ device list. node_by device list.version list.instances };

    ghost refused = { refused_node };

    fn add(
        &mut self,
        alloc: Global,
        device: Device,
        text: &[u8],
        at: usize,
    ) -> Result<(), CertFault> {
        let number = self.nodes.len();
        let form = Form {
            device,
            version: self.version,
        };
        match node_of(alloc, form, text, self.instances, number)? {
            Some(node) => self.append(node, at),
            None => Err(CertFault::Malformed(at)),
        }
    }
}
