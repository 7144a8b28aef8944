//! Numbers of nodes.

ghost use Rattle.std.specs.Prelude.{◌≡◌, Some};
ghost use Rattle.local_laws.specs.Laws.{HasKey};
ghost use Rattle.edge_rules.specs.Views.{index_of};

use family_edges::Filled;
use node_keys::NodeKey;

// The number of the node of this key, which must exist.
pub(crate) fn number_of(nodes: &Filled, key: &NodeKey) -> usize
    requires { HasKey nodes.now key.now }
    ensures { index_of key.now nodes.now ≡ Some result }
{
    match nodes.find(key) {
        Some(at) => at,
        None => unreachable!(),
    }
}
