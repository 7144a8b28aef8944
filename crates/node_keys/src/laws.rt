//! Laws of keys and of splits, each as the contract of a function with an empty body.

ghost use Rattle.node_keys.specs.Laws.{KeysAreTheirNumbers, KeysAreOrdered, NodesGoByInstance, SplitsAreWrites, EnablesStayAmong};

/// The order of keys is total, and only equal keys compare equal, by the order and by `==`.
pub fn keys_are_ordered()
    ensures { KeysAreOrdered }
{}

/// Keys with equal numbers are equal. Nodes are ordered by instance first, so those of one instance are adjacent in a sorted list.
pub fn keys_are_their_numbers()
    ensures numbers { KeysAreTheirNumbers }
    ensures instances { NodesGoByInstance }
{}

/// The splits of a write are what writing the members of the byte leaves: at most 256, ascending.
pub fn splits_are_writes()
    ensures { SplitsAreWrites }
{}

/// What is enabled stays among what may be enabled, for each way in which a step writes enable bits.
pub fn enables_stay_among()
    ensures { EnablesStayAmong }
{}
