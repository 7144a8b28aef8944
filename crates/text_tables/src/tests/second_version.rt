//! A certificate of the second version with each kind of word that the first lacks, and one of the third with each kind that the second
//! lacks. Small damages to them are in tests/end_to_end.

use super::certificates::Piece;
use cert_format::Certificate;
use edge_rules::NodeForm;
use pair_domain::{CompareTag, Side, SumTag, ZeroTag};
use sp_domain::CarryTag;

/// A certificate with lines of each kind, ranges, carry tags of each kind, picks, and a vector of one word.
pub const LATER: &[Piece] = &[
    (b"stackcert 2\n", b"", 0, b""),
    (b"bound 4\n", b"", 0, b""),
    (b"assume 8\n", b"", 0, b""),
    (b"masks\njump 0003 0004 0005\n", b"", 0, b""),
    (
        b"prove 0004\nfree 0005\nnever 0006\nframe 0006\nrecur 0010 4\nscratch 0011\n",
        b"",
        0,
        b"",
    ),
    (b"instances 3\n", b"", 0, b""),
    (b"inst root 0000 0000000 0 rank 2 need 4\n", b"", 0, b""),
    (b"inst call 0010 0000001 1 rank 1 need 3\n", b"", 0, b""),
    (b"inst v2 0001 0000001 0 rank 0 need 2\n", b"", 0, b""),
    (b"nodes 5\n", b"", 0, b""),
    (
        b"node 0 0000 0000000 0 0 c0 -",
        b" -000000FF",
        32,
        b" -7F00 -\n",
    ),
    (b"node 0 0000 0000000 0 0 c0 00 from 0\n", b"", 0, b""),
    (
        b"node 0 0002 0000000 0 1 o2,k08 3F",
        b" -0F0505F5",
        32,
        b" -7F00 c1F80 -0F050606 .\n",
    ),
    (
        b"node 1 0010 0000001 1 0 o3,t0003 -",
        b" e1F0F051545",
        32,
        b" f7F00 b0301 . l03FFFEFEFE h0003FF080808\n",
    ),
    (
        b"node 1 0011 0000001 1 0 c0 -",
        b" e1F0F051545",
        32,
        b" f7F00 s0301\n",
    ),
    (b"witness attained\nschedule 1\nfill 00\nend\n", b"", 0, b""),
    (b"end\n", b"", 0, b""),
];

/// A certificate with the lines `pairs` and `masks`, and each kind of fact on pairs.
pub const PAIRS: &[Piece] = &[
    (b"stackcert 3\n", b"", 0, b""),
    (b"bound 4\n", b"", 0, b""),
    (b"assume 3\n", b"", 0, b""),
    (b"pairs\nmasks\n", b"", 0, b""),
    (b"prove 0004\n", b"", 0, b""),
    (b"instances 2\n", b"", 0, b""),
    (b"inst root 0000 0000000 0 rank 2 need 4\n", b"", 0, b""),
    (b"inst call 0010 0000001 1 rank 1 need 3\n", b"", 0, b""),
    (b"nodes 4\n", b"", 0, b""),
    (
        b"node 0 0000 0000000 0 0 c0 -",
        b" -000000FF",
        32,
        b" -7F00 - - - - -\n",
    ),
    (b"node 0 0000 0000000 0 0 c0 00 from 0\n", b"", 0, b""),
    (
        b"node 0 0002 0000000 0 1 o2,k08 3F",
        b" -000000FF",
        32,
        b" -7F00 c1F80 u180010000120 18k0519 p1E 000001FFFE1E00050123 -0F050606 .\n",
    ),
    (
        b"node 1 0010 0000001 1 0 c1 -",
        b" e1F0F051545",
        32,
        b" f7F00 b0301 d00000010FFFF 1Fr00 b1F 1E15161545 .\n",
    ),
    (b"witness attained\nschedule 1\nfill 00\nend\n", b"", 0, b""),
    (b"end\n", b"", 0, b""),
];

/// Whether some of its values are those of the words that the first version lacks.
pub fn has_later_values(certificate: &Certificate) -> Option<bool> {
    let vector = certificate.instances().get(2)?;
    let second = certificate.nodes().get(1)?;
    let third = certificate.nodes().get(2)?;
    let NodeForm::State(held) = &third.1 else {
        return None;
    };
    let state = held.get();
    let first = state.registers.get(0)?;
    let picks = second.0.pick == Some(0) && third.0.pick == Some(0x3F);
    let range = first.bits.value == 5 && first.low == 5 && first.high == 0xF5;
    Some(vector.key.entry == 1 && picks && range && state.flags.carry == CarryTag::Less(31, 0x80))
}

/// Whether some facts on pairs are those of the words.
pub fn has_its_facts(certificate: &Certificate) -> Option<bool> {
    let third = certificate.nodes().get(2)?;
    let NodeForm::State(held) = &third.1 else {
        return None;
    };
    let facts = held.get().facts.get()?;
    let first = facts.intervals.get(0)?;
    let second = facts.intervals.get(1)?;
    let last = facts.intervals.get(15)?;
    let intervals = first.low == 1 && second.low == 0 && last.low == 5 && last.high == 0x123;
    let tags = facts.sum == SumTag::Up(24, 0x100, 0x120)
        && facts.compare == CompareTag::Pair(24, Side::Byte(5), 25)
        && facts.zero == ZeroTag::Pair(30);
    Some(intervals && tags)
}
