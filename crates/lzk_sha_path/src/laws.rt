//! The laws, as contracts of a function that does nothing.

ghost use Rattle.lzk_sha_path.specs.Trees.{OnlyIssuedClimb, OnlyIssuedLead, RecordsAreLeaves};

/// No record is taken for a node, whatever the depths, unless a collision is shown, or a record that leads to nodes. A
/// collision is two different pairs of a first state and a block with one state after both. A pair is a block of a
/// padded record with the state before it, which is the initial hash value of SHA-256 before the first, or the initial
/// hash value of SHA-224 with the block of two nodes. A record of two blocks leads to nodes where the state after the
/// first is the initial hash value of SHA-224. So where a record is issued at each leaf of a row under a root, whoever
/// shows another one under that root shows one of these.
pub fn tree_laws()
    ensures leaves { RecordsAreLeaves }
    ensures lead { OnlyIssuedLead }
    ensures climb { OnlyIssuedClimb }
{}
