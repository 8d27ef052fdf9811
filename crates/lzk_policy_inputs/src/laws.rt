//! The law, as the contract of a function that does nothing.

ghost use Rattle.lzk_policy_inputs.specs.Issued.{OnlyIssuedAreShown};

/// If a record is issued at each leaf of a row under a root, whatever a policy shows under that root, of however many
/// levels, is of the record that was issued at its leaf, or a collision is shown, or a record that leads to nodes
/// ([`lzk_sha_path::tree_laws`]).
pub fn issued_laws()
    ensures { OnlyIssuedAreShown }
{}
