//! The laws, as contracts of functions that do nothing.

ghost use Rattle.lzk_shares.specs.Shares.{few_share, most_bad, prime_share};
ghost use Rattle.lzk_policy_known.specs.Known.{PassersHoldRecords, RecordlessPassByOneIn};
ghost use Rattle.lzk_policy_known.specs.Rooted.{PassersHoldShown, RecordsUnderAreHeld, ShownlessPassByOneIn};

/// Whoever passes for a policy's circuit by more than few has committed to a record as it is shown. Without one he
/// passes by at most one in 2^prime_share, in LZK1 2^49, and by one in 2^few_share, 2^53, where the circuit has no more
/// than 1,024 bad elements.
pub fn known_laws()
    ensures holds { PassersHoldRecords }
    ensures any { RecordlessPassByOneIn most_bad prime_share }
    ensures few { RecordlessPassByOneIn 1024 few_share }
{}

/// For any policy, whether it shows a record's digest or a root above it.
pub fn rooted_laws()
    ensures held { RecordsUnderAreHeld }
    ensures holds { PassersHoldShown }
    ensures any { ShownlessPassByOneIn most_bad prime_share }
    ensures few { ShownlessPassByOneIn 1024 few_share }
{}
