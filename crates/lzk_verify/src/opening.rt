//! The checks of a proof's id, path and root.

ghost use Rattle.std.specs.Prelude.{◌≡◌, ◌≤◌, ◌*◌, length, List, ℕ, take};
ghost use Rattle.lzk_merkle.specs.Nodes as tree;
ghost use Rattle.lzk_merkle.specs.Nodes.{AreOpened};
ghost use Rattle.lzk_verify.specs.Checks.{needed_digests};
ghost use Rattle.lzk_verify.specs.Desk.{IsChecked};

use lzk_field::Field;
use lzk_layout::Plan;
use lzk_merkle::{needed, root_of};

/// The columns that are opened.
#[derive(Drop)]
pub(crate) struct Opened<'k, 'c, F: Field> {
    pub(crate) plan: &'k Plan<'c, F>,
    pub(crate) columns: &'k [u32],
    ghost opened: { AreOpened plan.now.params.mcol columns.now },
}

/// A proof's id where it is not this one.
pub(crate) fn check_circuit_id(id: &[u8; 32], found: &[u8; 32]) -> Option<[u8; 32]>
    ensures { IsChecked (found.now ≡ id.now) found.now result }
{
    if found == id { None } else { Some(*found) }
}

/// How many digests the drawn columns need, where the proof has another number of them.
pub(crate) fn check_path_count<F: Field>(opened: &Opened<'_, '_, F>, found: u32) -> Option<u32>
    ensures { let wanted = needed_digests opened.now.plan.now.params opened.now.columns.now in
        IsChecked (found ≡ wanted) wanted result }
{
    let count = needed(opened.plan.params.mcol, opened.columns);
    if found == count { None } else { Some(count) }
}

/// The root that the opened columns and the path lead to, where it is not the proof's. `nodes` is room, and says
/// nothing afterwards.
pub(crate) fn check_root<F: Field>(
    opened: &Opened<'_, '_, F>,
    root: &[u8; 32],
    leaves: &[[u8; 32]],
    path: &[[u8; 32]],
    nodes: &mut [[u8; 32]],
) -> Option<[u8; 32]>
    requires path { length path.now ≡ needed_digests opened.now.plan.now.params opened.now.columns.now }
    requires leaves { length leaves.now ≡ length opened.now.columns.now }
    requires nodes { length nodes.old ≡ 2 * opened.now.plan.now.params.mcol }
    ensures root { let o = opened.now in
        let found = tree.root_of o.plan.now.params.mcol o.columns.now leaves.now path.now in
        IsChecked (found ≡ root.now) found result }
    ensures nodes { length nodes.new ≡ 2 * opened.now.plan.now.params.mcol }
{
    let found = root_of(opened.plan.params.mcol, opened.columns, leaves, path, nodes);
    if found == *root { None } else { Some(found) }
}
