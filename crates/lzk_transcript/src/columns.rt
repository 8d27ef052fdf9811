//! The picked columns, kept ascending.

ghost use Rattle.std.specs.Prelude.{◌≡◌, ◌+◌, ◌-◌, ◌^◌, ◌<◌, ◌≤◌, ◌∷◌, ◌++◌, length, take, drop};
ghost use Rattle.lzk_transcript.specs.Insertion.{put_in};

// How many picked columns lie below the one that has `left` columns below it which are not picked.
#[tactic(auto, using(crate::proofs::PutIn::put_in_place))]
fn passed(picked: &[u32], left: u32) -> usize
    requires room { left + length picked.now < 2 ^ 32 }
    ensures within { result ≤ length picked.now }
    ensures place { put_in picked.now left ≡ take result picked.now ++ (left + result) ∷ drop result picked.now }
{
    for i in 0..picked.len() {
        if left + (i as u32) < picked[i] {
            return i;
        }
    }
    picked.len()
}

/// Puts that column into its place. The last place of the slice is free.
pub(crate) fn insert(columns: &mut [u32], left: u32)
    requires some { 0 < length columns.old }
    requires room { left + length columns.old < 2 ^ 32 }
    ensures { columns.new ≡ put_in (take (length columns.old - 1) columns.old) left }
{
    let last = columns.len() - 1;
    let place = passed(&columns[..last], left);
    columns[last] = left + place as u32;
    let above = &mut columns[place..];
    above.rotate_right(1);
}
