//! A round's sums: by the caller alone, or in parts, each of which a worker sums.

ghost use Rattle.std.specs.Prelude.{◌≡◌, ℕ, ◌+◌, ◌-◌, ◌*◌, ◌/◌, ◌^◌, ◌<◌, ◌≤◌, min, length};
ghost use Rattle.lzk_sumcheck.specs.States.{State, bind_state, total};
ghost use Rattle.lzk_sumcheck_rounds.specs.Parts.{AreSums, BeginsWithSums};
ghost use Rattle.lzk_sumcheck_rounds.specs.Rows.{round_at, row_at};
ghost use Rattle.lzk_sumcheck_rounds.specs.Tables.{AreKept};

use lzk_field::Field;
use lzk_sumcheck_rounds::{RoundSums, SUMS, Summed, Tables, add_parts, sum_part, sum_whole};
use lzk_work_crew::Crew;
use lzk_work_threads::{Hands, for_each_chunk_mut};

/// How many pairs and entries of a table make a part that is worth a thread: to start one takes as long as some
/// thousands of them.
const WORTH_A_THREAD: usize = 10_000;

// In how many parts a round over so many pairs and entries is summed: at most one for each worker, and each worth a
// thread.
fn parts_of<R, G>(crew: &Crew<R, G>, pairs: usize, entries: usize) -> usize
    ensures some { 1 ≤ result }
    ensures few { result ≤ 64 }
{
    let worth = pairs / WORTH_A_THREAD + entries / WORTH_A_THREAD;
    if worth < 2 {
        1
    } else if worth < crew.workers {
        worth
    } else {
        crew.workers
    }
}

// Sums a round, in parts where each is worth a worker, which has rows of its own. The sums are the same for every
// number of workers. `rows` is written over.
fn sum_round<R: Hands, F: Field, G>(
    crew: &Crew<R, G>,
    round: &Summed<F>,
    rows: &mut [F],
) -> RoundSums<F>
    requires { length round.now.first.now + 3 * 64 ≤ length rows.old }
    ensures { let r = round.now in
        AreSums F.ops (row_at F.ops r.of_a r.pairs.now r.scale r.linear.now r.second.now) r.first.now result }
{
    let parts = parts_of(crew, round.pairs.len(), round.first.len());
    if parts == 1 {
        return sum_whole(round, rows);
    }
    let each = round.first.len().div_ceil(2).div_ceil(parts);
    let count = round.first.len().div_ceil(2 * each);
    let size = SUMS + 2 * each;
    let (used, _) = rows.split_at_mut(round.first.len() + SUMS * count);
    let one = |start: usize, part: &mut [F]|
        requires { (0 < size)
            × (1 ≤ each)
            × (2 * (start / size * each) < length round.now.first.now)
            × (length part.now ≡ 3 + min (2 * each) (length round.now.first.now - 2 * (start / size * each))) }
        ensures { let r = round.entry.now in
            BeginsWithSums F.ops (row_at F.ops r.of_a r.pairs.now r.scale r.linear.now r.second.now) r.first.now
            (start / size * each) each part.exit.now }
    {
        sum_part(round, start / size, each, part);
    };
    for_each_chunk_mut(crew.rt, used, size, &one);
    add_parts(used, size, count)
}

/// The sums of a round.
pub(crate) fn sums<R: Hands, F: Field, G>(crew: &Crew<R, G>, tables: &mut Tables<F>) -> RoundSums<F>
    ensures same { tables.new ≡ tables.old }
    ensures value { let o = F.ops in
        (j k : ℕ) (st : State F) → AreKept o (j + 1) k st tables.old → length tables.old.first ≤ 2 ^ (j + 1)
        → length tables.old.second ≤ 2 ^ k → (t : F)
        → round_at o result t ≡ total o (bind_state o t st) }
{
    let (pairs, linear) = (tables.pair_count, tables.linear_count);
    let (first, second) = (tables.first_count, tables.second_count);
    let round = Summed {
        of_a: tables.of_a,
        scale: tables.scale,
        linear: &tables.linear[..linear],
        first: &tables.first[..first],
        second: &tables.second[..second],
        pairs: &tables.pairs[..pairs],
    };
    sum_round(crew, &round, &mut tables.rows)
}
