//! The parameters of a circuit.

ghost use Rattle.lzk_profile.specs.Profile.{most_digests, most_committed, most_row, most_sent};
ghost use Rattle.std.specs.Prelude.{◌≡◌, ◌<◌, ◌≤◌, ◌+◌, ◌*◌};
ghost use Rattle.lzk_layout.specs.Sizes.{row_width, sent_counts, committed_count, params_of, AreParams, AreBounded, place_of, proof_length};
ghost use Rattle.lzk_layout.specs.Places.{copy_place_of};

use crate::limits::{BLINDS, OPENED};
use lzk_circuit::{Circuit, bits_of};
use lzk_field::Field;
use lzk_profile::ROW_FACTOR;

/// The numbers and lengths that a circuit gives, those of 'Parameters and committed values' of the profile in
/// docs/FORMATS.md.
#[derive(Clone, Copy, Debug, PartialEq, Eq)]
pub struct Params {
    /// How many elements are committed to.
    pub nw: u32,
    /// How many of them stand in a row.
    pub wr: u32,
    /// How many values give a row's polynomial: as many random ones as columns are opened, and the row's elements.
    pub block: u32,
    /// How many values give the product of two rows' polynomials.
    pub dblock: u32,
    /// How many columns the tree has.
    pub mcol: u32,
    /// How many points there are, the columns' last.
    pub ncol: u32,
    /// How many rows the committed elements take.
    pub nwrow: u32,
    /// How many triples of rows hold the copies of the layers' factors.
    pub ntriple: u32,
    /// How many rows there are.
    pub nrow: u32,
    /// How many elements the sumchecks send.
    pub nsum: u32,
    /// How many layers the circuit has, the input layer not counted.
    pub layers: u32,
}

// The least power of two, at least 64, whose square is no less than `ROW_FACTOR` times `nw`.
fn row_width_of(nw: u32) -> u32
    requires { nw ≤ most_committed }
    ensures width { result ≡ row_width nw }
    ensures wide { 64 ≤ result }
    ensures narrow { result ≤ most_row }
{
    let least = ROW_FACTOR * nw;
    if least <= 64 * 64 {
        64
    } else if least <= 128 * 128 {
        128
    } else if least <= 256 * 256 {
        256
    } else if least <= 512 * 512 {
        512
    } else if least <= 1024 * 1024 {
        1024
    } else if least <= 2048 * 2048 {
        2048
    } else {
        4096
    }
}

// How many elements the sumchecks send, and how many are committed to.
fn counts_of<F: Field>(circuit: &Circuit<F>) -> (u32, u32)
    ensures sent { result.0 ≡ sent_counts circuit.now }
    ensures committed { result.1 ≡ committed_count circuit.now }
    ensures few_sent { result.0 ≤ most_sent }
    ensures few_committed { result.1 ≤ most_committed }
{
    let mut sent: u32 = 0;
    let mut pads: u32 = 0;
    for l in 0..circuit.depth() {
        let bits = bits_of(circuit.width(l + 1));
        sent += 4 * bits + 2;
        pads += 4 * bits + 3;
    }
    (sent, circuit.privates() + pads)
}

impl Params {
    /// The parameters of this circuit.
    pub fn of<F: Field>(circuit: &Circuit<F>) -> Params
        ensures params { result ≡ params_of circuit.now }
        ensures valid { AreParams F.ops result }
        ensures bounds { AreBounded result }
    {
        let (nsum, nw) = counts_of(circuit);
        let layers = circuit.depth();
        let wr = row_width_of(nw);
        let block = BLINDS as u32 + wr;
        let dblock = 2 * block - 1;
        let mcol = 4 * block;
        let nwrow = nw.div_ceil(wr);
        let ntriple = layers.div_ceil(wr);
        Params {
            nw,
            wr,
            block,
            dblock,
            mcol,
            ncol: dblock + mcol,
            nwrow,
            ntriple,
            nrow: 3 + nwrow + 3 * ntriple,
            nsum,
            layers,
        }
    }

    /// Row and position of entry `j` of the committed list.
    pub fn place(&self, j: u32) -> (u32, u32)
        requires params { AreBounded self.now }
        requires entry { j < self.now.nw }
        ensures place { result ≡ place_of self.now j }
        ensures row { result.0 < 3 + self.now.nwrow }
        ensures position { result.1 < self.now.wr }
    {
        (3 + j / self.wr, j % self.wr)
    }

    /// Row and position of the copy of value `m` of the quadratic constraints. Layer l has the values from 3l on: its
    /// first factor's pad, the second's, and their product.
    pub fn copy_place(&self, m: u32) -> (u32, u32)
        requires params { AreBounded self.now }
        requires value { m < 3 * self.now.layers }
        ensures place { result ≡ copy_place_of self.now m }
        ensures row { result.0 < self.now.nrow }
        ensures position { result.1 < self.now.wr }
    {
        let layer = m / 3;
        let row = 3 + self.nwrow + 3 * (layer / self.wr) + m % 3;
        (row, layer % self.wr)
    }
}

/// How many bytes a proof's file with so many path digests has, for elements of F.
pub fn proof_len<F: Field>(params: &Params, digests: u32) -> u64
    requires { AreParams F.ops params.now }
    ensures length { result ≡ proof_length F.coding.bytes params.now digests }
    ensures fits { digests ≤ most_digests → result ≤ 2097152 }
{
    let elements = params.nsum
        + params.block
        + params.dblock
        + BLINDS as u32
        + (params.dblock - params.block);
    let width = F::BYTES as u64;
    let columns = OPENED as u64 * (32 + width * params.nrow as u64);
    72 + width * elements as u64 + columns + 32 * digests as u64
}
