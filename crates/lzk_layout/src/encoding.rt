//! Writing a proof's file.

ghost use Rattle.lzk_profile.specs.Profile.{most_digests, file_letter};
ghost use Rattle.std.specs.Prelude.{◌≡◌, ◌+◌, ◌*◌, ◌≤◌, ◌++◌, [], ◌∷◌, length, map, take};
ghost use Rattle.std.specs.Int.{w32, to_le_bytes};
ghost use Rattle.lzk_layout.specs.Sizes.{AreParams, proof_length};
ghost use Rattle.lzk_layout.specs.Proofs.{flat, element_field, opened_fields, answers_bytes, HasLengths, ProofBytes, AreDigests};
ghost use Rattle.lzk_layout.specs.Files.{OneFile};

use crate::params::Params;
use crate::proof::Proof;
use lzk_field::Field;
use lzk_profile::FILE_LETTER;

// The bytes from `at` on become these. Where they end.
fn put(out: &mut [u8], at: usize, bytes: &[u8]) -> usize
    requires { at + length bytes.now ≤ length out.old }
    ensures end { result ≡ at + length bytes.now }
    ensures length { length out.new ≡ length out.old }
    ensures front { take result out.new ≡ take at out.old ++ bytes.now }
{
    let end = at + bytes.len();
    out[at..end].copy_from_slice(bytes);
    end
}

fn put_element<F: Field>(out: &mut [u8], at: usize, x: F) -> usize
    requires { at + F.coding.bytes ≤ length out.old }
    ensures end { result ≡ at + F.coding.bytes }
    ensures length { length out.new ≡ length out.old }
    ensures front { take result out.new ≡ take at out.old ++ element_field F.coding.bytes F.coding.number x }
{
    let mut buffer = [0u8; 16];
    let part = &mut buffer[..F::BYTES];
    x.to_le(part);
    put(out, at, &buffer[..F::BYTES])
}

fn put_elements<F: Field>(out: &mut [u8], at: usize, list: &[F]) -> usize
    requires { at + F.coding.bytes * length list.now ≤ length out.old }
    ensures end { result ≡ at + F.coding.bytes * length list.now }
    ensures length { length out.new ≡ length out.old }
    ensures front { take result out.new
        ≡ take at out.old ++ flat (map (element_field F.coding.bytes F.coding.number) list.now) }
{
    let mut end = at;
    for i in 0..list.len() {
        end = put_element(out, end, list[i]);
    }
    end
}

fn put_blocks(out: &mut [u8], at: usize, blocks: &[[u8; 32]]) -> usize
    requires { at + 32 * length blocks.now ≤ length out.old }
    ensures end { result ≡ at + 32 * length blocks.now }
    ensures length { length out.new ≡ length out.old }
    ensures front { take result out.new ≡ take at out.old ++ flat blocks.now }
    ensures digests { AreDigests blocks.now }
{
    let mut end = at;
    for i in 0..blocks.len() {
        end = put(out, end, &blocks[i]);
    }
    end
}

// To each nonce its column, of so many elements.
fn put_opened<F: Field>(
    out: &mut [u8],
    at: usize,
    nonces: &[[u8; 32]],
    columns: &[F],
    rows: usize,
) -> usize
    requires columns { length columns.now ≡ length nonces.now * rows }
    requires room { at + length nonces.now * (32 + F.coding.bytes * rows) ≤ length out.old }
    ensures end { result ≡ at + length nonces.now * (32 + F.coding.bytes * rows) }
    ensures length { length out.new ≡ length out.old }
    ensures front { take result out.new
        ≡ take at out.old
        ++ flat (opened_fields (element_field F.coding.bytes F.coding.number) rows nonces.now columns.now) }
    ensures digests { AreDigests nonces.now }
{
    let mut end = at;
    let mut rest = columns;
    for i in 0..nonces.len() {
        let (column, after) = rest.split_at(rows);
        end = put(out, end, &nonces[i]);
        end = put_elements(out, end, column);
        rest = after;
    }
    end
}

// The magic, the circuit's id and the root.
fn put_head<F: Field>(out: &mut [u8], proof: &Proof<F>) -> usize
    requires { 68 ≤ length out.old }
    ensures end { result ≡ 68 }
    ensures length { length out.new ≡ length out.old }
    ensures front { take result out.new ≡ (76 ∷ file_letter ∷ 80 ∷ 49 ∷ []) ++ (proof.now.id ++ proof.now.root) }
    ensures id { length proof.now.id ≡ 32 }
    ensures root { length proof.now.root ≡ 32 }
{
    let end = put(out, 0, &[b'L', FILE_LETTER, b'P', b'1']);
    let end = put(out, end, &proof.id);
    put(out, end, &proof.root)
}

// The elements that are no columns'.
fn put_answers<F: Field>(out: &mut [u8], at: usize, proof: &Proof<F>) -> usize
    requires { at + F.coding.bytes * (length proof.now.messages + length proof.now.ldt + length proof.now.dot
        + length proof.now.quad_head + length proof.now.quad_tail)
        ≤ length out.old }
    ensures end { result
        ≡ at + F.coding.bytes * (length proof.now.messages + length proof.now.ldt + length proof.now.dot
        + length proof.now.quad_head + length proof.now.quad_tail) }
    ensures length { length out.new ≡ length out.old }
    ensures front { take result out.new
        ≡ take at out.old ++ answers_bytes (element_field F.coding.bytes F.coding.number) proof.now }
{
    let end = put_elements(out, at, proof.messages.as_slice());
    let end = put_elements(out, end, proof.ldt.as_slice());
    let end = put_elements(out, end, proof.dot.as_slice());
    let end = put_elements(out, end, proof.quad_head.as_slice());
    put_elements(out, end, proof.quad_tail.as_slice())
}

// The path behind its count.
fn put_path<F: Field>(out: &mut [u8], at: usize, proof: &Proof<F>) -> usize
    requires few { length proof.now.path.digests ≤ most_digests }
    requires room { at + 4 + 32 * length proof.now.path.digests ≤ length out.old }
    ensures end { result ≡ at + 4 + 32 * length proof.now.path.digests }
    ensures length { length out.new ≡ length out.old }
    ensures front { take result out.new
        ≡ take at out.old ++ (to_le_bytes w32 (length proof.now.path.digests) ++ flat proof.now.path.digests) }
    ensures digests { AreDigests proof.now.path.digests }
{
    let count = proof.path.len() as u32;
    let end = put(out, at, &count.to_le_bytes());
    put_blocks(out, end, proof.path.as_slice())
}

/// Writes the file of this proof.
pub fn encode_proof<F: Field>(params: &Params, proof: &Proof<F>, out: &mut [u8])
    requires params { AreParams F.ops params.now }
    requires lengths { HasLengths params.now proof.now }
    requires few { length proof.now.path.digests ≤ most_digests }
    requires room { length out.old ≡ proof_length F.coding.bytes params.now (length proof.now.path.digests) }
    ensures file { ProofBytes F.coding.bytes F.coding.number params.now proof.now out.new }
    ensures one_file { OneFile F.coding.bytes F.coding.number params.now }
{
    let end = put_head(out, proof);
    let end = put_answers(out, end, proof);
    let rows = params.nrow as usize;
    let end = put_opened(
        out,
        end,
        proof.nonces.as_slice(),
        proof.columns.as_slice(),
        rows,
    );
    put_path(out, end, proof);
}
