//! The proof whose file the bytes are.

ghost use Rattle.lzk_profile.specs.Profile.{most_digests, file_letter};
ghost use Rattle.std.specs.Prelude.{◌≡◌, ℕ, ◌≤◌, ◌*◌, ◌++◌, [], ◌∷◌, length, map, replicate, OnOk, OnErr, IfErr, is_ok};
ghost use Rattle.lzk_layout.specs.Sizes.{AreParams, proof_length};
ghost use Rattle.lzk_layout.specs.Proofs.{element_field, opened_fields, fields_of, AreDigests, HasLengths, ProofBytes};
ghost use Rattle.lzk_layout.specs.Answers.{answer_fields, answer_sorts_of, Gives};
ghost use Rattle.lzk_layout.specs.declared.params.Params.{Params};
ghost use Rattle.lzk_layout.specs.Fields.{Shape, shape, magic, plain, element, opened_sorts, fields_at};
ghost use Rattle.lzk_layout.specs.Fields.{proof_at, ProofFaultAt};
ghost use Rattle.lzk_layout.specs.Files.{IsNoProof, IsRead, OneProof, OneFault, NoFault, SomeProof};

use crate::reading::{block_of, elements_into, magic_of, opened_into, path_into, stop};
use lzk_field::Field;
use lzk_layout::{Blocks, Elements, Params, Proof, ProofFault, ProofKind, Stop};

// The magic, the circuit's id and the root.
#[tactic(auto, unfolding(lzk_layout::specs::Fields::fields_at))]
fn head_into<'a>(id: &mut [u8; 32], root: &mut [u8; 32], bytes: &'a [u8]) -> Result<&'a [u8], Stop>
    ensures read { (s : Shape)
        → Gives (λ rest. ((76 ∷ file_letter ∷ 80 ∷ 49 ∷ []) ∷ id.new ∷ root.new ∷ [], rest.now)) result
        (fields_at s (magic ∷ plain ∷ plain ∷ []) bytes.now) }
    ensures id { OnOk result (length id.new ≡ 32) }
    ensures root { OnOk result (length root.new ≡ 32) }
{
    let rest = magic_of(bytes)?;
    let (first, rest) = block_of(rest)?;
    let (second, rest) = block_of(rest)?;
    *id = *first;
    *root = *second;
    Ok(rest)
}

// Elements in place of those of the list.
fn list_into<'a, F: Field>(list: &mut Elements<F>, bytes: &'a [u8]) -> Result<&'a [u8], Stop>
    ensures read { Gives (λ rest. (map (element_field F.coding.bytes F.coding.number) list.new, rest.now)) result
        (fields_at (shape F.coding.bytes F.coding.size) (replicate (length list.old) element) bytes.now) }
    ensures length { length list.new ≡ length list.old }
{
    elements_into(list.as_mut_slice(), bytes)
}

// Elements in place of those of the one list, and behind them those of the other.
fn lists_into<'a, F: Field>(
    one: &mut Elements<F>,
    other: &mut Elements<F>,
    bytes: &'a [u8],
) -> Result<&'a [u8], Stop>
    ensures read { let field = element_field F.coding.bytes F.coding.number in
        Gives (λ rest. (map field one.new ++ map field other.new, rest.now)) result
        (fields_at (shape F.coding.bytes F.coding.size)
        (replicate (length one.old) element ++ replicate (length other.old) element) bytes.now) }
    ensures one { length one.new ≡ length one.old }
    ensures other { length other.new ≡ length other.old }
{
    let rest = list_into(one, bytes)?;
    list_into(other, rest)
}

// To each nonce its column of so many elements.
fn columns_into<'a, F: Field>(
    nonces: &mut Blocks,
    columns: &mut Elements<F>,
    rows: usize,
    bytes: &'a [u8],
) -> Result<&'a [u8], Stop>
    requires { length columns.old ≡ length nonces.old * rows }
    ensures read { Gives
        (λ rest. (opened_fields (element_field F.coding.bytes F.coding.number) rows nonces.new columns.new, rest.now))
        result (fields_at (shape F.coding.bytes F.coding.size) (opened_sorts rows (length nonces.old)) bytes.now) }
    ensures nonces { length nonces.new ≡ length nonces.old }
    ensures digests { OnOk result (AreDigests nonces.new) }
    ensures columns { length columns.new ≡ length columns.old }
{
    opened_into(nonces.as_mut_slice(), columns.as_mut_slice(), rows, bytes)
}

// The elements that are no columns'.
fn answers_into<'a, F: Field>(proof: &mut Proof<F>, bytes: &'a [u8]) -> Result<&'a [u8], Stop>
    ensures read { Gives (λ rest. (answer_fields (element_field F.coding.bytes F.coding.number) proof.new, rest.now))
        result (fields_at (shape F.coding.bytes F.coding.size) (answer_sorts_of proof.old) bytes.now) }
    ensures lengths { (p : Params) → HasLengths p proof.old → HasLengths p proof.new }
    ensures others { proof.new ≡ record proof.old {
      messages = proof.new.messages;
      ldt = proof.new.ldt;
      dot = proof.new.dot;
      quad_head = proof.new.quad_head;
      quad_tail = proof.new.quad_tail;
    } }
{
    let rest = lists_into(&mut proof.messages, &mut proof.ldt, bytes)?;
    let rest = lists_into(&mut proof.dot, &mut proof.quad_head, rest)?;
    list_into(&mut proof.quad_tail, rest)
}

// The whole file.
fn file_into<F: Field>(params: &Params, bytes: &[u8], proof: &mut Proof<F>) -> Result<(), Stop>
    requires lengths { HasLengths params.now proof.old }
    requires room { most_digests ≤ proof.old.path.room }
    ensures read { Gives (λ _. fields_of (element_field F.coding.bytes F.coding.number) params.now.nrow proof.new)
        result (proof_at (shape F.coding.bytes F.coding.size) params.now bytes.now) }
    ensures few { OnOk result (length proof.new.path.digests ≤ most_digests) }
    ensures id { OnOk result (length proof.new.id ≡ 32) }
    ensures root { OnOk result (length proof.new.root ≡ 32) }
    ensures nonces { OnOk result (AreDigests proof.new.nonces) }
    ensures path { OnOk result (AreDigests proof.new.path.digests) }
    ensures lengths { HasLengths params.now proof.new }
    ensures room { proof.new.path.room ≡ proof.old.path.room }
{
    let rest = head_into(&mut proof.id, &mut proof.root, bytes)?;
    let rest = answers_into(proof, rest)?;
    let rows = params.nrow as usize;
    let rest = columns_into(&mut proof.nonces, &mut proof.columns, rows, rest)?;
    let rest = path_into(&mut proof.path, rest)?;
    if !rest.is_empty() {
        return Err(stop(ProofKind::Trailing, rest));
    }
    Ok(())
}

/// Makes `proof` the proof whose file the bytes are, with no memory taken. After a fault the proof's contents are free,
/// but for what `lengths` and `room` say: it may be decoded into again. It is the plain form beside
/// `Cursor` of lzk_layout, which a verifier reads by.
pub fn decode_proof<F: Field>(
    params: &Params,
    bytes: &[u8],
    proof: &mut Proof<F>,
) -> Result<(), ProofFault>
    requires params { AreParams F.ops params.now }
    requires lengths { HasLengths params.now proof.old }
    requires room { most_digests ≤ proof.old.path.room }
    ensures proof { OnOk result (ProofBytes F.coding.bytes F.coding.number params.now proof.new bytes.now) }
    ensures length { OnOk result
        (length bytes.now ≡ proof_length F.coding.bytes params.now (length proof.new.path.digests)) }
    ensures fault { IfErr result
        (λ e. ProofFaultAt (shape F.coding.bytes F.coding.size) params.now bytes.now e.offset e.kind) }
    ensures no_proof { OnErr result (IsNoProof F.coding.bytes F.coding.number params.now bytes.now) }
    ensures read { IsRead F.coding.bytes F.coding.number params.now proof.new bytes.now (is_ok result) }

    // It may be decoded into again.
    ensures lengths { HasLengths params.now proof.new }
    ensures room { proof.new.path.room ≡ proof.old.path.room }

    // What is a file, and what is a fault, is so in one way only.
    ensures one_proof { OneProof F.coding.bytes F.coding.number params.now }
    ensures one_fault { OneFault (shape F.coding.bytes F.coding.size) params.now }
    ensures no_fault { NoFault F.coding.bytes F.coding.size F.coding.number params.now }
    ensures some_proof { SomeProof F.coding.bytes F.coding.size F.coding.number params.now }
{
    match file_into(params, bytes, proof) {
        Ok(()) => Ok(()),
        Err(stop) => Err(ProofFault {
            offset: (bytes.len() - stop.left) as u64,
            kind: stop.kind,
        }),
    }
}
