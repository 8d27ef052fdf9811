//! SHA-256 as circuits, with digests of FIPS 180-4's examples.

use lzk_circuit::Circuit;
use lzk_goldilocks::Gold;
use lzk_sha_blocks::{DigestError, digest_circuit, digest_inputs, hashing_laws};
use lzk_sha_circuit::{ShaInputs, compression_laws, sha_circuit, sha_inputs};
use lzk_tests_shared::{is_satisfied, word_elements};
use std::alloc::{AllocError, Global};
use std::test::Fail;

// A message of two blocks.
const MESSAGE: [u8; 56] = *b"abcdbcdecdefdefgefghfghighijhijkijkljklmklmnlmnomnopnopq";

// The state behind its first block.
const MIDDLE: &str = "85e655d6417a17953363376a624cde5c76e09589cac5f811cc4b32c1f20e533a";

// Its digest.
const DIGEST: &str = "248d6a61d20638b8e5c026930c3e6039a33ce45964ff2167f6ecedd419db06c1";

// The digest of "abc".
const SHORT_DIGEST: &str = "ba7816bf8f01cfea414140de5dae2223b00361a396177a9cb410ff61f20015ad";

// Whether inputs are those of this digest and satisfy a circuit, which they do not with the other.
fn are_of(
    alloc: Global,
    circuit: &Circuit<Gold>,
    inputs: &ShaInputs,
    digest: &str,
    other: &str,
) -> Result<bool, AllocError> {
    let own = word_elements(alloc, &[digest])?;
    let other = word_elements(alloc, &[other])?;
    Ok(
        inputs.public.as_slice() == own.as_slice()
            && is_satisfied(alloc, circuit, &own, &inputs.private)?
            && !is_satisfied(alloc, circuit, &other, &inputs.private)?,
    )
}

#[test]
fn one_block_has_its_digest(rt: HostRuntime) -> Result<(), Fail> {
    let alloc = rt.alloc();
    compression_laws();
    let circuit = sha_circuit(alloc, 3)?;
    let inputs = sha_inputs(alloc, b"abc")?;
    assert!(rt; are_of(alloc, &circuit, &inputs, SHORT_DIGEST, DIGEST) == Ok(true));
    Ok(())
}

#[test]
fn two_blocks_have_their_digest(rt: HostRuntime) -> Result<(), Fail> {
    let alloc = rt.alloc();
    hashing_laws();
    let Ok(circuit) = digest_circuit(alloc, 56) else {
        assert!(rt; false);
        return Ok(());
    };
    let inputs = digest_inputs(alloc, &MESSAGE)?;
    assert!(rt; are_of(alloc, &circuit, &inputs, DIGEST, MIDDLE) == Ok(true));
    Ok(())
}

#[test]
fn eight_blocks_fit(rt: HostRuntime) -> Result<(), Fail> {
    let Ok(circuit) = digest_circuit(rt.alloc(), 503) else {
        assert!(rt; false);
        return Ok(());
    };
    assert_eq!(rt;
        (circuit.publics(), circuit.privates()),
        (8, 8 * 503 + 6384 * 8 - 8)
    );
    Ok(())
}

#[test]
fn nine_blocks_do_not_fit(rt: HostRuntime) -> Result<(), Fail> {
    let alloc = rt.alloc();
    assert!(rt; matches!(digest_circuit(alloc, 504), Err(DigestError::TooLong)));
    Ok(())
}
