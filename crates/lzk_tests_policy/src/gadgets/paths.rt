//! A path's circuit at inputs of a leaf.

use crate::gadgets::path_inputs::{
    LEAF, LOW_ROOT, PRIVATE, PRIVATE_COUNT, RECORD_DIGEST, RECORD_HALF, RECORD_NODE, ROOT, SIBLINGS,
};
use lzk_sha_path::{PathError, path_circuit, path_inputs};
use lzk_tests_shared::{bits, is_satisfied, word_elements, words};
use std::test::Fail;

// Depths of which no circuit is made.
const REFUSED: [u32; 3] = [0, 7, 4_294_967_295];

// One level: root and inputs are those of the independent implementation.
#[test]
fn one_level_leads_to_its_root(rt: HostRuntime) -> Result<(), Fail> {
    let alloc = rt.alloc();
    let (leaf, beside) = (words(LEAF), words(SIBLINGS[0]));
    let Ok(circuit) = path_circuit(alloc, 1) else {
        assert!(rt; false);
        return Ok(());
    };
    let Ok(inputs) = path_inputs(alloc, leaf, 1, &[beside]) else {
        assert!(rt; false);
        return Ok(());
    };
    let public = word_elements(alloc, &[LEAF, LOW_ROOT])?;
    let other = word_elements(alloc, &[LEAF, ROOT])?;
    let turned = word_elements(alloc, &[SIBLINGS[1], LOW_ROOT])?;
    let private = bits(alloc, PRIVATE, PRIVATE_COUNT)?;
    assert!(rt; inputs.public.as_slice() == public.as_slice());
    assert!(rt; inputs.private.as_slice() == private.as_slice());
    assert!(rt; is_satisfied(alloc, &circuit, &public, &private) == Ok(true));
    assert!(rt; is_satisfied(alloc, &circuit, &other, &private) == Ok(false));
    assert!(rt; is_satisfied(alloc, &circuit, &turned, &private) == Ok(false));
    Ok(())
}

// The padded block of a record is no block of two nodes: the halves do not lead to the record's digest.
#[test]
fn a_record_is_not_two_nodes(rt: HostRuntime) -> Result<(), Fail> {
    let alloc = rt.alloc();
    let Ok(inputs) = path_inputs(alloc, words(LEAF), 0, &[words(RECORD_HALF)]) else {
        assert!(rt; false);
        return Ok(());
    };
    let node = word_elements(alloc, &[LEAF, RECORD_NODE])?;
    let digest = word_elements(alloc, &[LEAF, RECORD_DIGEST])?;
    assert!(rt; inputs.public.as_slice() == node.as_slice());
    assert!(rt; inputs.public.as_slice() != digest.as_slice());
    Ok(())
}

#[test]
fn three_levels_lead_to_theirs(rt: HostRuntime) -> Result<(), Fail> {
    let alloc = rt.alloc();
    let siblings = [words(SIBLINGS[0]), words(SIBLINGS[1]), words(SIBLINGS[2])];
    let Ok(circuit) = path_circuit(alloc, 3) else {
        assert!(rt; false);
        return Ok(());
    };
    let Ok(inputs) = path_inputs(alloc, words(LEAF), 5, &siblings) else {
        assert!(rt; false);
        return Ok(());
    };
    let public = word_elements(alloc, &[LEAF, ROOT])?;
    assert!(rt; inputs.public.as_slice() == public.as_slice());
    assert!(rt; is_satisfied(alloc, &circuit, &public, &inputs.private) == Ok(true));
    Ok(())
}

#[test]
fn six_levels_fit_and_others_are_refused(rt: HostRuntime) -> Result<(), Fail> {
    let alloc = rt.alloc();
    let leaf = words(LEAF);
    assert!(rt; path_circuit(alloc, 6).is_ok());
    for depth in REFUSED {
        assert!(rt; matches!(path_circuit(alloc, depth), Err(PathError::Depth)));
    }
    assert!(rt; matches!(path_inputs(alloc, leaf, 0, &[]), Err(PathError::Depth)));
    assert!(rt;
        matches!(
            path_inputs(alloc, leaf, 0, &[leaf; 7]),
            Err(PathError::Depth)
        )
    );
    Ok(())
}
