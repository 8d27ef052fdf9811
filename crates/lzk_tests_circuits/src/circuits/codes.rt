//! Circuits of sources in both versions, of their code and of their trees.

use lzk_circbytes::{AnyCircuit, id};
use lzk_expr::read;
use lzk_level::{LevelError, LevelFault, Version, compile_code};
use lzk_source::{compile, compile_v2, parse};
use std::alloc::{AllocError, Global};

// The largest text that may be read.
const LIMIT: usize = 4_194_304;

// A text, and the ids of its circuits of version 1 and 2, by an independent implementation.
type CircuitRow<'a> = (&'a [u8], [u8; 32], [u8; 32]);

const CIRCUITS: [CircuitRow<'_>; 4] = [
    (
        b"field goldilocks\npublic y\nprivate x\nassert x * x = x\nassert x * x * x * x = y\n",
        [
            0x9b, 0xf1, 0xc7, 0x9c, 0x3e, 0xfb, 0x08, 0x8a, 0x9e, 0xb6, 0xf8, 0xfa, 0x87, 0xdb,
            0x5b, 0x58, 0xf8, 0xa2, 0xab, 0xb9, 0x89, 0x34, 0x45, 0xf7, 0xf8, 0xa9, 0xa9, 0x66,
            0xa7, 0x78, 0x0b, 0xce,
        ],
        [
            0x92, 0xd2, 0x27, 0x7f, 0xe2, 0x49, 0x4b, 0x7c, 0x49, 0x8c, 0x6b, 0xe2, 0xd6, 0xf2,
            0x13, 0x03, 0xc2, 0x5c, 0xd7, 0x01, 0x0f, 0xd7, 0x9f, 0xf2, 0xbb, 0x70, 0xf6, 0x3e,
            0x87, 0xf6, 0x80, 0x9a,
        ],
    ),
    (
        b"field gf2_128\npublic y\nprivate x\nassert x * x = x\nassert x * x * x * x = y\n",
        [
            0xd0, 0x76, 0xc2, 0x38, 0xfb, 0x6d, 0xb7, 0x48, 0x40, 0xd2, 0x7a, 0x0e, 0xac, 0xec,
            0x51, 0xfe, 0x70, 0xa1, 0x2d, 0xe6, 0x81, 0xdd, 0xa0, 0xdc, 0x9a, 0xf2, 0x06, 0xdd,
            0x18, 0x4e, 0xba, 0xc2,
        ],
        [
            0xc2, 0xce, 0xf2, 0xe5, 0xb8, 0xd7, 0x21, 0xcb, 0x43, 0xaf, 0x1a, 0x16, 0x05, 0x6c,
            0xf6, 0xc2, 0x65, 0x93, 0xff, 0xdf, 0x92, 0xc8, 0xce, 0x5c, 0x0f, 0xde, 0xa3, 0xaf,
            0xfa, 0x27, 0xd0, 0x04,
        ],
    ),
    (
        b"field goldilocks\nprivate a\nprivate b\npublic p\nlet t = a * b\nassert t * t - 5 = p * a\n\
            assert t = a + 0x10\n",
        [
            0xc6, 0xaa, 0xd4, 0x1d, 0xdd, 0xc0, 0x0a, 0xd5, 0x6b, 0x4d, 0x00, 0x3c, 0xd0, 0xae,
            0xce, 0xae, 0x41, 0x78, 0x4b, 0x42, 0xd4, 0xba, 0xe8, 0xc9, 0xf1, 0x1c, 0x3a, 0xdd,
            0x06, 0xf3, 0x49, 0x74,
        ],
        [
            0xe1, 0x9b, 0x4f, 0x00, 0xa0, 0xc4, 0xf9, 0x88, 0x38, 0x5a, 0x95, 0xbd, 0xe0, 0xcf,
            0xb9, 0xa9, 0x87, 0x92, 0x16, 0x30, 0x4b, 0xb5, 0x7b, 0xdd, 0x98, 0x0a, 0xb7, 0x45,
            0xbd, 0x14, 0xe0, 0xec,
        ],
    ),
    (
        b"field gf2_128\nprivate a\nprivate b\npublic p\nlet t = a * b\nassert t * t - 5 = p * a\n\
            assert t = a + 0x10\n",
        [
            0x88, 0x7c, 0xb6, 0x38, 0x45, 0x84, 0x6a, 0xf8, 0xfc, 0xcd, 0xc2, 0xa6, 0xb8, 0xb4,
            0xaa, 0x49, 0xe1, 0x7b, 0x63, 0x1e, 0x66, 0xbb, 0x77, 0x70, 0x6a, 0xeb, 0x86, 0x3a,
            0x87, 0x57, 0x2f, 0x3e,
        ],
        [
            0xc9, 0x6b, 0x31, 0xc4, 0x8d, 0x1f, 0x24, 0xb2, 0x71, 0x0d, 0x2c, 0x54, 0x43, 0x0f,
            0xf6, 0x17, 0xd1, 0x78, 0x1f, 0x81, 0xa2, 0x90, 0xc1, 0x16, 0xfc, 0xb0, 0x8b, 0x51,
            0x30, 0x34, 0x05, 0x41,
        ],
    ),
];

// What is made of a text: a circuit or its fault; none where it is no source, or memory ran out.
type Made = Option<Result<[u8; 32], LevelFault>>;

// The id of a circuit, or its fault.
fn made_of(alloc: Global, made: Result<AnyCircuit, LevelError>) -> Made {
    match made {
        Ok(AnyCircuit::Gold(circuit)) => Some(Ok(id(alloc, &circuit).ok()?)),
        Ok(AnyCircuit::Gf(circuit)) => Some(Ok(id(alloc, &circuit).ok()?)),
        Err(LevelError::Fault(fault)) => Some(Err(fault)),
        Err(LevelError::OutOfMemory) => None,
    }
}

// What a text's code gives in a version.
fn by_code(alloc: Global, text: &[u8], version: Version) -> Made {
    if text.len() > LIMIT {
        return None;
    }
    let code = read(alloc, text).ok()?;
    made_of(alloc, compile_code(alloc, code, version))
}

// What a text's trees give in a version.
fn by_trees(alloc: Global, text: &[u8], version: Version) -> Made {
    if text.len() > LIMIT {
        return None;
    }
    let source = parse(alloc, text).ok()?;
    let made = match version {
        Version::One => compile(alloc, &source),
        Version::Two => compile_v2(alloc, &source),
    };
    made_of(alloc, made)
}

// Whether a text's code and its trees give this in a version.
fn gives(alloc: Global, text: &[u8], version: Version, wanted: Made) -> bool {
    by_code(alloc, text, version) == wanted && by_trees(alloc, text, version) == wanted
}

// The first row whose circuits have other ids.
fn first_other(alloc: Global, rows: &[CircuitRow<'_>]) -> Option<usize> {
    for (i, (text, one, two)) in rows.iter().enumerate() {
        if !gives(alloc, text, Version::One, Some(Ok(*one)))
            || !gives(alloc, text, Version::Two, Some(Ok(*two)))
        {
            return Some(i);
        }
    }
    None
}

// A text that asserts a power of an input to be 1.
fn power(alloc: Global, factors: u32) -> Result<Vec<u8>, AllocError> {
    let mut text = Vec::new(alloc);
    text.extend_from_slice(b"field gf2_128\nprivate x\nassert 1")?;
    for _ in 0..factors {
        text.extend_from_slice(b" * x")?;
    }
    text.extend_from_slice(b" = 1\n")?;
    Ok(text)
}

// What the code of such a text gives in a version.
fn of_power(alloc: Global, factors: u32, version: Version) -> Made {
    let text = power(alloc, factors).ok()?;
    by_code(alloc, &text, version)
}

#[test]
fn code_and_trees_have_the_same_circuits(rt: HostRuntime) {
    assert_eq!(rt; first_other(rt.alloc(), &CIRCUITS), None);
}

#[test]
fn the_limit_of_layers_is_passed_by_one(rt: HostRuntime) {
    let alloc = rt.alloc();
    let fault = Some(Err(LevelFault::Layers(513)));
    assert!(rt; matches!(of_power(alloc, 513, Version::One), Some(Ok(_))));
    assert!(rt; matches!(of_power(alloc, 513, Version::Two), Some(Ok(_))));
    assert!(rt; of_power(alloc, 514, Version::One) == fault);
    assert!(rt; of_power(alloc, 514, Version::Two) == fault);
}
