//! Records of one block and of two. Digests, roots and inputs are those of an independent implementation.

use crate::policy::runs::ran;
use crate::policy::texts::read;
use lzk_circuit::Circuit;
use lzk_field::Field;
use lzk_goldilocks::Gold;
use lzk_outside_memory::MemShelf;
use lzk_policy_inputs::{
    PolicyInputs, Value, credential_circuit, has_room, policy_inputs, satisfied_circuit,
};
use lzk_tests_shared::{is_satisfied, word_elements};
use sha2::{Digest, Sha256};
use std::alloc::{AllocError, Global};
use std::test::Fail;

// Of these, records are the first.
const BYTES: &[u8] =
    b"LZK1 and one hundred and fifteen bytes more, of which the last ones stand in a second block of SHA-256; \
    a salt: 0123456";

// A policy with its record, the record's digest and its day. After a change of one of these private inputs nothing
// satisfies the circuit: bits of the record, what the first block adds, a word between two blocks, what the second
// one adds.
struct Row {
    text: &'static [u8],
    size: usize,
    digest: &'static str,
    day: u128,
    places: [usize; 6],
}

const ROWS: [Row; 4] = [
    Row {
        text: b"record 55\nfield day date at 51\nshow digest\nshow day as DAY\n",
        size: 55,
        digest: "820a58b4d1c4e84682e6edb919271fb761e39f5d28a48c41af8b1de152e25421",
        day: 1_667_768_436,
        places: [0, 439, 440, 3000, 6814, 6815],
    },
    Row {
        text: b"record 56\nfield day date at 52\nshow digest\nshow day as DAY\n",
        size: 56,
        digest: "075c652eb2078bf6dca6f6cfde843c25cf1fb803ed0d591ccca8dbddc04e77d3",
        day: 1_746_957_416,
        places: [0, 447, 448, 6824, 6832, 13207],
    },
    Row {
        text: b"record 64\nfield day date at 60\nshow digest\nshow day as DAY\n",
        size: 64,
        digest: "86a5b5b39af87ee1cd8090a415ab3b67c68254ff88ec4845c0cd7d1739e24d36",
        day: 1_936_990_319,
        places: [0, 511, 512, 6888, 6896, 13271],
    },
    Row {
        text: b"record 119\nfield day date at 62\nshow digest\nshow day as DAY\n",
        size: 119,
        digest: "29cd66aaa71ad7075a802bbb5390181fc6ce42b200d2284397efb65239677555",
        day: 544_173_669,
        places: [0, 951, 952, 7328, 7336, 13711],
    },
];

// Policies, and whether a circuit of LZK1 has room for their hashes, of which a record of two blocks has two.
const ROOMS: [(&[u8], bool); 4] = [
    (
        b"record 119\nfield b bytes 35 at 20\nshow under root 5\nshow pseudonym of b for S\n",
        true,
    ),
    (
        b"record 56\nfield b bytes 35 at 20\nshow under root 6\nshow pseudonym of b for S\n",
        false,
    ),
    (
        b"record 55\nfield b bytes 35 at 20\nshow under root 6\nshow pseudonym of b for S\n",
        true,
    ),
    (
        b"record 119\nfield b bytes 35 at 84\nshow digest\nshow pseudonym of b for A\n\
        show pseudonym of b for B\nshow pseudonym of b for C\nshow pseudonym of b for D\n\
        show pseudonym of b for E\nshow pseudonym of b for F\nshow pseudonym of b for G\n",
        false,
    ),
];

// A field over the end of the first block, a text at the record's end, and a pseudonym of 35 bytes.
const POLICY: &[u8] =
    b"record 119\nfield day date at 62\nfield name text 7 at 112\nfield secret bytes 35 at 44\n\
    show digest\nshow day at most DAY\nshow name as NAME\nshow pseudonym of secret for SERVICE\n";

const UNDER: &[u8] =
    b"record 119\nfield day date at 62\nfield name text 7 at 112\nfield secret bytes 35 at 44\n\
    show under root 3\nshow day at most DAY\nshow name as NAME\nshow pseudonym of secret for SERVICE\n";

const VALUES: &[u8] = b"DAY 544173669\nSERVICE 004197665b5376f4e9f5e3aee904dc72\n";

const PATH: &[u8] = b"5\nf59e1a9a0b5b4e6ebdcaafa66df2981ad9eb8ec1cdc1ec336559dab8947dc27b\n\
    5de4d950a6b2113fb869b5da895d0eaf7d7d67f52fa723bfbf55c8bf05df96ae\n\
    8e255b7980df97cdf21b2a2d10b99df2d10033ed650c49e7ba8ac06af16ad55b\n";

// Runs with the file of public inputs and the SHA-256 digest of that of private ones.
const RUNS: [(&str, &[u8], &str); 2] = [
    (
        "inputs p r v x y",
        b"701327018\n2803554055\n1518349243\n1401952287\n3335406258\n13772867\n2549069394\n963081557\n544173669\n\
        13564890559296822\n4298598\n1532196596\n3925205934\n3909409906\n1283269159\n2646357496\n3821749169\n\
        1993356458\n2032392349\n3208357962\n547525165\n398034918\n",
        "33028bf155b5ce3e912ab2fa062c56003018add8ed980e36ea6c8efca0247809",
    ),
    (
        "inputs u r v t x y",
        b"1461192632\n3047435890\n4161982139\n1905133270\n2218095059\n2590798123\n4215129987\n2680563400\n544173669\n\
        13564890559296822\n4298598\n1532196596\n3925205934\n3909409906\n1283269159\n2646357496\n3821749169\n\
        1993356458\n2032392349\n3208357962\n547525165\n398034918\n",
        "8c4f4b08bb0579a1686d8fa8898504ab8bed7720b46749433967a8dc4cf90d72",
    ),
];

/// A record of so many bytes.
pub fn record_of(size: usize) -> &'static [u8] {
    BYTES.get(0..size).unwrap_or(b"")
}

// A row's circuit, and the inputs of its record.
fn made(alloc: Global, row: &Row) -> Option<(Circuit<Gold>, PolicyInputs)> {
    let policy = read(alloc, row.text).ok()?;
    let inputs = policy_inputs(alloc, &policy, record_of(row.size), &[Value::Own]).ok()?;
    let circuit = satisfied_circuit(alloc, &policy).ok()?;
    Some((circuit, inputs))
}

/// The numbers, one of which is greater by one.
pub fn changed(alloc: Global, numbers: &[Gold], place: usize) -> Result<Vec<Gold>, AllocError> {
    let mut list = Vec::from_slice(alloc, numbers)?;
    if let Some(old) = list.get_mut(place) {
        *old = old.add(Gold::one());
    }
    Ok(list)
}

#[test]
fn records_have_their_digest(rt: HostRuntime) -> Result<(), Fail> {
    let alloc = rt.alloc();
    for row in &ROWS {
        let mut public = word_elements(alloc, &[row.digest])?;
        public.push(Gold::of_word(row.day))?;
        let Some((circuit, inputs)) = made(alloc, row) else {
            assert!(rt; false);
            return Ok(());
        };
        assert!(rt; inputs.public() == public.as_slice());
        assert!(rt; is_satisfied(alloc, &circuit, &public, inputs.private())?);
    }
    Ok(())
}

#[test]
fn changed_numbers_of_theirs_do_not_serve(rt: HostRuntime) -> Result<(), Fail> {
    let alloc = rt.alloc();
    for row in &ROWS {
        let Some((circuit, inputs)) = made(alloc, row) else {
            assert!(rt; false);
            return Ok(());
        };
        for place in 0..9 {
            let public = changed(alloc, inputs.public(), place)?;
            assert!(rt; !is_satisfied(alloc, &circuit, &public, inputs.private())?);
        }
        for place in row.places {
            let private = changed(alloc, inputs.private(), place)?;
            assert!(rt; !is_satisfied(alloc, &circuit, inputs.public(), &private)?);
        }
    }
    Ok(())
}

#[test]
fn their_inputs_are_those_of_another_implementation(rt: HostRuntime) -> Result<(), Fail> {
    let alloc = rt.alloc();
    for (words, public, digest) in RUNS {
        let mut shelf = MemShelf::new(alloc, Vec::new(alloc), None);
        for (name, bytes) in [
            ("p", POLICY),
            ("u", UNDER),
            ("r", BYTES),
            ("v", VALUES),
            ("t", PATH),
        ] {
            shelf.add(name, bytes)?;
        }
        ran(&rt, alloc, words, &mut shelf)?;
        assert!(rt; shelf.get("x") == Some(public));
        let private = shelf.get("y").unwrap_or(b"");
        let digits = hex::encode(alloc, &Sha256::digest(private))?;
        assert!(rt; digits.as_str() == digest);
    }
    Ok(())
}

#[test]
fn two_blocks_are_two_hashes(rt: HostRuntime) -> Result<(), Fail> {
    let alloc = rt.alloc();
    for (text, room) in ROOMS {
        let Ok(policy) = read(alloc, text) else {
            assert!(rt; false);
            return Ok(());
        };
        assert_eq!(rt; has_room(&policy), room);
        assert_eq!(rt; credential_circuit(alloc, &policy).is_ok(), room);
    }
    Ok(())
}
