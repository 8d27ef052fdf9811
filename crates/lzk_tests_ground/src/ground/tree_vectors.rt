//! Expected values, computed apart from this crate by a plain program over Python's hashlib.

// The number of leaves, the opened ones, how many digests the path has, SHA-256 of these digests one after another,
// and the root. Leaf j is 32 bytes j. The paths are nodes 4, 3; node 2; nodes 5, 3; none; none; nodes 13, 10, 7, 4;
// nodes 12, 10; nodes 25, 19, 17, 13, 7, 5; nodes 20, 17, 13, 11, 9, 7.
pub const TREES: [(u32, &[u32], usize, &str, &str); 9] = [
    (
        4,
        &[1],
        2,
        "7622c17a406b167d5ef9a22053f3fd4b8ecceda522fab36e99adc53224fd5da2",
        "d35f51699389da7eec7ce5eb02640c6d318cf51ae39eca890bbc7b84ecb5da68",
    ),
    (
        3,
        &[0],
        1,
        "39ce20bede82c96b8908bec4a157b09c549b3db90b9b474bda9ae9b9030310b4",
        "b473dad1472ed281d1e2cfecac66af9ffc04f8372d0f1e985f1c3b60a1ac8a26",
    ),
    (
        3,
        &[1],
        2,
        "99795c4a032e419d11bf6b126146caf2017d9af9f81069e830c1df1e64c96a23",
        "b473dad1472ed281d1e2cfecac66af9ffc04f8372d0f1e985f1c3b60a1ac8a26",
    ),
    (
        3,
        &[0, 1, 2],
        0,
        "e3b0c44298fc1c149afbf4c8996fb92427ae41e4649b934ca495991b7852b855",
        "b473dad1472ed281d1e2cfecac66af9ffc04f8372d0f1e985f1c3b60a1ac8a26",
    ),
    (
        1,
        &[0],
        0,
        "e3b0c44298fc1c149afbf4c8996fb92427ae41e4649b934ca495991b7852b855",
        "0000000000000000000000000000000000000000000000000000000000000000",
    ),
    (
        7,
        &[4, 5],
        4,
        "12002d66c204e2a384dd19722e41145b7dd0c4a81c9c79a483f97aa0e3c84634",
        "ad620cb294d2907ebd954743772f0cfb817705eb4df902f2a145bd0192bade18",
    ),
    (
        8,
        &[0, 1, 3, 5, 6, 7],
        2,
        "6e3a88ec66e922deb839b1aa7844b4ca455ba0bdfd68117ed3b071cb951a01b2",
        "5837f89a763ab800bd3b8de6562aadb4e7ba54da125d1f41a7ebdcdebc977883",
    ),
    (
        13,
        &[3, 5, 11],
        6,
        "8cf8bcb5d7c93c5d1a17b0b67b5b3724a6765f12d20599f5d126e5d08b4291c5",
        "22e1786959d0632227885b9a00b3484567d4aa66e7094ed4b2188134f5170375",
    ),
    (
        12,
        &[0, 4, 9],
        6,
        "2a070e3decf04dd0ad6e2b0a1987ace140d6d1b3e699ad1efde48378a8e7476b",
        "7083c6dcf00cf381f768cac060479adcb515e099e37d2e15078e3aee832e0b93",
    ),
];

// The same of 768 leaves of which 6k + k % 6 is opened for each k below 128.
pub const WIDE: (usize, &str, &str) = (
    320,
    "638123dba63340bb82dd967d1a0f0c9597cf6dc5e7aad7aed890e3c4e5cdfaee",
    "67c907d5f42d433af2a4447505ac153548d9ce12fbdaa7a144a2bb8def969c8d",
);

pub const MOST_OPENED: [u32; 5] = [0, 1, 2, 40000, 65535];

// The same of 65,536 leaves, leaf j being 32 bytes j % 251.
pub const MOST: (usize, &str, &str) = (
    42,
    "fb6a9a6c85f446df82425402501d2941eab007ba750dd70f583d2f41b519675d",
    "48774c617b91f6762ed2d842f1bdf38218bb6d227f33e3c4cd9b4d323d02a301",
);

// The number of leaves, the opened ones, their digests, the digests of a path, and the root that they lead to.
pub const ROOTS: [(u32, &[u32], &[&str], &[&str], &str); 3] = [
    (
        5,
        &[0, 1],
        &[
            "11e3f2fb415094db2d6436544310df646128924701e7306da2b8fe13d213acc1",
            "9c30907ecbbdef0c7c4944949f8e7c16ad24776e1623c471ff3e213bfda413d2",
        ],
        &[
            "08aaa40f679749dd654276cc392790ffbe765925666031ce244973a8706a29be",
            "04ab1676159eb7cffa080753441825f3f9dc4a20f19dfa734e338ee3650997dc",
        ],
        "35b1c06e7bdb48010e2453125acdab0a36c8099b8980eea0d76ba4369eec7e73",
    ),
    (
        12,
        &[0, 4, 9],
        &[
            "9b5ee52aa66e0d57c7d36c2f17021b9ea4ad6afd60a5c5f6f9cd486110e0b619",
            "1591586815f1f84ec91feca5acc461dd2c376b1365704b9d8ac12d189b54657e",
            "20ed0dbf061e72c1e1e6349e24e3e8db8c8c1388594e5e8a6f357b1f11e5db66",
        ],
        &[
            "9da5b8988da438769ad18d2268ed3fee062dd4fa98945213dfd6d639c2e78a94",
            "0364e13717a95ce2a3e6eebf27a4582338e778f9d8820d90933b5dafb9e8b38b",
            "74b8b1ade188b15c6493bd89dc0194ebdc571ba12ad0506991741c5e0ebe76fd",
            "8e654048b1b4e923ea896bd0033a06e43aa2992519ffb80f1a6261e869335bcf",
            "150007086cb1edc3eee6b5da67dba4200e31367bdc164dcafa125ca6422ae85d",
            "16987d98b0fb3a4b0dac508c33f45ea3e9f72dc40b0cfc39897b795d6055905a",
        ],
        "40d72d01f49e2a577d7d5dff6a3898c1f1fed857d24361c6763232186099cf2f",
    ),
    (
        3,
        &[0, 1, 2],
        &[
            "f1c496df66c0e22b71a0c2074be03d214a0a20186998ee490f0ff4cf049a3a6a",
            "5f0b791c36c6d7af1e133414ce8a8a5f9ee5e61a78e8e830fb954d991696c27f",
            "dbc2ef0a1a1fe4bb848fc487a186b53bc9cbc595ae183e615518ed0ccb1f35bd",
        ],
        &[],
        "e8c5483d535b8d9415921cd750c4df44009f4ac77d1062470d8dded8fdcf3411",
    ),
];

pub const NONCE: [u8; 32] = [
    0x00, 0x01, 0x02, 0x03, 0x04, 0x05, 0x06, 0x07, 0x08, 0x09, 0x0a, 0x0b, 0x0c, 0x0d, 0x0e, 0x0f,
    0x10, 0x11, 0x12, 0x13, 0x14, 0x15, 0x16, 0x17, 0x18, 0x19, 0x1a, 0x1b, 0x1c, 0x1d, 0x1e, 0x1f,
];

pub const COLUMN: [u128; 6] = [0x0, 0x1, 0xffffffff00000000, 0x123456789abcdef, 0xff, 0x100];

// SHA-256 of the nonce and the column, at 8 and at 16 bytes an element.
pub const GOLD_LEAF: &str = "5a12305c2f37c4f677b290491b2acf8c1e2c57eff0efe1e4059262af8a2b0bbe";

pub const GF128_LEAF: &str = "ecb90025c5cebb749fb9062d65605cbf88682d7f9fca76a67a330711f44106a6";

// The same of the 300 elements of the numbers k * 0x9e3779b97f4a7c15 modulo 2^64.
pub const LONG_GOLD_LEAF: &str = "06496f94627a78ecb84f0ff0385a323c8f1537f88d8a6fca4065b6d7deb7c3eb";

pub const LONG_GF128_LEAF: &str =
    "a22bfd51ec8557e375f59557d9cfb7d95595ebadfeee9098febae958f4c83f85";
