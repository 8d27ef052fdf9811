//! Small circuits, and what an independent implementation combines of their constraints.

use crate::sumcheck::shared::Shape;

/// A circuit; the wanted sum, and the sum of the combined coefficients in order, each times the next power of the
/// element with number 3, over the field of the numbers below 2^64 - 2^32 + 1; and the same two over the field of
/// 2^128 elements.
pub type Combined = (Shape<'static>, [u128; 2], [u128; 2]);

pub const COMBINED: [Combined; 10] = [
    // One layer of one wire.
    (
        (1, 1, &[(1, &[(0, 0, 1, 0), (0, 2, 2, 1)])]),
        [0xec455ce3571ba451, 0xc381813298e4833a],
        [
            0x57c1430ceda9244fe40cd3770395db0e,
            0x31ff5b20c5a348f70e004dbd4d4dcad7,
        ],
    ),
    // Two layers of several wires.
    (
        (
            1,
            2,
            &[
                (2, &[(0, 0, 1, 3), (0, 1, 2, 5), (1, 2, 2, 1)]),
                (3, &[(0, 0, 0, 1), (1, 1, 2, 7), (1, 2, 3, 2), (2, 3, 3, 4)]),
            ],
        ),
        [0x34b6ba430ed0e31e, 0xafde110d2bd712a8],
        [
            0xa70b662ce4beef454400d5710b000077,
            0x198b9e62edad03de272348a038e241dc,
        ],
    ),
    // Three layers of one wire each: two of them stand on a layer with no bits.
    (
        (
            1,
            2,
            &[
                (1, &[(0, 0, 0, 3)]),
                (1, &[(0, 0, 0, 1)]),
                (1, &[(0, 0, 3, 5), (0, 1, 2, 0)]),
            ],
        ),
        [0xc45ce3a9a6ea1022, 0xb9209fd5b4ee3666],
        [
            0xf92fde60c78e5dbe4f2ec1d8debd70fc,
            0xc10f741cd43dd87b50b16454a15b4508,
        ],
    ),
    // No private inputs.
    (
        (
            5,
            0,
            &[
                (
                    1,
                    &[
                        (0, 0, 0, 0xd85b6f3580e4ca55),
                        (0, 0, 3, 0xfffffffefffffffe),
                        (0, 1, 1, 0xfffffffeffffffff),
                    ],
                ),
                (
                    4,
                    &[
                        (0, 0, 0, 1),
                        (1, 0, 0, 1),
                        (1, 0, 1, 0xfffffffefffffffe),
                        (1, 3, 4, 0x6b633e147c6d3ba),
                        (2, 0, 1, 0),
                        (3, 2, 4, 0x33fc4f2d9fad3f2a),
                    ],
                ),
            ],
        ),
        [0x870be4b13b13102d, 0x7c75f7d1bdf3002e],
        [
            0xa271b70b653abef04d992d5ce0e85690,
            0x63abc10ce84e853a11e59ca4aab9c075,
        ],
    ),
    // Three layers with terms of many kinds.
    (
        (
            2,
            3,
            &[
                (
                    2,
                    &[
                        (0, 0, 0, 0xab29d49264430a54),
                        (0, 2, 3, 1),
                        (0, 2, 4, 2),
                        (0, 3, 3, 1),
                        (1, 0, 0, 0x23e4bc061f825037),
                        (1, 0, 3, 1),
                        (1, 1, 3, 0x3ddbd72c61c48ecb),
                        (1, 1, 4, 0xc2ee8d539d2fae3c),
                    ],
                ),
                (
                    5,
                    &[
                        (0, 0, 0, 1),
                        (1, 1, 3, 0xa212f6a267ff4f5e),
                        (1, 1, 4, 0xbc54f14d7d557e6c),
                        (1, 3, 4, 1),
                        (2, 1, 4, 0xe04d9b4ad33b8689),
                        (3, 2, 3, 1),
                        (3, 4, 4, 0xfffffffeffffffff),
                        (4, 2, 4, 0x53fb4ae55c6681b5),
                        (4, 4, 4, 0xfffffffefffffffe),
                    ],
                ),
                (
                    5,
                    &[
                        (0, 0, 0, 1),
                        (1, 2, 4, 0x9942b3340c62cfd4),
                        (2, 1, 4, 0x46026b987c3a3442),
                        (2, 2, 2, 0xfffffffeffffffff),
                        (3, 2, 3, 0x86261d9aae02f90c),
                        (4, 1, 2, 0x9c86dfed8e23d4f4),
                    ],
                ),
            ],
        ),
        [0xa2fbd907098c1d67, 0x703a0d2caf89e184],
        [
            0x61513ef9e05ddd417e5a42d4c3b3b07e,
            0x24eb0574dfbd0076097c0e2e27925536,
        ],
    ),
    // Four layers.
    (
        (
            2,
            2,
            &[
                (2, &[(0, 0, 5, 1), (1, 0, 1, 0), (1, 0, 2, 1), (1, 3, 4, 1)]),
                (
                    6,
                    &[
                        (0, 0, 0, 1),
                        (1, 0, 2, 1),
                        (2, 0, 3, 1),
                        (3, 0, 4, 1),
                        (4, 4, 5, 1),
                        (5, 0, 1, 0),
                        (5, 0, 6, 0),
                        (5, 4, 5, 2),
                    ],
                ),
                (
                    7,
                    &[
                        (0, 0, 0, 1),
                        (1, 0, 1, 1),
                        (2, 0, 2, 1),
                        (3, 0, 3, 1),
                        (4, 0, 4, 1),
                        (5, 4, 4, 1),
                        (6, 0, 5, 1),
                    ],
                ),
                (
                    6,
                    &[
                        (0, 0, 0, 1),
                        (1, 0, 1, 1),
                        (2, 0, 2, 1),
                        (3, 0, 3, 1),
                        (4, 0, 3, 1),
                        (4, 0, 4, 1),
                        (5, 0, 4, 3),
                    ],
                ),
            ],
        ),
        [0x4e7572b1ddde1e01, 0xb5e4f3e70ce93ccb],
        [
            0xda103a7f6f9d88ffdc217cb10e2cddff,
            0x1605dbe1c06ad89d9d54347e8873a2eb,
        ],
    ),
    // The committed list is as long as a row.
    (
        (
            0,
            37,
            &[(
                2,
                &[
                    (0, 0, 0, 0x3146beb8f08334d4),
                    (0, 26, 37, 0xd32c7561fa6c2288),
                    (1, 0, 0, 0xe6f22b748b63b117),
                    (1, 0, 33, 1),
                    (1, 12, 35, 0x8e199768c760b27b),
                    (1, 15, 28, 0x2031e12f20cef298),
                    (1, 27, 36, 1),
                ],
            )],
        ),
        [0x7fd81dc2a1551577, 0x1cb43996af656abd],
        [
            0xf0963f5a04abcefabd81fb214ef8d068,
            0x1057d7cfe77985d4ce1e39a0d4b3d749,
        ],
    ),
    // The committed list is one entry longer than a row.
    (
        (
            0,
            38,
            &[(
                2,
                &[
                    (0, 0, 0, 0x857a2646b0ea23c6),
                    (0, 2, 22, 0xac8c367ae4c7fc2),
                    (0, 16, 25, 0xa82917444b83bc25),
                    (0, 22, 38, 1),
                    (0, 32, 35, 0x80a083ede4695c93),
                    (1, 0, 0, 0xa8f38e8bb9c39eca),
                    (1, 4, 15, 0x86fec693a9462bc3),
                    (1, 4, 26, 0xfe0f12a251a3efa8),
                    (1, 19, 32, 0xbea11d0624324c9d),
                    (1, 23, 34, 0x9678c4e098ba5aa4),
                ],
            )],
        ),
        [0x6ad7fea885167f8, 0xedc8c8a61938bb57],
        [
            0xde597aab0da71bfb0215e8fca86e2187,
            0xbf5257eaefb1c463c79ea0e1cc9588f3,
        ],
    ),
    // The committed list is as long as two rows.
    (
        (
            0,
            97,
            &[(
                2,
                &[
                    (0, 0, 0, 0x5970c81ee7b701f3),
                    (0, 7, 10, 0x26f47dc026b303b5),
                    (0, 39, 67, 0x75b777649b914880),
                    (0, 58, 67, 0x35f411910dfd791),
                    (1, 0, 0, 0x3acbe467405422d5),
                    (1, 10, 57, 0x3cee9bef7e63010f),
                    (1, 23, 73, 0x787629e16b3d104c),
                    (1, 46, 83, 0xfffffffeffffffff),
                    (1, 79, 80, 0x8f55bbcf6cd4ff85),
                ],
            )],
        ),
        [0x20bd236a9be0d8f6, 0x590dd0969d57706e],
        [
            0x38ac361159e77ce4467b29ab3c28a832,
            0x32f66f8f1e6316b4fdb46fdca4b4d06,
        ],
    ),
    // No inputs but the one.
    (
        (0, 0, &[(1, &[(0, 0, 0, 7)])]),
        [0x5e26c9ae11e077c5, 0x3e7e65353935f1c7],
        [
            0x2e669f559f29a538979d0acb71c24072,
            0x120e2f41523b6a21189f1ead3cb22e09,
        ],
    ),
];

/// The same of circuits of version 2, where a coefficient of 0 is that of an assertion term.
pub const ASSERTING: [Combined; 3] = [
    // One assertion term alone.
    (
        (1, 1, &[(1, &[(0, 2, 2, 0)])]),
        [0x61b230dc39121c31, 0x91e66a354437e8b1],
        [
            0xa1c5f7dcda407b645b4a63bc88e84665,
            0xf1c4b78f28753c85f291c9f070530572,
        ],
    ),
    // Each of two layers has an assertion term behind its other wires.
    (
        (
            1,
            2,
            &[
                (3, &[(0, 0, 1, 3), (0, 1, 2, 5), (1, 2, 2, 1), (2, 0, 3, 0)]),
                (
                    5,
                    &[
                        (0, 0, 0, 1),
                        (1, 1, 2, 7),
                        (1, 2, 3, 2),
                        (2, 3, 3, 4),
                        (3, 0, 1, 1),
                        (4, 2, 3, 0),
                    ],
                ),
            ],
        ),
        [0x19603e49413504a6, 0xc45e0e8aa574f507],
        [
            0x619402046f902a81c9f42c2821c60d5e,
            0x1560b143d01d448b97524da1f3e11f5a,
        ],
    ),
    // No assertion term: the sums are those of version 1.
    (
        (
            1,
            2,
            &[
                (2, &[(0, 0, 1, 3), (0, 1, 2, 5), (1, 2, 2, 1)]),
                (3, &[(0, 0, 0, 1), (1, 1, 2, 7), (1, 2, 3, 2), (2, 3, 3, 4)]),
            ],
        ),
        [0x34b6ba430ed0e31e, 0xafde110d2bd712a8],
        [
            0xa70b662ce4beef454400d5710b000077,
            0x198b9e62edad03de272348a038e241dc,
        ],
    ),
];
