//! The state from which nodes are made.

/// The initial hash value of SHA-224 (FIPS 180-4, 5.3.2). Digests of SHA-256 are made from another (5.3.3), so that no
/// record is taken for two nodes.
pub(crate) const NODE_STATE: [u32; 8] = [
    0xc105_9ed8,
    0x367c_d507,
    0x3070_dd17,
    0xf70e_5939,
    0xffc0_0b31,
    0x6858_1511,
    0x64f9_8fa7,
    0xbefa_4fa4,
];
