//! Published values of AES-256.

use lzk_aes::Aes256;

/// A key, its first and its last 16 bytes, a block, and the block enciphered, as big-endian numbers.
const VECTORS: [(u128, u128, u128, u128); 8] = [
    // FIPS 197, appendix C.3
    (
        0x000102030405060708090a0b0c0d0e0f,
        0x101112131415161718191a1b1c1d1e1f,
        0x00112233445566778899aabbccddeeff,
        0x8ea2b7ca516745bfeafc49904b496089,
    ),
    // Of zeros alone
    (0, 0, 0, 0xdc95c078a2408989ad48a21492842087),
    // SP 800-38A, F.1.5
    (
        0x603deb1015ca71be2b73aef0857d7781,
        0x1f352c073b6108d72d9810a30914dff4,
        0x6bc1bee22e409f96e93d7e117393172a,
        0xf3eed1bdb5d2a03c064b5a7e3db181f8,
    ),
    (
        0x603deb1015ca71be2b73aef0857d7781,
        0x1f352c073b6108d72d9810a30914dff4,
        0xae2d8a571e03ac9c9eb76fac45af8e51,
        0x591ccb10d410ed26dc5ba74a31362870,
    ),
    (
        0x603deb1015ca71be2b73aef0857d7781,
        0x1f352c073b6108d72d9810a30914dff4,
        0x30c81c46a35ce411e5fbc1191a0a52ef,
        0xb6ed21b99ca6f4f9f153e7b1beafed1d,
    ),
    (
        0x603deb1015ca71be2b73aef0857d7781,
        0x1f352c073b6108d72d9810a30914dff4,
        0xf69f2445df4f9b17ad2b417be66c3710,
        0x23304b7a39f9f3ff067d8d8f9e24ecc7,
    ),
    // Random keys and blocks, by another program
    (
        0x0709f442e4b55fa317b0bdcd7f8ebc13,
        0x6a02123c11be757c2527283c1cf0b2c2,
        0x1fe2b6b2cad14ebd24cad3437e4756f9,
        0xbf2e77e27043cc336afb7449e2946be6,
    ),
    (
        0x3e4018b89682897647d43485a989d20f,
        0x07e4af20b9790beb8d828e95192a172d,
        0x293df93ff2c0e50e18ab9c8b7b997c0b,
        0x9cc8c95b86214be41e426dd6d32d2bf8,
    ),
];

#[test]
fn blocks_of_published_vectors(rt: HostRuntime) {
    for (first, last, block, want) in VECTORS {
        let mut key = [0u8; 32];
        let first_half = first.to_be_bytes();
        let last_half = last.to_be_bytes();
        for i in 0..16 {
            key[i] = first_half[i];
            key[16 + i] = last_half[i];
        }
        let found = Aes256::new(&key).encrypt(block.to_be_bytes());
        assert_eq!(rt; u128::from_be_bytes(found), want);
    }
}
