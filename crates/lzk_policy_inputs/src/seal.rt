//! Whether a field is the seal of a secret.

ghost use Rattle.std.specs.Prelude.{◌≡◌, ◌≤◌, ◌+◌, ◌↔◌, ◌++◌, IsTrue, length};
ghost use Rattle.sha2.specs.Sha256.{sha256, word_at};
ghost use Rattle.lzk_sha_circuit.specs.Digest.{digest_words};
ghost use Rattle.lzk_policy_circuit.specs.Meaning as meaning;
ghost use Rattle.lzk_policy_inputs.specs.Refused.{IsSealOf};

use lzk_policy::{RecordField, number_at};
use sha2::{Digest, Sha256};

/// The word of a digest whose first byte stands here.
pub fn word_at(digest: &[u8; 32], at: usize) -> u32
    requires { at + 4 ≤ 32 }
    ensures { result ≡ word_at digest.now at }
{
    u32::from_be_bytes([digest[at], digest[at + 1], digest[at + 2], digest[at + 3]])
}

// The digest of a seal's message.
fn seal_digest(secret: &[u8; 16]) -> [u8; 32]
    ensures { result ≡ sha256 (meaning.seal_message secret.now) }
{
    let mut hasher = Sha256::new();
    hasher.update(b"LZS1");
    hasher.update(secret);
    hasher.finalize()
}

// The words of the seal of a secret.
fn seal_words(secret: &[u8; 16]) -> [u64; 8]
    ensures { result ≡ digest_words (meaning.seal_message secret.now) }
{
    let digest = seal_digest(secret);
    [
        u64::from(word_at(&digest, 0)),
        u64::from(word_at(&digest, 4)),
        u64::from(word_at(&digest, 8)),
        u64::from(word_at(&digest, 12)),
        u64::from(word_at(&digest, 16)),
        u64::from(word_at(&digest, 20)),
        u64::from(word_at(&digest, 24)),
        u64::from(word_at(&digest, 28)),
    ]
}

// The bytes of a sealed field as numbers, four bytes each.
fn field_words(bytes: &[u8], field: &RecordField) -> [u64; 8]
    requires small { field.now.place ≤ 119 }
    requires within { field.now.place + 32 ≤ length bytes.now }
    ensures { result ≡ meaning.field_words bytes.now field.now }
{
    [
        number_at(bytes, field.place, 4),
        number_at(bytes, field.place + 4, 4),
        number_at(bytes, field.place + 8, 4),
        number_at(bytes, field.place + 12, 4),
        number_at(bytes, field.place + 16, 4),
        number_at(bytes, field.place + 20, 4),
        number_at(bytes, field.place + 24, 4),
        number_at(bytes, field.place + 28, 4),
    ]
}

/// Whether a field of a record is the seal of a secret.
pub(crate) fn is_seal_of(bytes: &[u8], field: &RecordField, secret: &[u8; 16]) -> bool
    requires small { field.now.place ≤ 119 }
    requires within { field.now.place + 32 ≤ length bytes.now }
    ensures { IsTrue result ↔ IsSealOf bytes.now field.now secret.now }
{
    field_words(bytes, field) == seal_words(secret)
}
