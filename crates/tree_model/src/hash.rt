// SHA-256 digests.
ghost use Rattle.std.specs.Prelude.{◌≡◌, ◌<◌, ℕ, IfNone, IfOk, IfSome, MatchBool, length, slice_index};
ghost use Rattle.sha2.specs.Sha256.{sha256};
ghost use Rattle.tree_model.specs.Hash.{IsHash, hash_text};
ghost use Rattle.hex.specs.Hex.{encode_lower, lower_digits};

use crate::text::{Mem, Text};
use sha2::{Digest, Sha256};
use std::alloc::Global;

/// A SHA-256 digest.
#[derive(Clone, Copy, Debug, PartialEq, Eq)]
pub struct Hash {
    /// Its 32 bytes.
    pub bytes: [u8; 32],
}

impl Hash {
    /// The digest of the bytes, by FIPS 180-4.
    pub fn of(bytes: &[u8]) -> Hash
        ensures { result.bytes ≡ sha256 bytes.now }
    {
        Hash {
            bytes: Sha256::digest(bytes),
        }
    }

    /// The digest as 64 lower-case hexadecimal digits.
    pub fn text(&self, alloc: Global) -> Result<Text, Mem>
        ensures { IfOk result (λ text. text ≡ hash_text self.now) }
    {
        Ok(Text::from_string(hex::encode(alloc, self.bytes)?))
    }

    /// The bytes of that text. They take no memory.
    pub fn digits(&self) -> [u8; 64]
        ensures { result ≡ hash_text self.now }
    {
        let mut digits = [0; 64];
        match hex::encode_to_slice(&self.bytes, &mut digits) {
            Ok(()) | Err(_) => digits,
        }
    }

    /// The digest with this text: exactly 64 lower-case hexadecimal digits.
    pub fn read(text: &str) -> Option<Hash>
        ensures some { IfSome result (λ hash. text.now ≡ hash_text hash) }
        ensures none { IfNone result ((hash : Hash) → IsHash hash → text.now ≡ hash_text hash → ⊥) }
    {
        if text.len() != 64 {
            return None;
        }
        let hash = written(text.as_bytes());
        if is_text_of(text, &hash) {
            Some(hash)
        } else {
            None
        }
    }
}

/// The digest that 64 lower-case hexadecimal digits write; of any other 64 bytes some digest.
fn written(digits: &[u8]) -> Hash
    requires { length digits.now ≡ 64 }
    ensures { (hash : Hash) → IsHash hash → digits.now ≡ hash_text hash → result ≡ hash }
{
    let mut bytes = [0; 32];
    for place in 0..32 {
        let high = digit_number(digits[2 * place]);
        let low = digit_number(digits[2 * place + 1]);
        bytes[place] = high * 16 + low;
    }
    Hash { bytes }
}

/// The number that a lower-case hexadecimal digit writes; of any other byte some number below 16.
fn digit_number(digit: u8) -> u8
    ensures small { result < 16 }
    ensures number { (n : ℕ) → n < 16 → digit ≡ slice_index lower_digits n → result ≡ n }
{
    (digit % 16 + digit / 64 * 9) % 16
}

/// Whether the text is that of the digest.
fn is_text_of(text: &str, hash: &Hash) -> bool
    ensures { MatchBool result (text.now ≡ hash_text hash.now) (text.now ≡ hash_text hash.now → ⊥) }
{
    text.as_bytes() == hash.digits().as_slice()
}
