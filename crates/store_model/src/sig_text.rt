// The whole text of a signature.
ghost use Rattle.std.specs.Prelude.{◌≡◌, ◌↔◌, IfOk, IsTrue};
ghost use Rattle.store_model.specs.Spelling.{key_part, short_part, whole_text};

use std::marker::Model;
use tree_model::{Bytes, Mem};

/// The whole text of a signature: its short text, which has the digest of the key, and behind it the bytes of the key. Two signatures are one where
/// their whole texts are.
///
/// Contracts see a list: how many bytes the short text has, and then all bytes.
#[derive(Debug, Drop)]
pub struct SigText {
    bytes: Bytes,
    short: usize,
}

impl Model for SigText {
    ghost use Rattle.std.specs.Prelude.{◌≤◌, ◌∷◌, List, ℕ, length};

    ghost Value = { List ℕ };

    ghost view = { λ t. t.short ∷ t.bytes };

    ghost invariant = { λ t. t.short ≤ length t.bytes };
}

impl SigText {
    /// The text with this short one and this key. The memory of the short text is taken over.
    pub fn new(short: Vec<u8>, key: &[u8]) -> Result<SigText, Mem>
        ensures { IfOk result (λ text. text ≡ whole_text short.items key.now) }
    {
        let mut bytes = short;
        let short = bytes.len();
        bytes.extend_from_slice(key)?;
        Ok(SigText {
            bytes: Bytes::from_vec(bytes),
            short,
        })
    }

    /// The short text.
    pub fn short(&self) -> &[u8]
        ensures short { result.now ≡ short_part self.now }
        // this and the key are all of it
        ensures whole { self.now ≡ whole_text (short_part self.now) (key_part self.now) }
    {
        &self.bytes.as_slice()[..self.short]
    }

    /// The bytes of the key.
    pub fn key(&self) -> &[u8]
        ensures { result.now ≡ key_part self.now }
    {
        &self.bytes.as_slice()[self.short..]
    }

    /// Whether the two texts are one.
    pub fn is_same(&self, other: &SigText) -> bool
        ensures { IsTrue result ↔ (self.now ≡ other.now) }
    {
        self.short == other.short && self.bytes == other.bytes
    }

    /// The same text again.
    pub fn copy(&self) -> Result<SigText, Mem>
        ensures { IfOk result (λ made. made ≡ self.now) }
    {
        Ok(SigText {
            bytes: self.bytes.copy()?,
            short: self.short,
        })
    }
}
