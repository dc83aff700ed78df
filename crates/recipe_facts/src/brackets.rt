// Text in parentheses. The texts that are open, each before a `(` without a partner so far, are kept from the first to the
// last, and the one that goes on apart from them.
ghost use Rattle.std.specs.Prelude.{◌≡◌, ◌||◌, ◌==◌, ◌⊎◌, ◌∷◌, ◌<◌, List, ℕ, IfOk, IfSome, length, reverse, position, slice_index};
ghost use Rattle.load_model.specs.Facts as facts;
ghost use Rattle.recipe_facts.specs.Brackets.{is_bracket, open_texts, with_open};

use std::alloc::Global;
use tree_model::{Mem, Text};

/// Whether a byte is a parenthesis.
fn is_bracket(byte: &u8) -> bool
    ensures { result ≡ is_bracket byte.now }
{
    *byte == b'(' || *byte == b')'
}

/// The place of the first parenthesis.
fn bracket_at(bytes: &[u8]) -> Option<usize>
    ensures first { result ≡ position is_bracket bytes.now }
    ensures within { IfSome result (λ i. i < length bytes.now) }
    ensures stands { IfSome result (λ i. slice_index bytes.now i < 128) }
{
    bytes.iter().position(is_bracket)
}

/// What goes on behind a parenthesis: after `(` a text of its own; after a `)` that has a partner the text before that one,
/// without what stands between them; after another `)` the same text with it.
fn behind_bracket(kept: &mut Vec<Text>, last: Text, alloc: Global, byte: u8) -> Result<Text, Mem>
    requires { (byte ≡ 40) ⊎ (byte ≡ 41) }
    ensures { IfOk result (λ made. (text : List ℕ) (texts : List (List ℕ))
        → with_open (reverse kept.new.items) made (text ∷ texts)
        ≡ with_open (reverse kept.old.items) last (facts.bracket_before byte (text ∷ texts))) }
{
    if byte == b'(' {
        kept.push(last)?;
        return Ok(Text::new(alloc));
    }
    match kept.pop() {
        Some(before) => Ok(before),
        None => {
            let mut text = last;
            text.push_str(")")?;
            Ok(text)
        }
    }
}

/// The open texts, each with its `(`, and the last one.
fn all_texts(alloc: Global, kept: &[Text], last: &str) -> Result<Text, Mem>
    ensures { IfOk result (λ made. made ≡ open_texts (reverse kept.now) last.now) }
{
    let mut made = Text::new(alloc);
    for text in kept {
        made.push_str(text.as_str())?;
        made.push_str("(")?;
    }
    made.push_str(last)?;
    Ok(made)
}

/// A text without what stands in parentheses.
pub(crate) fn without_brackets(alloc: Global, text: &str) -> Result<Text, Mem>
    ensures { IfOk result (λ made. made ≡ facts.without_brackets text.now) }
{
    let mut kept = Vec::new(alloc);
    let mut last = Text::new(alloc);
    let mut rest = text;
    while let Some(end) = bracket_at(rest.as_bytes()) {
        last.push_str(&rest[..end])?;
        last = behind_bracket(&mut kept, last, alloc, rest.as_bytes()[end])?;
        rest = &rest[end + 1..];
    }
    last.push_str(rest)?;
    all_texts(alloc, kept.as_slice(), last.as_str())
}
