// Words of texts, texts without some of them, and lists of texts.
ghost use Rattle.std.specs.Prelude.{◌≡◌, ◌++◌, ◌∷◌, IfOk, OnOk, [], Some, flat_map, if◌then◌else◌, not};
ghost use Rattle.std.specs.List.{list_all, list_any};
ghost use Rattle.meta_model.specs.Text.{is_empty, is_in, is_white, non_empty, space, words, drop_words};
ghost use Rattle.meta_model.specs.Forms.{spaced, words_in};

use crate::blanks::{is_white_space, white_at};
use std::alloc::Global;
use tree_model::{Mem, Text, Texts};

/// Whether the text is one of the list. It takes no memory.
pub fn is_among(text: &str, list: &[Text]) -> bool
    ensures { result ≡ is_in text.now list.now }
{
    list.iter().any(|other| text == other.as_str())
}

/// Copies of the texts, as a list.
pub fn as_texts(alloc: Global, texts: &[Text]) -> Result<Texts, Mem>
    ensures { IfOk result (λ made. made ≡ texts.now) }
{
    let mut made = Texts::new(alloc);
    for text in texts {
        made.push(text.copy()?)?;
    }
    Ok(made)
}

/// The piece, or nothing where it is one of the words.
fn kept<'a>(piece: &'a str, words: &[Text]) -> &'a str
    ensures { result.now ≡ (if is_in piece.now words.now then [] else piece.now) }
{
    if is_among(piece, words) { "" } else { piece }
}

/// A text without these words: it is cut at each single white space character, the pieces that equal one of the words go,
/// and the white space stays ("Syntax and Operators", "Removal (Override Style Syntax)").
pub fn drop_words(alloc: Global, value: &str, words: &[Text]) -> Result<Text, Mem>
    ensures { IfOk result (λ made. made ≡ drop_words value.now words.now) }
{
    let mut made = Text::new(alloc);
    let mut rest = value;
    while let Some(end) = white_at(rest.as_bytes()) {
        made.push_str(kept(&rest[..end], words))?;
        made.push_str(&rest[end..end + 1])?;
        rest = &rest[end + 1..];
    }
    made.push_str(kept(rest, words))?;
    Ok(made)
}

/// Puts the piece at the end, unless it is empty.
pub fn push_piece(list: &mut Texts, alloc: Global, piece: &str) -> Result<(), Mem>
    ensures { OnOk result (list.new ≡ list.old ++ non_empty (piece.now ∷ [])) }
{
    if piece.is_empty() {
        return Ok(());
    }
    list.push(Text::from_str(alloc, piece)?)
}

/// Puts the words of the text at the end.
pub fn push_words(list: &mut Texts, alloc: Global, text: &str) -> Result<(), Mem>
    ensures { OnOk result (list.new ≡ list.old ++ words text.now) }
{
    let mut rest = text;
    while let Some(end) = white_at(rest.as_bytes()) {
        push_piece(list, alloc, &rest[..end])?;
        rest = &rest[end + 1..];
    }
    push_piece(list, alloc, rest)
}

/// The words of a text, in their order: its pieces between runs of white space.
pub fn words(alloc: Global, text: &str) -> Result<Texts, Mem>
    ensures { IfOk result (λ made. made ≡ words text.now) }
{
    let mut list = Texts::new(alloc);
    push_words(&mut list, alloc, text)?;
    Ok(list)
}

/// Whether a byte is no white space.
fn is_no_white_space(byte: &u8) -> bool
    ensures { result ≡ not (is_white byte.now) }
{
    !is_white_space(*byte)
}

/// Whether one of the bytes is no white space.
fn holds_more(bytes: &[u8]) -> bool
    ensures { result ≡ list_any (λ c. not (is_white c)) bytes.now }
{
    bytes.iter().any(is_no_white_space)
}

/// Whether the text has a word.
pub fn has_word(text: &str) -> bool
    ensures { result ≡ not (is_empty (words text.now)) }
{
    holds_more(text.as_bytes())
}

/// Whether the piece is the word, and not empty.
fn is_piece(piece: &str, word: &str) -> bool
    ensures { result ≡ is_in word.now (non_empty (piece.now ∷ [])) }
{
    !piece.is_empty() && piece == word
}

/// Whether the word is one of the text's. It takes no memory.
pub fn holds_word(text: &str, word: &str) -> bool
    ensures { result ≡ is_in word.now (words text.now) }
{
    let mut rest = text;
    while let Some(end) = white_at(rest.as_bytes()) {
        if is_piece(&rest[..end], word) {
            return true;
        }
        rest = &rest[end + 1..];
    }
    is_piece(rest, word)
}

/// Whether all of the words are among others.
pub fn are_among(words: &[Text], others: &[Text]) -> bool
    ensures { result ≡ list_all (λ w. is_in w others.now) words.now }
{
    words.iter().all(|word| is_among(word.as_str(), others))
}

/// Puts words at the end, each behind a blank.
pub fn push_spaced(text: &mut Text, words: &[Text]) -> Result<(), Mem>
    ensures { OnOk result (text.new ≡ text.old ++ flat_map (λ w. space ∷ w) words.now) }
{
    for word in words {
        text.push_str(" ")?;
        text.push_str(word.as_str())?;
    }
    Ok(())
}

/// The words, joined by single blanks.
pub fn spaced(alloc: Global, words: &[Text]) -> Result<Text, Mem>
    ensures { IfOk result (λ made. made ≡ spaced words.now) }
{
    let Some((first, rest)) = words.split_first() else {
        return Ok(Text::new(alloc));
    };
    let mut made = first.copy()?;
    push_spaced(&mut made, rest)?;
    Ok(made)
}

/// Those of the words that are words of the text.
pub fn words_in(alloc: Global, wanted: &[Text], text: &str) -> Result<Texts, Mem>
    ensures { IfOk result (λ made. made ≡ words_in wanted.now (Some text.now)) }
{
    let mut made = Texts::new(alloc);
    for word in wanted {
        if holds_word(text, word.as_str()) {
            made.push(word.copy()?)?;
        }
    }
    Ok(made)
}
