// Quoted texts, and operators with one behind them.
ghost use Rattle.std.specs.Prelude.{◌≡◌, ◌==◌, ◌≤◌, length, count_by, option_map};
ghost use Rattle.meta_model.specs.Grammar.{quoted, operation};
ghost use Rattle.meta_model.specs.Text.{skip_blanks};
ghost use Rattle.bb_parser.specs.Quotes.{quoted_of_found, operation_of_found};

use crate::names::first_operator;
use meta_model::{Op, skipped};

/// A text in quotes.
#[derive(Clone, Copy)]
pub struct QuotedText<'a> {
    /// What stands between the first quote and the last.
    pub text: &'a str,
    /// How often the quote stands in it.
    pub inner: usize,
}

/// How often a byte stands in a text.
pub fn times(bytes: &[u8], byte: u8) -> usize
    ensures { result ≡ count_by (λ b. b == byte) bytes.now }
{
    bytes.iter().filter(|b| **b == byte).count()
}

/// The text in quotes that the line is, up to its last quote of the kind that begins it.
pub fn quoted_text(line: &str) -> Option<QuotedText<'_>>
    ensures { quoted line.now ≡ option_map quoted_of_found result }
{
    let bytes = line.as_bytes();
    if bytes.len() < 2 {
        return None;
    }
    let quote = bytes[0];
    if quote != b'"' && quote != b'\'' {
        return None;
    }
    if bytes[bytes.len() - 1] != quote {
        return None;
    }
    let text = &line[1..line.len() - 1];
    Some(QuotedText {
        text,
        inner: times(text.as_bytes(), quote),
    })
}

/// The operator and the text in quotes that the line is, with blanks before and between.
pub fn operator_and_text(line: &str) -> Option<(Op, QuotedText<'_>)>
    ensures { operation line.now ≡ option_map operation_of_found result }
{
    let (op, rest) = first_operator(line)?;
    let quoted = quoted_text(skipped(rest))?;
    Some((op, quoted))
}
