// Statements that are read for a layer.
ghost use Rattle.std.specs.Prelude.{◌≡◌, ◌++◌, ◌<◌, List, ℕ, Ok, IfOk, IfErr, IfSome, OnOk, MatchOption, length};
ghost use Rattle.meta_model.specs.Active.{expand};
ghost use Rattle.meta_model.specs.Entries as entries;
ghost use Rattle.datastore.specs.Faults.{IsDataFault};
ghost use Rattle.load_model.specs.Layers.{with_folder, statement_in_layer};
ghost use Rattle.class_inherit.specs.Adding.{added};
ghost use Rattle.class_inherit.specs.Reading.{statement_for, text_for, words_in};

use crate::entries::{add_assignment, add_flag_assignment, add_statement};
use crate::reading::Reading;
use datastore::DataFault;
use meta_model::Statement;
use std::alloc::Global;
use tree_model::{Mem, Text, Texts};
use var_expand::words;

/// What stands before the first `${LAYERDIR}`, and what behind it, where there is one.
fn cut_at_layer(text: &str) -> Option<(&str, &str)>
    ensures parts { (layer : List ℕ) → MatchOption result (with_folder layer text.now ≡ text.now)
        (λ cut. with_folder layer text.now ≡ cut.0.now ++ (layer ++ with_folder layer cut.1.now)) }
    ensures shorter { IfSome result (λ cut. length cut.1.now < length text.now) }
{
    text.split_once("${LAYERDIR}")
}

/// Puts two texts behind another.
fn push_both(made: &mut Text, front: &str, behind: &str) -> Result<(), Mem>
    ensures { OnOk result (made.new ≡ (made.old ++ front.now) ++ behind.now) }
{
    made.push_str(front)?;
    made.push_str(behind)
}

/// A text with the folder of its layer in the place of `${LAYERDIR}` (BitBake User Manual, "Variables Glossary", LAYERDIR).
fn with_folder(alloc: Global, layer: &str, text: &str) -> Result<Text, Mem>
    ensures { IfOk result (λ made. made ≡ with_folder layer.now text.now) }
{
    let mut made = Text::new(alloc);
    let mut rest = text;
    while let Some((front, after)) = cut_at_layer(rest) {
        push_both(&mut made, front, layer)?;
        rest = after;
    }
    made.push_str(rest)?;
    Ok(made)
}

/// The entries that a statement of a layer's configuration adds.
fn add_in_layer(
    alloc: Global,
    reading: &mut Reading,
    class: &str,
    layer: &str,
    statement: &Statement,
) -> Result<(), DataFault>
    ensures ok { OnOk result (added reading.old (entries.lines_of class.now reading.old.lines
        (statement_in_layer layer.now statement.now)) ≡ Ok reading.new) }
    ensures err { IfErr result (λ fault. IsDataFault fault
        (entries.lines_of class.now reading.old.lines (statement_in_layer layer.now statement.now))) }
{
    match statement {
        Statement::Assign {
            export,
            name,
            op,
            text,
        } => {
            let text = with_folder(alloc, layer, text.as_str())?;
            add_assignment(alloc, reading, *export, name.as_str(), *op, &text)
        }
        Statement::Flag {
            name,
            flag,
            op,
            text,
        } => {
            let text = with_folder(alloc, layer, text.as_str())?;
            add_flag_assignment(alloc, reading, name, flag, *op, &text)
        }
        _ => add_statement(alloc, reading, class, statement),
    }
}

/// The entries that a statement adds, read for a layer or for none.
pub(crate) fn add_for(
    alloc: Global,
    reading: &mut Reading,
    class: &str,
    layer: &Option<Text>,
    statement: &Statement,
) -> Result<(), DataFault>
    ensures ok { OnOk result (added reading.old (entries.lines_of class.now reading.old.lines
        (statement_for layer.now statement.now)) ≡ Ok reading.new) }
    ensures err { IfErr result (λ fault. IsDataFault fault
        (entries.lines_of class.now reading.old.lines (statement_for layer.now statement.now))) }
{
    match layer {
        Some(layer) => add_in_layer(alloc, reading, class, layer.as_str(), statement),
        None => add_statement(alloc, reading, class, statement),
    }
}

/// A text expanded over the entries so far, read for a layer or for none.
fn expanded_for(
    alloc: Global,
    reading: &Reading,
    layer: &Option<Text>,
    text: &Text,
) -> Result<Text, DataFault>
    ensures ok { IfOk result (λ made. expand reading.now.lines (text_for layer.now text.now) ≡ Ok made) }
    ensures err { IfErr result (λ fault. IsDataFault fault (expand reading.now.lines (text_for layer.now text.now))) }
{
    match layer {
        Some(layer) => {
            let text = with_folder(alloc, layer.as_str(), text.as_str())?;
            reading.expand(alloc, text.as_str())
        }
        None => reading.expand(alloc, text.as_str()),
    }
}

/// The words of a text that is expanded over the entries so far, read for a layer or for none.
pub(crate) fn words_for(
    alloc: Global,
    reading: &Reading,
    layer: &Option<Text>,
    text: &Text,
) -> Result<Texts, DataFault>
    ensures ok { IfOk result (λ made. words_in reading.now.lines (text_for layer.now text.now) ≡ Ok made) }
    ensures err { IfErr result (λ fault. IsDataFault fault (words_in reading.now.lines (text_for layer.now text.now))) }
{
    let expanded = expanded_for(alloc, reading, layer, text)?;
    Ok(words(alloc, expanded.as_str())?)
}
