// The folders of a task of the shared state.
ghost use Rattle.std.specs.Prelude.{◌≡◌, ◌||◌, IfOk, IfErr, OnOk, Ok, bytes_eq, codes, zip};
ghost use Rattle.task_model.specs.Scripts.{all_places, is_path, paired, place_of, places, places_of};
ghost use Rattle.script_gen.specs.Faults.{IsScriptFault};
ghost use Rattle.script_gen.specs.Steps.{place_in, placed, side};

use crate::fault::ScriptFault;
use crate::flags::{behind_work_folder, flag_text, is_path, must_fit};
use crate::of_key::OfKey;
use crate::sight::{OfStore, Sight};
use datastore::Datastore;
use meta_model::Key;
use std::alloc::Global;
use tree_model::{ListOf, Mem, Text, Texts};
use var_expand::words;

/// The folder that a word means: what stands behind `${WORKDIR}/`, or else the word itself.
fn place_of(word: &str) -> &str
    ensures { result.now ≡ place_of word.now }
{
    behind_work_folder(word).unwrap_or(word)
}

/// Whether a folder can be one of a work tree: it is `.` or a path.
fn is_place(place: &str) -> bool
    ensures { result ≡ (bytes_eq place.now (codes ".") || is_path place.now) }
{
    place == "." || is_path(place)
}

/// The folder that a word of a flag means.
fn place_in(alloc: Global, flag: &str, word: &Text) -> Result<Text, ScriptFault>
    ensures ok { IfOk result (λ made. place_in flag.now word.now ≡ Ok made) }
    ensures err { IfErr result (λ fault. IsScriptFault fault (place_in flag.now word.now)) }
{
    let place = place_of(word.as_str());
    must_fit(alloc, is_place(place), flag, word)?;
    Ok(Text::from_str(alloc, place)?)
}

/// The folders that the words of a flag mean.
fn all_places(alloc: Global, flag: &str, words: &[Text]) -> Result<Texts, ScriptFault>
    ensures ok { IfOk result (λ made. all_places flag.now words.now ≡ Ok made) }
    ensures err { IfErr result (λ fault. IsScriptFault fault (all_places flag.now words.now)) }
{
    let mut list = Texts::new(alloc);
    for word in words {
        list.push(place_in(alloc, flag, word)?)?;
    }
    Ok(list)
}

/// Refuses the first word without a partner.
fn paired(alloc: Global, inputs: &[Text], outputs: &[Text]) -> Result<(), ScriptFault>
    ensures ok { OnOk result (paired inputs.now outputs.now ≡ Ok tt) }
    ensures err { IfErr result (λ fault. IsScriptFault fault (paired inputs.now outputs.now)) }
{
    if outputs.len() < inputs.len() {
        return must_fit(alloc, false, "sstate-inputdirs", &inputs[outputs.len()]);
    }
    if inputs.len() < outputs.len() {
        return must_fit(alloc, false, "sstate-outputdirs", &outputs[inputs.len()]);
    }
    Ok(())
}

/// The pairs of two lists, as far as both go.
fn pairs_of(alloc: Global, inputs: &[Text], outputs: &[Text]) -> Result<ListOf<(Text, Text)>, Mem>
    ensures { IfOk result (λ made. made ≡ zip inputs.now outputs.now) }
{
    let mut list = ListOf::new(alloc);
    for place in 0..inputs.len() {
        if place >= outputs.len() {
            return Ok(list);
        }
        list.push((inputs[place].copy()?, outputs[place].copy()?))?;
    }
    Ok(list)
}

/// What one of the two flags says: its words, and the folders that they mean.
#[derive(Drop)]
struct Side {
    words: Texts,
    places: Texts,
}

/// What one of the two flags of a task says.
fn side_of<S: Sight>(alloc: Global, from: &S, flag: &str) -> Result<Side, ScriptFault>
    ensures ok { IfOk result (λ made. side (S.finds from.now) (S.flags from.now) flag.now
        ≡ Ok (made.words, made.places)) }
    ensures err { IfErr result (λ fault. IsScriptFault fault (side (S.finds from.now) (S.flags from.now) flag.now)) }
{
    let text = flag_text(alloc, from, flag)?;
    let words = words(alloc, text.as_str())?;
    let places = all_places(alloc, flag, words.as_slice())?;
    Ok(Side { words, places })
}

/// The pairs of an input folder and an output folder that the flags of a task name.
fn placed<S: Sight>(alloc: Global, from: &S) -> Result<ListOf<(Text, Text)>, ScriptFault>
    ensures ok { IfOk result (λ made. placed (S.finds from.now) (S.flags from.now) ≡ Ok made) }
    ensures err { IfErr result (λ fault. IsScriptFault fault (placed (S.finds from.now) (S.flags from.now))) }
{
    let inputs = side_of(alloc, from, "sstate-inputdirs")?;
    let outputs = side_of(alloc, from, "sstate-outputdirs")?;
    paired(alloc, inputs.words.as_slice(), outputs.words.as_slice())?;
    Ok(pairs_of(alloc, inputs.places.as_slice(), outputs.places.as_slice())?)
}

/// The pairs of an input folder of the work tree and an output folder, in the order of the words of `[sstate-inputdirs]` and
/// `[sstate-outputdirs]`. A `${WORKDIR}/` in front of a word is dropped.
///
/// The words of the first flag are asked first, then those of the second, then whether each has a partner (own rules).
pub fn places(
    alloc: Global,
    store: &Datastore,
    task: &str,
) -> Result<ListOf<(Text, Text)>, ScriptFault>
    ensures ok { IfOk result (λ made. places store.now task.now ≡ Ok made) }
    ensures err { IfErr result (λ fault. IsScriptFault fault (places store.now task.now)) }
{
    placed(alloc, &OfStore { store, task })
}

/// The places that the lines of a key alone tell; a name without a line is absent.
pub fn places_of(alloc: Global, key: &Key, task: &str) -> Result<ListOf<(Text, Text)>, ScriptFault>
    ensures ok { IfOk result (λ made. places_of key.now task.now ≡ Ok made) }
    ensures err { IfErr result (λ fault. IsScriptFault fault (places_of key.now task.now)) }
{
    let from = OfKey::new(alloc, key, task)?;
    placed(alloc, &from)
}
