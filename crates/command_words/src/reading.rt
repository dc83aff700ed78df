// From the words to a request.
ghost use Rattle.std.specs.Prelude.{◌≡◌, ◌≤◌, false, true, IfErr, IfOk, IfSome, None, Some, codes, length, map, option_map, unwrap_or, []};
ghost use Rattle.clap.specs.Matches.{found_of};
ghost use Rattle.clap.specs.Simple.{matches_of};
ghost use Rattle.clap.specs.Walk.{all_of, first_of, rows_of};
ghost use Rattle.command_words.specs.declared.fault.WordsFault.TheVariants.{Usage};
ghost use Rattle.answer_model.specs.Command.{command};
ghost use Rattle.command_words.specs.Numbers.{HasNumber};
ghost use Rattle.answer_model.specs.Reading.{are_taken, asked, is_from_words, is_given, number_of, request_of};

use crate::command::bitbake_command;
use crate::fault::WordsFault;
use crate::request::lacks_target;
use answer_model::Request;
use clap::ArgMatches;
use clap::parser::ValueSource;
use std::alloc::{AllocError, Global};
use tree_model::{Mem, Text, Texts};

// The words as string slices.
fn slices_of<'w>(alloc: Global, words: &'w [Text]) -> Result<Vec<&'w str>, AllocError>
    ensures { IfOk result (λ made. map (λ word. word.now) made.items ≡ words.entry.now) }
{
    let mut slices = Vec::with_capacity(alloc, words.len())?;
    for word in words {
        slices.push(word.as_str())?;
    }
    Ok(slices)
}

// Whether the words themselves say so.
fn is_from_words(source: Option<ValueSource>) -> bool
    ensures { result ≡ is_from_words source }
{
    matches!(source, Some(ValueSource::CommandLine))
}

// Whether the words themselves gave the option.
fn is_given(matches: &ArgMatches<'_>, name: &str) -> bool
    ensures { result ≡ is_given name.now (rows_of (found_of matches.now)) }
{
    is_from_words(matches.value_source(name))
}

// The number of `--sample`.
fn sample_of(matches: &ArgMatches<'_>) -> Option<u32>
    requires { HasNumber (found_of matches.now) }
    ensures number { result ≡ option_map number_of (first_of (codes "sample") (rows_of (found_of matches.now))) }
    ensures range { IfSome result (λ n. (1 ≤ n) × (n ≤ 1000)) }
{
    matches.get_one::<u32>("sample")
}

// The task of the targets that name none.
fn task_of(alloc: Global, matches: &ArgMatches<'_>) -> Result<Option<Text>, Mem>
    ensures { IfOk result (λ task. task ≡ first_of (codes "cmd") (rows_of (found_of matches.now))) }
{
    match matches.get_str("cmd") {
        Some(task) => Ok(Some(Text::from_str(alloc, task)?)),
        None => Ok(None),
    }
}

// The texts again, in their order.
fn texts_of(alloc: Global, words: &[&str]) -> Result<Texts, Mem>
    ensures { IfOk result (λ made. made ≡ map (λ word. word.now) words.now) }
{
    let mut texts = Texts::new(alloc);
    for word in words {
        texts.push(Text::from_str(alloc, word)?)?;
    }
    Ok(texts)
}

// The words that belong to no option.
fn targets_of(alloc: Global, matches: &ArgMatches<'_>) -> Result<Texts, Mem>
    ensures { IfOk result (λ targets. targets ≡ unwrap_or (all_of (codes "target") (rows_of (found_of matches.now)))
        []) }
{
    match matches.get_strs("target") {
        Some(words) => texts_of(alloc, words),
        None => Ok(Texts::new(alloc)),
    }
}

// What the matches ask for.
fn asked(alloc: Global, matches: &ArgMatches<'_>) -> Result<Request, Mem>
    requires { HasNumber (found_of matches.now) }
    ensures fields { IfOk result (λ made. made ≡ asked (rows_of (found_of matches.now))) }
    ensures range { IfOk result (λ made. IfSome made.sample (λ n. (1 ≤ n) × (n ≤ 1000))) }
{
    Ok(Request {
        targets: targets_of(alloc, matches)?,
        task: task_of(alloc, matches)?,
        force: is_given(matches, "force"),
        keep_going: is_given(matches, "continue"),
        dry: is_given(matches, "dry-run"),
        env: is_given(matches, "environment"),
        show: is_given(matches, "show-versions"),
        parse_only: is_given(matches, "parse-only"),
        setscene: !is_given(matches, "no-setscene"),
        sample: sample_of(matches),
    })
}

// The matches of the program's command on the words.
fn matches_of<'w>(alloc: Global, words: &'w [&'w str]) -> Result<ArgMatches<'w>, WordsFault>
    ensures taken { IfOk result (λ made. are_taken (map (λ word. word.now) words.entry.now) ≡ true) }
    ensures rows { IfOk result (λ made. rows_of (found_of made)
        ≡ matches_of command (map (λ word. word.now) words.entry.now)) }
    ensures number { IfOk result (λ made. HasNumber (found_of made)) }
    ensures usage { IfErr result (λ fault. fault ≡ Usage → are_taken (map (λ word. word.now) words.entry.now) ≡ false) }
{
    let command = bitbake_command(alloc)?;
    Ok(command.try_get_matches_from(words)?)
}

/// The request that the words behind the program's name make. It has the words' texts again.
///
/// # Errors
/// `Usage` where the command doesn't take the words, or where there is no target and the mode needs one; `Memory`.
pub fn read_words(alloc: Global, words: &[Text]) -> Result<Request, WordsFault>
    ensures request { IfOk result (λ made. request_of words.now ≡ Some made) }
    ensures usage { IfErr result (λ fault. fault ≡ Usage → request_of words.now ≡ None) }
    ensures range { IfOk result (λ made. IfSome made.sample (λ n. (1 ≤ n) × (n ≤ 1000))) }
{
    let slices = slices_of(alloc, words)?;
    let matches = matches_of(alloc, slices.as_slice())?;
    let request = asked(alloc, &matches)?;
    if lacks_target(&request) {
        Err(WordsFault::Usage)
    } else {
        Ok(request)
    }
}
