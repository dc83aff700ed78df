// The options that the program knows, as a command of `clap`.
ghost use Rattle.std.specs.Prelude.{◌≡◌, ◌++◌, [], IfOk, false};
ghost use Rattle.clap.specs.Walk.{rule_of};
ghost use Rattle.clap.specs.Simple.{app_of};
ghost use Rattle.answer_model.specs.Command.{command, command_of, lettered, mode_options, numbered, rest, run_options, switch, valued};

use clap::{Arg, ArgAction, Command, value_parser};
use std::alloc::{AllocError, Global};

// An option without a value.
fn switch<'a>(alloc: Global, name: &'a str) -> Arg<'a>
    ensures rule { rule_of result ≡ switch name.entry.now }
    ensures local { result.global ≡ false }
{
    Arg::new(alloc, name).long(name).action(ArgAction::SetTrue)
}

// An option without a value, with a letter.
fn lettered_switch<'a>(alloc: Global, letter: char, name: &'a str) -> Arg<'a>
    ensures rule { rule_of result ≡ lettered letter (switch name.entry.now) }
    ensures local { result.global ≡ false }
{
    switch(alloc, name).short(letter)
}

// An option with one value and a letter.
fn lettered_valued<'a>(alloc: Global, letter: char, name: &'a str) -> Arg<'a>
    ensures rule { rule_of result ≡ lettered letter (valued name.entry.now) }
    ensures local { result.global ≡ false }
{
    Arg::new(alloc, name).long(name).short(letter)
}

// An option whose value is a number from 1 to 1,000.
fn numbered<'a>(alloc: Global, name: &'a str) -> Arg<'a>
    ensures rule { rule_of result ≡ numbered 1 1000 (valued name.entry.now) }
    ensures local { result.global ≡ false }
{
    Arg::new(alloc, name)
        .long(name)
        .value_parser(value_parser!(u32).range(1..=1000))
}

// The words that belong to no option.
fn rest<'a>(alloc: Global, name: &'a str) -> Arg<'a>
    ensures rule { rule_of result ≡ rest name.entry.now }
    ensures local { result.global ≡ false }
{
    Arg::new(alloc, name).action(ArgAction::Append)
}

// A command without options. It has no help and no version, and its words don't begin with the program's name.
fn bare_command<'a>(alloc: Global) -> Command<'a>
    ensures { app_of result ≡ command_of [] }
{
    Command::new(alloc, "bitbake")
        .no_binary_name(true)
        .disable_help_flag(true)
}

// The command with the options that say how to run.
fn command_to_run<'a>(alloc: Global) -> Result<Command<'a>, AllocError>
    ensures { IfOk result (λ made. app_of made ≡ command_of run_options) }
{
    bare_command(alloc)
        .arg(lettered_valued(alloc, 'c', "cmd"))?
        .arg(lettered_switch(alloc, 'f', "force"))?
        .arg(lettered_switch(alloc, 'k', "continue"))?
        .arg(switch(alloc, "no-setscene"))
}

// The same with the options of the modes.
fn command_with_modes<'a>(alloc: Global) -> Result<Command<'a>, AllocError>
    ensures { IfOk result (λ made. app_of made ≡ command_of (run_options ++ mode_options)) }
{
    command_to_run(alloc)?
        .arg(lettered_switch(alloc, 'n', "dry-run"))?
        .arg(lettered_switch(alloc, 'e', "environment"))?
        .arg(lettered_switch(alloc, 's', "show-versions"))?
        .arg(lettered_switch(alloc, 'p', "parse-only"))?
        .arg(numbered(alloc, "sample"))
}

/// The program's command: its options and its targets. Its words are those behind the program's name.
pub fn bitbake_command<'a>(alloc: Global) -> Result<Command<'a>, AllocError>
    ensures { IfOk result (λ made. app_of made ≡ command) }
{
    command_with_modes(alloc)?.arg(rest(alloc, "target"))
}
