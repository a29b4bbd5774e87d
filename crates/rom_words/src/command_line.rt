//! The command line as `clap` reads it.
ghost use Rattle.std.specs.Prelude.{◌≡◌, ◌<◌, Some, false, codes, option_map, IfErr, IfOk, IsSome};
ghost use Rattle.clap.specs.Words.{app_of, first_value, found_of, kind_of, new_app, rule_of, subcommand_rows_of, with_rule};
ghost use Rattle.clap.specs.Walk.{rows_of};
ghost use Rattle.clap.specs.declared.builder.command.Command.TheViews.{out-Command};
ghost use Rattle.rom_words.specs.CommandLine.{MatchesHave, bare_app, file_app, option_rule, plain_rule, scripts_rule, values_at};
ghost use Rattle.rom_words.specs.CommandLine as line;
ghost use Rattle.rom_words.specs.Wanted.{texts};
ghost use Rattle.rom_words.specs.Words.{Command as Asks, command};

use clap::error::ErrorKind;
use clap::{Arg, ArgAction, ArgMatches, Command, Error};
use rom_model::MAX_CALLERS;
use rom_text::{Name, Names};
use std::alloc::{AllocError, Global};

/// 1 to 16 scripts.
fn scripts<'a>(alloc: Global) -> Arg<'a>
    ensures rule { rule_of result ≡ scripts_rule }
    ensures local { result.global ≡ false }
{
    Arg::new(alloc, "SCRIPT")
        .action(ArgAction::Set)
        .num_args(1..=MAX_CALLERS as usize)
}

/// An option that has a value.
fn option<'a>(alloc: Global, name: &'a str) -> Arg<'a>
    ensures rule { rule_of result ≡ option_rule name.entry.now }
    ensures local { result.global ≡ false }
{
    Arg::new(alloc, name).long(name)
}

fn try_command<'a>(alloc: Global) -> Result<Command<'a>, AllocError>
    ensures shape { IfOk result (λ c. app_of c ≡ with_rule (new_app (codes "try")) scripts_rule) }
    ensures local { IfOk result (λ c. (out-Command c).has_globals ≡ false) }
{
    Command::new(alloc, "try").arg(scripts(alloc))
}

fn run_command<'a>(alloc: Global) -> Result<Command<'a>, AllocError>
    ensures shape { IfOk result (λ c. app_of c ≡ with_rule (with_rule (new_app (codes "run"))
        (plain_rule (codes "FILE"))) scripts_rule) }
    ensures local { IfOk result (λ c. (out-Command c).has_globals ≡ false) }
{
    let file = Arg::new(alloc, "FILE");
    Command::new(alloc, "run").arg(file)?.arg(scripts(alloc))
}

fn format_command<'a>(alloc: Global) -> Result<Command<'a>, AllocError>
    ensures shape { IfOk result (λ c. app_of c ≡ with_rule (with_rule (new_app (codes "format"))
        (plain_rule (codes "FILE"))) (option_rule (codes "order"))) }
    ensures local { IfOk result (λ c. (out-Command c).has_globals ≡ false) }
{
    let file = Arg::new(alloc, "FILE");
    Command::new(alloc, "format")
        .arg(file)?
        .arg(option(alloc, "order"))
}

/// A command that takes a file alone.
fn file_command<'a>(alloc: Global, name: &'a str) -> Result<Command<'a>, AllocError>
    ensures shape { IfOk result (λ c. app_of c ≡ file_app name.entry.now) }
    ensures local { IfOk result (λ c. (out-Command c).has_globals ≡ false) }
{
    Command::new(alloc, name).arg(Arg::new(alloc, "FILE"))
}

fn drill_command<'a>(alloc: Global) -> Result<Command<'a>, AllocError>
    ensures shape { IfOk result (λ c. app_of c ≡ with_rule (with_rule
        (with_rule (new_app (codes "drill")) (plain_rule (codes "START")))
        (option_rule (codes "callers"))) (option_rule (codes "calls"))) }
    ensures local { IfOk result (λ c. (out-Command c).has_globals ≡ false) }
{
    let start = Arg::new(alloc, "START");
    Command::new(alloc, "drill")
        .arg(start)?
        .arg(option(alloc, "callers"))?
        .arg(option(alloc, "calls"))
}

/// The name of the program, which has no help.
fn bare_command<'a>(alloc: Global) -> Command<'a>
    ensures shape { app_of result ≡ bare_app }
    ensures local { (out-Command result).has_globals ≡ false }
{
    Command::new(alloc, "romulus")
        .no_binary_name(true)
        .disable_help_flag(true)
        .disable_help_subcommand(true)
}

/// All commands of the program.
fn command_line<'a>(alloc: Global) -> Result<Command<'a>, AllocError>
    ensures { IfOk result (λ c. app_of c ≡ line.command_line) }
{
    bare_command(alloc)
        .subcommand(try_command(alloc)?)?
        .subcommand(run_command(alloc)?)?
        .subcommand(format_command(alloc)?)?
        .subcommand(file_command(alloc, "stat")?)?
        .subcommand(file_command(alloc, "upgrade")?)?
        .subcommand(drill_command(alloc)?)
}

/// The matches of words that are a command. An `Err` is want of memory.
pub(crate) fn matches_of<'a>(alloc: Global, words: &'a [&'a str]) -> Result<ArgMatches<'a>, Error>
    requires { IsSome (command (texts words.now)) }
    ensures ok { IfOk result (λ m. (c : Asks) → command (texts words.now) ≡ Some c →
        MatchesHave c (option_map (λ p. p.1) (subcommand_rows_of m))) }
    ensures err { IfErr result (λ e. kind_of e ≡ ErrorKind.OutOfMemory) }
{
    command_line(alloc)?.try_get_matches_from(words)
}

/// The matches of the command's own arguments.
pub(crate) fn found_in<'m, 'a>(matches: &'m ArgMatches<'a>) -> &'m ArgMatches<'a>
    requires { IsSome (subcommand_rows_of matches.now) }
    ensures { option_map (λ p. p.1) (subcommand_rows_of matches.now)
        ≡ Some (rows_of (found_of result.now)) }
{
    matches.subcommand().unwrap().1
}

/// The one value of an argument.
pub(crate) fn text_at<'a>(found: &ArgMatches<'a>, id: &str) -> &'a str
    requires { IsSome (first_value (found_of found.now) id.now) }
    ensures { first_value (found_of found.now) id.now ≡ Some result.now }
{
    found.get_str(id).unwrap()
}

/// The one value of an argument, as a name.
pub(crate) fn name_at(alloc: Global, found: &ArgMatches<'_>, id: &str) -> Result<Name, AllocError>
    requires { IsSome (first_value (found_of found.now) id.now) }
    ensures { IfOk result (λ name. first_value (found_of found.now) id.now ≡ Some name) }
{
    Name::of(alloc, text_at(found, id))
}

/// The values of an argument, as names.
pub(crate) fn names_at(alloc: Global, found: &ArgMatches<'_>, id: &str) -> Result<Names, AllocError>
    requires { IsSome (values_at (found_of found.now) id.now) }
    ensures { IfOk result (λ names. values_at (found_of found.now) id.now ≡ Some names) }
{
    let mut names = Names::new(alloc);
    for text in found.get_strs(id).unwrap().iter() {
        names.push(alloc, text)?;
    }
    Ok(names)
}

/// The texts of words.
pub(crate) fn texts_of(alloc: Global, words: &Names) -> Result<Vec<&str>, AllocError>
    ensures { IfOk result (λ t. texts t.items ≡ words.now) }
{
    let mut all = Vec::new(alloc);
    for word in words.as_slice() {
        all.push(word.as_str())?;
    }
    Ok(all)
}
