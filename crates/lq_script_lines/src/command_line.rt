//! Reads the program's arguments with clap, and refuses what clap would take beyond the documented
//! forms.
ghost use Rattle.std.specs.Prelude.{◌≡◌, false, IfOk, IsErrOf};
ghost use Rattle.clap.specs.Simple.{app_of};
ghost use Rattle.clap.specs.declared.builder.command.Command.TheViews.{out-Command as fields_of};
ghost use Rattle.lq_script_lines.specs.CommandLine.{bare_command, check_app, lq_app, scripts_app};
ghost use Rattle.lq_script_lines.specs.Words.{IsAskedBy, IsUsage, has_stray, texts_of};

use clap::error::ErrorKind;
use clap::{Arg, ArgAction, Command};
use std::alloc::{AllocError, Global};

/// What the program's arguments ask for.
#[derive(Clone, Copy)]
pub enum Subcommand<'a> {
    /// `run`.
    Run,
    /// `threads`.
    Threads,
    /// `check FORMULA`.
    Check(&'a str),
}

/// Why arguments ask for nothing: no subcommand fits them, or there is no memory to read them.
#[derive(Clone, Copy)]
pub enum WordsFault {
    Usage,
    NoMemory,
}

/// What these arguments ask for.
///
/// Refused: `Usage` for all but `run`, `threads`, `check FORMULA` and `check -- FORMULA`, so also
/// for help and version; a FORMULA that begins with `-` has to follow `--`. `NoMemory` where memory
/// runs out.
pub fn subcommand_of<'a>(alloc: Global, words: &'a [String]) -> Result<Subcommand<'a>, WordsFault>
    ensures ok { IfOk result (IsAskedBy (texts_of words.entry.now)) }
    ensures usage { IsErrOf result WordsFault.Usage → IsUsage (texts_of words.entry.now) }
{
    if has_stray_dashes(words) {
        return Err(WordsFault::Usage);
    }
    let Ok(command) = command_of(alloc) else {
        return Err(WordsFault::NoMemory);
    };
    let matches = match command.try_get_matches_from(words) {
        Ok(matches) => matches,
        Err(error) if error.kind() == ErrorKind::OutOfMemory => return Err(WordsFault::NoMemory),
        Err(_) => return Err(WordsFault::Usage),
    };
    let Some((name, inner)) = matches.subcommand() else {
        return Err(WordsFault::Usage);
    };
    if name == "run" {
        return Ok(Subcommand::Run);
    }
    if name == "threads" {
        return Ok(Subcommand::Threads);
    }
    match inner.get_str("formula") {
        Some(formula) => Ok(Subcommand::Check(formula)),
        None => Err(WordsFault::Usage),
    }
}

// clap accepts `-` as a FORMULA, and a `--` with nothing after it; this program accepts neither.
fn has_stray_dashes(words: &[String]) -> bool
    ensures { result ≡ has_stray (texts_of words.now) }
{
    match words {
        [_, second] => second.as_bytes().starts_with(b"-"),
        [_, second, third] => second.as_str() != "--" && third.as_str() == "--",
        _ => false,
    }
}

// The program's command: `run`, `threads`, or `check` with a formula.
fn command_of<'a>(alloc: Global) -> Result<Command<'a>, AllocError>
    ensures { IfOk result (λ command. app_of command ≡ lq_app) }
{
    let check = check_command(alloc)?;
    let command = scripts_command(alloc)?;
    command.subcommand(check)
}

// The command with `run` and `threads` alone. Its arguments begin after its name and have to name a
// subcommand.
fn scripts_command<'a>(alloc: Global) -> Result<Command<'a>, AllocError>
    ensures { IfOk result (λ command. app_of command ≡ scripts_app) }
{
    without_help(alloc, "lq")
        .no_binary_name(true)
        .subcommand_required(true)
        .subcommand(without_help(alloc, "run"))?
        .subcommand(without_help(alloc, "threads"))
}

// The subcommand `check`, which requires a formula.
fn check_command<'a>(alloc: Global) -> Result<Command<'a>, AllocError>
    ensures app { IfOk result (λ command. app_of command ≡ check_app) }
    ensures locals { IfOk result (λ command. (fields_of command).has_globals ≡ false) }
{
    let formula = Arg::new(alloc, "formula")
        .required(true)
        .action(ArgAction::Set);
    without_help(alloc, "check").arg(formula)
}

// A command without clap's help and version: both count as other arguments.
fn without_help<'a>(alloc: Global, name: &'a str) -> Command<'a>
    ensures app { app_of result ≡ bare_command name.entry.now }
    ensures locals { (fields_of result).has_globals ≡ false }
{
    Command::new(alloc, name)
        .disable_help_flag(true)
        .disable_version_flag(true)
        .disable_help_subcommand(true)
}
