//! The commands and their positional words, as clap's builder takes them.
ghost use Rattle.std.specs.Prelude.{◌≡◌, IfOk, false};
ghost use Rattle.clap.specs.Words.{app_of, shape_of, rule_of};
ghost use Rattle.clap.specs.declared.builder.command.Command.TheViews.{out-Command};
ghost use Rattle.command_line.specs.Grammar.{grammar, numbered, positional};

use clap::{Arg, Command};
use std::alloc::{AllocError, Global};

/// What the program's words are. clap adds no flag and no command `help` to it.
pub(crate) fn grammar<'a>(alloc: Global) -> Result<Command<'a>, AllocError>
    ensures { IfOk result (λ made. app_of made ≡ grammar) }
{
    Command::new(alloc, "umarun")
        .no_binary_name(true)
        .disable_help_flag(true)
        .disable_help_subcommand(true)
        .subcommand_required(true)
        .subcommand(Command::new(alloc, "replay"))?
        .subcommand(Command::new(alloc, "steps"))?
        .subcommand(numbered(alloc, "gen")?)?
        .subcommand(numbered(alloc, "bulk")?)
}

/// A command with SEED, WORKERS and OPS.
fn numbered<'a>(alloc: Global, name: &'a str) -> Result<Command<'a>, AllocError>
    ensures shape { IfOk result (λ made. shape_of made ≡ numbered name.entry.now) }
    ensures local { IfOk result (λ made. (out-Command made).has_globals ≡ false) }
{
    Command::new(alloc, name)
        .arg(positional(alloc, "seed"))?
        .arg(positional(alloc, "workers"))?
        .arg(positional(alloc, "ops"))
}

/// A word that has to be there.
fn positional<'a>(alloc: Global, id: &'a str) -> Arg<'a>
    ensures rule { rule_of result ≡ positional id.entry.now }
    ensures local { result.global ≡ false }
{
    Arg::new(alloc, id).required(true)
}
