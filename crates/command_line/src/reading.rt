ghost use Rattle.std.specs.Prelude.{◌≡◌, Some, None, Err, IfOk, false, map, string_bytes};
ghost use Rattle.std.specs.List.{list_any};
ghost use Rattle.command_line.specs.Commands.{HasRanges, command_of};
ghost use Rattle.command_line.specs.Reading.{is_option};

use crate::command::Command;
use crate::grammar::grammar;
use crate::refused::WordsRefused;
use std::alloc::Global;

/// The command that the words after the program's name are. `Usage` comes only where they are none.
pub fn command_in(alloc: Global, words: &[String]) -> Result<Command, WordsRefused>
    ensures command { IfOk result (λ command. command_of (map string_bytes words.now) ≡ Some command) }
    ensures usage { result ≡ Err WordsRefused.Usage → command_of (map string_bytes words.now) ≡ None }
    ensures ranges { IfOk result HasRanges }
{
    if has_option(words) {
        return Err(WordsRefused::Usage);
    }
    plain_command(alloc, words)
}

/// Whether a word begins with `-`. No command has such a word, and clap sees none.
fn has_option(words: &[String]) -> bool
    ensures { result ≡ list_any (λ word. is_option (string_bytes word)) words.now }
{
    words.iter().any(|word| is_option(word.as_str()))
}

/// Whether the word begins with `-`.
fn is_option(word: &str) -> bool
    ensures { result ≡ is_option word.now }
{
    word.starts_with('-')
}

/// The command of words none of which begins with `-`.
fn plain_command(alloc: Global, words: &[String]) -> Result<Command, WordsRefused>
    requires { list_any (λ word. is_option (string_bytes word)) words.now ≡ false }
    ensures command { IfOk result (λ command. command_of (map string_bytes words.now) ≡ Some command) }
    ensures usage { result ≡ Err WordsRefused.Usage → command_of (map string_bytes words.now) ≡ None }
    ensures ranges { IfOk result HasRanges }
{
    let grammar = grammar(alloc)?;
    let matches = grammar.try_get_matches_from(words)?;
    let Some((name, found)) = matches.subcommand() else {
        return Err(WordsRefused::Usage);
    };
    Command::met(name, found).ok_or(WordsRefused::Usage)
}
