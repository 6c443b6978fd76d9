//! The words as `clap` reads them.
ghost use Rattle.std.specs.Prelude.{◌≡◌, ℕ, IfOk, List, map, string_bytes};
ghost use Rattle.clap.specs.Words.{app_of, subcommand_rows_of};
ghost use Rattle.ifmap_command.specs.Commands.{FindsCommand, NamesCommand, command_app};
ghost use Rattle.ifmap_command.specs.Words.{Asks};

use crate::forms::{Form, drill_form, serve_form};
use clap::{ArgMatches, Command};
use ifmap_words::has_option;
use ifmap_words::pairs::{Pair, lacks_memory, pair_command, pair_in};
use std::alloc::{AllocError as NoMemory, Global};

const REPLAY: &str = "replay";

const DRILL: &str = "drill";

const SERVE: &str = "serve";

// The form of the words.
pub(crate) fn read_words<'a>(alloc: Global, words: &'a [String]) -> Result<Form, NoMemory>
    ensures { IfOk result (Asks (map string_bytes words.now)) }
{
    if has_option(words) {
        return Ok(Form::Wrong);
    }
    match mapd_command(alloc)?.try_get_matches_from(words) {
        Ok(matches) => form_in(alloc, &matches),
        Err(error) if lacks_memory(&error) => Err(NoMemory),
        Err(_) => Ok(Form::Wrong),
    }
}

// The command: one of three subcommands, and no options.
fn mapd_command<'a>(alloc: Global) -> Result<Command<'a>, NoMemory>
    ensures { IfOk result (λ command. app_of command ≡ command_app) }
{
    Command::new(alloc, "mapd")
        .no_binary_name(true)
        .disable_help_flag(true)
        .disable_help_subcommand(true)
        .subcommand_required(true)
        .subcommand(Command::new(alloc, REPLAY))?
        .subcommand(pair_command(alloc, DRILL)?)?
        .subcommand(pair_command(alloc, SERVE)?)
}

// What the subcommand that was met asks for.
fn form_in(alloc: Global, matches: &ArgMatches<'_>) -> Result<Form, NoMemory>
    ensures { IfOk result (λ form. (words : List (List ℕ))
        → FindsCommand words (subcommand_rows_of matches.now) → Asks words form) }
{
    let Some((name, given)) = matches.subcommand() else {
        return Ok(Form::Wrong);
    };
    form_named(alloc, name, pair_in(given))
}

// What a name and the two words after it, where there are two, ask for.
fn form_named(alloc: Global, name: &str, pair: Option<Pair<'_>>) -> Result<Form, NoMemory>
    ensures { IfOk result (λ form. (words : List (List ℕ))
        → NamesCommand words name.now pair.entry → Asks words form) }
{
    if name == REPLAY {
        return Ok(Form::Replay);
    }
    let Some(pair) = pair else {
        return Ok(Form::Wrong);
    };
    if name == DRILL {
        return Ok(drill_form(pair.first, pair.second));
    }
    serve_form(alloc, pair.first, pair.second)
}
