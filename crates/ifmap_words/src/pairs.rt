//! Two words that a command takes.
ghost use Rattle.std.specs.Prelude.{◌≡◌, ◌↔◌, ℕ, List, false, IfNone, IfOk, IfSome, IsTrue, map, string_bytes};
ghost use Rattle.clap.specs.Words.{app_of, found_of, kind_of, rows_of};
ghost use Rattle.clap.specs.declared.builder.command.Command.TheViews.{out-Command};
ghost use Rattle.ifmap_words.specs.Pairs.{HasPair, IsPair, pair_app};

use crate::options::has_option;
use clap::error::ErrorKind;
use clap::{Arg, ArgMatches, Command, Error};
use std::alloc::{AllocError as NoMemory, Global};

const FIRST: &str = "first";

const SECOND: &str = "second";

/// Two words.
#[derive(Clone, Copy, Debug, PartialEq, Eq)]
pub struct Pair<'a> {
    pub first: &'a str,
    pub second: &'a str,
}

/// The words, where they are two and neither begins with a hyphen; `None` exactly where they are
/// not. `name` is the command's, which is told to nobody.
pub fn two_words<'a>(
    alloc: Global,
    name: &'a str,
    words: &'a [String],
) -> Result<Option<Pair<'a>>, NoMemory>
    ensures some { IfOk result (λ found. IfSome found (λ pair.
        IsPair (map string_bytes words.now) pair.first.now pair.second.now)) }
    ensures none { IfOk result (λ found. IfNone found ((x y : List ℕ)
        → IsPair (map string_bytes words.now) x y → ⊥)) }
{
    if has_option(words) {
        return Ok(None);
    }
    match pair_command(alloc, name)?.try_get_matches_from(words) {
        Ok(matches) => Ok(pair_in(&matches)),
        Err(error) if lacks_memory(&error) => Err(NoMemory),
        Err(_) => Ok(None),
    }
}

/// The command of that name that takes two words, both required, and no options.
pub fn pair_command<'a>(alloc: Global, name: &'a str) -> Result<Command<'a>, NoMemory>
    ensures app { IfOk result (λ command. app_of command ≡ pair_app name.now) }
    ensures local { IfOk result (λ command. (out-Command command).has_globals ≡ false) }
{
    Command::new(alloc, name)
        .no_binary_name(true)
        .disable_help_flag(true)
        .arg(Arg::new(alloc, FIRST).required(true))?
        .arg(Arg::new(alloc, SECOND).required(true))
}

/// The two words that the command took. It takes no memory.
pub fn pair_in<'a>(matches: &ArgMatches<'a>) -> Option<Pair<'a>>
    ensures { HasPair (rows_of (found_of matches.now)) result }
{
    let first = matches.get_str(FIRST)?;
    let second = matches.get_str(SECOND)?;
    Some(Pair { first, second })
}

/// The parse failed for want of memory.
pub fn lacks_memory(error: &Error) -> bool
    ensures { IsTrue result ↔ (kind_of error.now ≡ ErrorKind.OutOfMemory) }
{
    error.kind() == ErrorKind::OutOfMemory
}
