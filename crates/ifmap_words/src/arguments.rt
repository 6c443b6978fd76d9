//! The words that the system gives a program.
ghost use Rattle.std.specs.Prelude.{◌≡◌, [], drop, IfErr, IfOk};
ghost use Rattle.std.specs.Vec.Iter.{into_iter_items};

use std::alloc::{AllocError as NoMemory, Global};
use std::env::Args;
use std::io;
use std::io::ErrorKind;

/// The words after the program's name. Words that are no text are taken as no words, which no
/// program here takes.
pub fn words_of(alloc: Global, args: io::Result<Args>) -> Result<Vec<String>, NoMemory>
    ensures some { IfOk args (λ all. IfOk result (λ words.
        words.items ≡ drop 1 (into_iter_items all))) }
    ensures none { IfErr args (λ _. IfOk result (λ words. words.items ≡ [])) }
{
    match args {
        Ok(args) => args.skip(1).collect(alloc),
        Err(error) if error.kind() == ErrorKind::OutOfMemory => Err(NoMemory),
        Err(_) => Ok(Vec::new(alloc)),
    }
}
