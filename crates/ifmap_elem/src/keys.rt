//! Namespaces as the keys of a map.
ghost use Rattle.std.specs.Prelude.{◌≡◌};
ghost use Rattle.std.specs.Cmp.{partial_order_from_own_ties};
ghost use Rattle.std.specs.Cmp.Rules.{comparing};
ghost use Rattle.std.specs.Ordering.{as_partial_cmp};
ghost use Rattle.std.proofs.Common.{rules};
ghost use Rattle.ifmap_elem.specs.printer.Keys.{key_eq, key_order, space_word};

use std::cmp::Ordering;
use std::hash::{FoldHasher, Hasher};
use std::marker::Model;

// A namespace, and a word that mixes its bytes. Keys are compared by the word first, and by the bytes
// where the words are one: namespaces that were chosen to have one word cost no more than texts do.
#[derive(Drop)]
pub(crate) struct Key<'a> {
    word: u64,
    space: &'a [u8],
}

impl<'a> Model for Key<'a> {
    ghost use Rattle.std.specs.Prelude.{◌≡◌, List, ℕ};
    ghost use Rattle.ifmap_elem.specs.printer.Keys.{space_word};

    ghost Value = { List ℕ };

    ghost view = { λ key. key.space.now };

    ghost invariant = { λ key. key.word ≡ space_word key.space.now };
}

impl<'a> Key<'a> {
    pub(crate) fn new(space: &'a [u8]) -> Key<'a>
        ensures { result ≡ space.now }
    {
        Key {
            word: word_of_space(space),
            space,
        }
    }
}

#[tactic(auto, unfolding(crate::specs::printer::Keys::space_word))]
fn word_of_space(space: &[u8]) -> u64
    ensures { result ≡ space_word space.now }
{
    let mut hasher = FoldHasher::default();
    hasher.write(space);
    hasher.finish()
}

impl<'a> PartialEq for Key<'a> {
    ghost eq = { key_eq };

    ghost laws = { Prim.search (comparing, rules) };

    fn eq(&self, other: &Key<'a>) -> bool {
        self.word == other.word && self.space == other.space
    }
}

impl<'a> Eq for Key<'a> {
    ghost laws = { Prim.search (comparing, rules) };
}

// By the words, and where these are one by the bytes.
impl<'a> Ord for Key<'a> {
    ghost cmp = { key_order };

    ghost total = { Prim.search (comparing, rules) };

    ghost matches_partial_cmp = { Prim.search (comparing, rules) };

    ghost matches_eq = { Prim.search (comparing, rules) };

    fn cmp(&self, other: &Key<'a>) -> Ordering {
        match self.word.cmp(&other.word) {
            Ordering::Equal => self.space.cmp(other.space),
            unequal => unequal,
        }
    }
}

impl<'a> PartialOrd for Key<'a> {
    ghost partial_cmp = { as_partial_cmp key_order };

    ghost laws = { partial_order_from_own_ties (Prim.search (comparing, rules))
        (Prim.search (comparing, rules)) };

    fn partial_cmp(&self, other: &Key<'a>) -> Option<Ordering> {
        Some(self.cmp(other))
    }
}
