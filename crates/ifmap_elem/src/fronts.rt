//! What stands at the front of bytes.
ghost use Rattle.std.specs.Prelude.{◌≡◌, ◌++◌, ℕ, List, IfNone, IfSome};

/// What is left of the bytes after the word, where they begin with it.
pub fn after_word<'a>(word: &[u8], bytes: &'a [u8]) -> Option<&'a [u8]>
    ensures found { IfSome result (λ rest. bytes.now ≡ word.now ++ rest.now) }
    ensures none { IfNone result ((rest : List ℕ) → bytes.now ≡ word.now ++ rest → ⊥) }
{
    bytes.strip_prefix(word)
}
