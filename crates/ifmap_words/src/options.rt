//! Words that are options.
ghost use Rattle.std.specs.Prelude.{◌≡◌, string_bytes};
ghost use Rattle.std.specs.List.{list_any};
ghost use Rattle.ifmap_words.specs.Options.{is_option};

/// One of the words begins with a hyphen. It takes no memory.
pub fn has_option(words: &[String]) -> bool
    ensures { result ≡ list_any (λ word. is_option (string_bytes word)) words.now }
{
    words.iter().any(|word| is_option(word.as_str()))
}

fn is_option(word: &str) -> bool
    ensures { result ≡ is_option word.now }
{
    matches!(word.as_bytes(), [b'-', ..])
}
