//! Laws on the tokens at the front of bytes: functions that do nothing, whose contracts are the laws.
ghost use Rattle.std.specs.Prelude.{◌<◌, ℕ, length, List};
ghost use Rattle.ifmap_lemmas.specs.Deciding.{Decided};
ghost use Rattle.ifmap_elem.specs.Tokens.{TakesToken};
ghost use Rattle.ifmap_elem.specs.declared.tokens.Token.{Token};

/// At the front of bytes stands a token, or none does; and a token takes some bytes.
pub fn token_stands_or_none()
    ensures decided { (bytes : List ℕ) →
        Decided ((t : Token) × (rest : List ℕ) × TakesToken bytes t rest) }
    ensures some_bytes { (bytes : List ℕ) (t : Token) (rest : List ℕ) →
        TakesToken bytes t rest → length rest < length bytes }
{}
