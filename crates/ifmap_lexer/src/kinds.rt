//! Which kind of token bytes can begin.
ghost use Rattle.std.specs.Prelude.{◌≡◌};
ghost use Rattle.ifmap_elem.specs.Kinds.{kind_at, kind_of_markup, kind_of_section};

use ifmap_elem::tokens::TokenKind;

// The kind of any token that stands at the front.
pub(crate) fn kind_at(bytes: &[u8]) -> TokenKind
    ensures { result ≡ kind_at bytes.now }
{
    match bytes {
        [b'<', rest @ ..] => kind_of_markup(rest),
        [] => TokenKind::Nothing,
        _ => TokenKind::Text,
    }
}

// The kind by what is after a `<`.
fn kind_of_markup(bytes: &[u8]) -> TokenKind
    ensures { result ≡ kind_of_markup bytes.now }
{
    match bytes {
        [b'?', ..] => TokenKind::Declaration,
        [b'/', ..] => TokenKind::End,
        [b'!', rest @ ..] => kind_of_section(rest),
        [] => TokenKind::Nothing,
        _ => TokenKind::Tag,
    }
}

// The kind by what is after a `<!`.
fn kind_of_section(bytes: &[u8]) -> TokenKind
    ensures { result ≡ kind_of_section bytes.now }
{
    match bytes {
        [b'-', ..] => TokenKind::Comment,
        [b'[', ..] => TokenKind::Section,
        _ => TokenKind::Nothing,
    }
}
