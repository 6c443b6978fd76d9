//! What the text of a filter is cut into.
use ifmap_elem::Text;
use ifmap_elem::tokens::Qualified;

/// A token by what it means.
#[derive(Debug, Drop)]
pub enum FilterToken {
    /// `*`, which asks for any name.
    Any,
    OpenBracket,
    CloseBracket,
    OpenParenthesis,
    CloseParenthesis,
    EqualsSign,
    At,
    /// A qualified name, `or` and `and` among them.
    Name(Qualified),
    /// The characters between two quotes.
    Literal(Text),
}
