//! What the bytes of a document are cut into.
use crate::lists::Many;
use crate::texts::Text;

/// A qualified name as it is written: the prefix, which is empty where there is none, and the local
/// part.
#[derive(Debug, Drop)]
pub struct Qualified {
    pub prefix: Text,
    pub local: Text,
}

/// What stands in a tag: a name and the value that it is given.
#[derive(Debug, Drop)]
pub struct Assignment {
    pub name: Qualified,
    pub value: Text,
}

/// A start tag or an empty tag.
#[derive(Debug, Drop)]
pub struct Tag {
    pub name: Qualified,
    pub assignments: Many<Assignment>,
}

/// The kinds of tokens that their first bytes tell apart.
#[derive(Clone, Copy, Debug, PartialEq, Eq)]
pub enum TokenKind {
    /// No token begins so.
    Nothing,
    Text,
    Declaration,
    End,
    /// A start tag or an empty tag.
    Tag,
    Comment,
    Section,
}

/// A token by what it means. Of characters it is told whether their own bytes are white space alone,
/// and the text that they mean.
#[derive(Debug, Drop)]
pub enum Token {
    Declaration,
    Comment,
    Start(Tag),
    Empty(Tag),
    End(Qualified),
    Section(Text),
    Characters { blank: bool, text: Text },
}
