//! White space: what stands between elements and means nothing there.
ghost use Rattle.std.specs.Prelude.{◌≡◌};
ghost use Rattle.std.specs.List.{list_all};
ghost use Rattle.ifmap_elem.specs.Chars.{is_white};
ghost use Rattle.ifmap_elem.specs.WhiteSpace.{is_blank};

use crate::elements::Child;

/// Whether the child is a text of white space alone.
pub fn is_blank(child: &Child) -> bool
    ensures { result ≡ is_blank child.now }
{
    match child {
        Child::Element(_) => false,
        Child::Text(text) => is_white_alone(text.as_bytes()),
    }
}

/// Whether all these bytes are white space, or there is none.
pub fn is_white_alone(bytes: &[u8]) -> bool
    ensures { result ≡ list_all is_white bytes.now }
{
    bytes.iter().all(|byte| is_white(*byte))
}

/// Whether the byte is white space (XML 1.0, section 2.3).
#[inline(always)]
pub fn is_white(byte: u8) -> bool
    ensures { result ≡ is_white byte }
{
    matches!(byte, b' ' | b'\t' | b'\r' | b'\n')
}
