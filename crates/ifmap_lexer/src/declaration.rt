//! The XML declaration.
ghost use Rattle.std.specs.Prelude.{◌↔◌, ℕ, List, codes, IfNone, IfSome, IsTrue};
ghost use Rattle.ifmap_elem.specs.Tokens.{TakesDeclaration};
ghost use Rattle.ifmap_lexer.specs.There.{NoneLeaves, NotSet};
ghost use Rattle.ifmap_lexer.specs.Settings.{IsEncoding, IsXmlVersion, IsYesOrNo, SetsTo, SetsVersion, StartsNotWhite, TakesWhereSet};
ghost use Rattle.ifmap_elem.specs.Tokens.{TakesSetting};

use crate::quoting::quoted_value;
use crate::splitting::split_white;
use ifmap_elem::fronts::after_word;

// What is after the declaration at the front.
pub(crate) fn after_declaration(bytes: &[u8]) -> Option<&[u8]>
    ensures found { IfSome result (λ rest. TakesDeclaration bytes.now rest.now) }
    ensures none { IfNone result (NoneLeaves (TakesDeclaration bytes.now)) }
{
    let Some(first) = after_word(b"<?xml", bytes) else {
        return None;
    };
    let Some(second) = after_version(first) else {
        return None;
    };
    let third = after_encoding(second);
    let fourth = after_standalone(third);
    let (_white, end) = split_white(fourth);
    after_word(b"?>", end)
}

// What is after the version, where it is 1.0.
fn after_version(bytes: &[u8]) -> Option<&[u8]>
    ensures found { IfSome result (λ rest. SetsVersion bytes.now rest.now) }
    ensures none { IfNone result (NoneLeaves (SetsVersion bytes.now)) }
{
    let Some((written, rest)) = value_of_setting(b"version", bytes) else {
        return None;
    };
    if written == b"1.0".as_slice() {
        Some(rest)
    } else {
        None
    }
}

// What is after the encoding, where it stands here and is UTF-8.
fn after_encoding(bytes: &[u8]) -> &[u8]
    ensures { TakesWhereSet (codes "encoding") IsEncoding bytes.now result.now }
{
    let Some((written, rest)) = value_of_setting(b"encoding", bytes) else {
        return bytes;
    };
    if written.eq_ignore_ascii_case(b"utf-8") {
        rest
    } else {
        bytes
    }
}

// What is after whether the document stands alone, where that stands here.
fn after_standalone(bytes: &[u8]) -> &[u8]
    ensures { TakesWhereSet (codes "standalone") IsYesOrNo bytes.now result.now }
{
    let Some((written, rest)) = value_of_setting(b"standalone", bytes) else {
        return bytes;
    };
    if is_yes_or_no(written) { rest } else { bytes }
}

fn is_yes_or_no(written: &[u8]) -> bool
    ensures { IsTrue result ↔ IsYesOrNo written.now }
{
    written == b"yes".as_slice() || written == b"no".as_slice()
}

// The value that the name is given here, as it is written, and what is left.
fn value_of_setting<'a>(name: &[u8], bytes: &'a [u8]) -> Option<(&'a [u8], &'a [u8])>
    requires { StartsNotWhite name.now }
    ensures found { IfSome result (λ f. SetsTo name.now bytes.now f.0.now f.1.now) }
    ensures none { IfNone result (NotSet name.now bytes.now) }
{
    let (white, inner) = split_white(bytes);
    if white.is_empty() {
        return None;
    }
    let Some(after) = after_word(name, inner) else {
        return None;
    };
    quoted_value(after)
}
