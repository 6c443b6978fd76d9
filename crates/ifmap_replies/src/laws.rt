//! Laws on replies: functions that do nothing, whose contracts are the laws.
ghost use Rattle.ifmap_replies.specs.Laws.{BytesReadBack, ElementsReadBack, NoReplyWithDefect, OneReplyMeaning, OneReply, ReplyOrNone};

use ifmap_elem::laws::{bytes_spell_one_element, canonical_bytes_spell_the_element};
use ifmap_envelopes::laws::envelopes_hold_one_element;
use ifmap_ident::laws::{
    bytes_tell_identifiers_apart, elements_have_one_answer, identifiers_are_read_back,
};

/// An element means one reply at most, and none where its response has a defect.
pub fn elements_have_one_reply()
    ensures one { OneReply }
    ensures none { NoReplyWithDefect }
{
    elements_have_one_answer();
    envelopes_hold_one_element();
}

/// An envelope means a reply or none.
pub fn envelopes_mean_a_reply_or_none()
    ensures { ReplyOrNone }
{
    elements_have_one_answer();
    elements_have_one_reply();
}

/// A body means one reply at most.
pub fn bodies_have_one_meaning()
    ensures { OneReplyMeaning }
{
    elements_have_one_reply();
    bytes_spell_one_element();
}

/// What is written for a reply that is fit means it: its element, and its bytes.
pub fn replies_are_read_back()
    ensures elements { ElementsReadBack }
    ensures bytes { BytesReadBack }
{
    identifiers_are_read_back();
    bytes_tell_identifiers_apart();
    canonical_bytes_spell_the_element();
}
