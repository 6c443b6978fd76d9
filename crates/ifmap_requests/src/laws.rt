//! Laws on messages: functions that do nothing, whose contracts are the laws.
ghost use Rattle.ifmap_requests.specs.Laws.{FitMeaning, OneMeaning, OneRequest, RequestOrCode, SomeMeaning};

use ifmap_elem::laws::bytes_spell_one_element;
use ifmap_envelopes::laws::{elements_are_envelopes_or_none, envelopes_hold_one_element};
use ifmap_forms::{text_is_filter_or_stops, text_is_one_filter};
use ifmap_ident::laws::elements_have_one_answer;
use ifmap_ident::{bytes_spell_an_element_or_none, what_bytes_declare_fits, what_bytes_spell_fits};
use ifmap_meta::laws::stamped_metadata_are_whole;

/// In given scopes an element has one request or one code, and not both; and an element that a
/// document can have has one of them.
pub fn elements_have_one_request_or_code()
    ensures one { OneRequest }
    ensures some { RequestOrCode }
{
    text_is_one_filter();
    text_is_filter_or_stops();
    elements_have_one_answer();
}

/// A body means one thing at most: a request, a code, or that it is no envelope.
pub fn bodies_have_one_meaning()
    ensures { OneMeaning }
{
    elements_have_one_request_or_code();
    bytes_spell_one_element();
    envelopes_hold_one_element();
}

/// A body means something: a request, a code, or that it is no envelope.
pub fn bodies_mean_something()
    ensures { SomeMeaning }
{
    elements_have_one_request_or_code();
    bytes_spell_one_element();
    bytes_spell_an_element_or_none();
    what_bytes_spell_fits();
    elements_are_envelopes_or_none();
}

/// A request that a body means has texts of characters, identifiers and items that elements of a
/// document are, metadata that can be published, filters that ask for what a document can have and
/// can be printed, and a limit within its range.
pub fn bodies_mean_fit_requests()
    ensures { FitMeaning }
{
    what_bytes_spell_fits();
    what_bytes_declare_fits();
    stamped_metadata_are_whole();
}
