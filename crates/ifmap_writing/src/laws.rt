//! Laws on requests that are written: functions that do nothing, whose contracts are the laws.
ghost use Rattle.ifmap_writing.specs.Laws.{FitIsReadBack, MeantIsBounded, WrittenIsAnswered, WrittenIsReadBack};

use ifmap_elem::laws::written_bytes_spell_the_element;
use ifmap_filter::laws::{listed_spaces_serve_each_filter, printed_filter_is_parsed_back};
use ifmap_ident::laws::identifiers_are_read_back;
use ifmap_meta::laws::metadata_are_made_of_their_element;
use ifmap_requests::laws::{bodies_have_one_meaning, bodies_mean_fit_requests};

/// The bytes that are written of a request which some body means are a body that means it, and
/// `read_request` answers that request to them, unless there is want of memory. So do the bytes of
/// each request mean it that is fit and within the bounds of what can be read; and a request that a
/// body means is within them.
pub fn requests_are_read_back()
    ensures written { WrittenIsReadBack }
    ensures answered { WrittenIsAnswered }
    ensures fit { FitIsReadBack }
    ensures bounded { MeantIsBounded }
{
    identifiers_are_read_back();
    metadata_are_made_of_their_element();
    printed_filter_is_parsed_back();
    listed_spaces_serve_each_filter();
    written_bytes_spell_the_element();
    bodies_mean_fit_requests();
    bodies_have_one_meaning();
}
