//! Laws on the lines of a client's script: functions that do nothing, whose contracts are the laws.
ghost use Rattle.ifmap_client.specs.Lines.{OneLine};

use ifmap_elem::laws::bytes_spell_one_element;
use ifmap_requests::laws::elements_have_one_request_or_code;

/// A line means one thing.
pub fn lines_mean_one_thing()
    ensures { OneLine }
{
    bytes_spell_one_element();
    elements_have_one_request_or_code();
}
