//! What the tests make their cases of.
ghost use Rattle.std.specs.Prelude.{◌<◌};

use ifmap_elem::{Element, Text};
use ifmap_io::Moment;
use ifmap_meta::{ClientName, Life, Metadata};
use ifmap_reader::read;
use ifmap_rows::Rows;
use ifmap_view::Row;
use std::alloc::{AllocError as NoMemory, Global};

fn element_with(alloc: Global, text: &str) -> Option<Element> {
    let document = format!(in alloc; "<x ifmap-cardinality='multiValue'>{text}</x>").ok()?;
    Some(read(alloc, document.as_bytes(), 64).ok()?.root)
}

// What is stored of an element with this text, of which an item can carry many, where the client `c1`
// publishes it a billion seconds after 1970 began.
pub(crate) fn row_with(alloc: Global, text: &str) -> Option<Row> {
    let metadata = Metadata::from_element(alloc, element_with(alloc, text)?).ok()?;
    let client = ClientName::new(Text::from_str(alloc, "c1").ok()?)?;
    let moment = Moment::new(1_000_000_000)?;
    let stored = metadata.stamp(alloc, &client, moment, Life::Forever).ok()?;
    Row::new(alloc, stored).ok()
}

// The row with a number of four digits.
fn numbered_row(alloc: Global, number: u32) -> Option<Row> {
    let text = format!(in alloc; "{}", 10_000 + number % 10_000).ok()?;
    row_with(alloc, text.as_str())
}

// Rows with the multiples of a number below another, in the order of their bytes.
pub(crate) fn numbered_rows(alloc: Global, end: u32, step: u32) -> Option<Vec<Row>>
    requires { 0 < step }
{
    let mut rows = Vec::new(alloc);
    for number in 0..end {
        if number % step == 0 {
            rows.push(numbered_row(alloc, number)?).ok()?;
        }
    }
    Some(rows)
}

// Rows on an item on which there were none.
pub(crate) fn rows_of(alloc: Global, added: &[Row]) -> Result<Rows, NoMemory> {
    let mut rows = Rows::new(alloc);
    rows.carry_out(&[], added)?;
    Ok(rows)
}
