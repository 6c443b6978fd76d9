//! Operations of publishes, as the tests name them.
ghost use Rattle.std.specs.Prelude.{IfOk};
ghost use Rattle.std.specs.List.{AllByRecursion};
ghost use Rattle.ifmap_requests.specs.Fit.{IsFitOp};

use crate::faults::Fault;
use ifmap_elem::Many;
use ifmap_fresh_tests::places::Place;
use ifmap_publish_tests::publishes::ops_in;
use ifmap_requests::PublishOp;
use std::alloc::{AllocError as NoMemory, Global};

// What an operation does.
#[derive(Clone, Copy)]
pub(crate) enum Deed {
    // puts an element of which there may be several
    Put,
    // puts one that stays beyond its session
    PutForever,
    // puts one that takes the place of another
    PutSingle,
    // takes what has the name
    Take,
    // takes all
    TakeAll,
}

// An operation: what it does, on which place, and the name and the text of its element. An address is by
// its last digit; 7 to 9 are devices.
#[derive(Clone, Copy)]
pub(crate) struct Op(
    pub(crate) Deed,
    pub(crate) Place,
    pub(crate) &'static str,
    pub(crate) &'static str,
);

fn push_identifier(alloc: Global, out: &mut String, number: u8) -> Result<(), NoMemory> {
    let text = if number < 7 {
        format!(in alloc; "<mac-address value='00:00:5e:00:53:0{number}'/>")?
    } else {
        format!(in alloc; "<device><name>{number}</name></device>")?
    };
    out.push_str(text.as_str())
}

fn push_place(alloc: Global, out: &mut String, place: Place) -> Result<(), NoMemory> {
    match place {
        Place::At(number) => push_identifier(alloc, out, number),
        Place::Link(one, other) => {
            push_identifier(alloc, out, one)?;
            push_identifier(alloc, out, other)
        }
    }
}

fn push_metadata(
    alloc: Global,
    out: &mut String,
    op: &Op,
    cardinality: &str,
) -> Result<(), NoMemory> {
    let name = op.2;
    let text = op.3;
    let metadata = format!(in alloc;
        "<metadata><u:{name} ifmap-cardinality='{cardinality}'>{text}</u:{name}></metadata>"
    )?;
    out.push_str(metadata.as_str())
}

// An operation that brings an element.
fn push_bringing(
    alloc: Global,
    out: &mut String,
    op: &Op,
    (start, end): (&str, &str),
    cardinality: &str,
) -> Result<(), NoMemory> {
    out.push_str(start)?;
    push_place(alloc, out, op.1)?;
    push_metadata(alloc, out, op, cardinality)?;
    out.push_str(end)
}

fn push_delete(alloc: Global, out: &mut String, place: Place, start: &str) -> Result<(), NoMemory> {
    out.push_str(start)?;
    push_place(alloc, out, place)?;
    out.push_str("</delete>")
}

fn push_op(alloc: Global, out: &mut String, op: &Op) -> Result<(), NoMemory> {
    match op.0 {
        Deed::Put => push_bringing(alloc, out, op, ("<update>", "</update>"), "multiValue"),
        Deed::PutForever => push_bringing(
            alloc,
            out,
            op,
            ("<update lifetime='forever'>", "</update>"),
            "multiValue",
        ),
        Deed::PutSingle => push_bringing(alloc, out, op, ("<update>", "</update>"), "singleValue"),
        Deed::TakeAll => push_delete(alloc, out, op.1, "<delete>"),
        Deed::Take => {
            let start = format!(in alloc; "<delete filter='u:{}'>", op.2)?;
            push_delete(alloc, out, op.1, start.as_str())
        }
    }
}

fn text_of(alloc: Global, ops: &[Op]) -> Result<String, NoMemory> {
    let mut text = String::new(alloc);
    for op in ops {
        push_op(alloc, &mut text, op)?;
    }
    Ok(text)
}

// The operations as a publish has them.
pub(crate) fn read_ops(alloc: Global, ops: &[Op]) -> Result<Many<PublishOp>, Fault>
    ensures { IfOk result (AllByRecursion IsFitOp) }
{
    let text = text_of(alloc, ops)?;
    ops_in(alloc, text.as_str()).ok_or(Fault::Unread)
}
