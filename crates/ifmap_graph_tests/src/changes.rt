//! Publishes and retractions on a graph, beside a list: each gives what stands then, where the graph showed
//! on the way what the list says.
ghost use Rattle.std.specs.List.{AllByRecursion};
ghost use Rattle.ifmap_requests.specs.Fit.{IsFitOp};

use crate::carrying::{Carried, Course, End};
use crate::comparing::{counts, shows};
use crate::facts::{Fact, client_at, serial_of};
use crate::rules::{Leaver, Op, after_all, after_leaving, copy_of};
use crate::writing::write_ops;
use ifmap_elem::Many;
use ifmap_io::Moment;
use ifmap_meta::ClientName;
use ifmap_publish::{Author, Who};
use ifmap_publish_tests::publishes::{client_of, ops_in};
use ifmap_requests::PublishOp;
use std::alloc::{AllocError as NoMemory, Global};

// Who publishes, in the session of which serial, at which moment.
#[derive(Clone, Copy)]
pub(crate) struct By {
    pub(crate) client: usize,
    pub(crate) serial: u64,
    pub(crate) time: usize,
}

fn publish_as(
    alloc: Global,
    carried: &mut Carried,
    ops: &Many<PublishOp>,
    client: &ClientName,
    by: By,
    course: &Course<'_>,
) -> bool
    requires { AllByRecursion IsFitOp ops.now }
{
    let Some(moment) = Moment::new(1_000_000_000u64.wrapping_add(by.time as u64)) else {
        return false;
    };
    let author = Author {
        client,
        serial: by.serial,
        moment,
    };
    carried.publish(alloc, ops, &author, course)
}

fn publish_ops(
    alloc: Global,
    carried: &mut Carried,
    ops: &Many<PublishOp>,
    by: By,
    course: &Course<'_>,
) -> bool
    requires { AllByRecursion IsFitOp ops.now }
{
    match client_of(alloc, client_at(by.client)) {
        Ok(client) => publish_as(alloc, carried, ops, &client, by, course),
        Err(_) => false,
    }
}

fn publish_text(
    alloc: Global,
    carried: &mut Carried,
    text: &str,
    by: By,
    course: &Course<'_>,
) -> bool {
    match ops_in(alloc, text) {
        Some(ops) => publish_ops(alloc, carried, &ops, by, course),
        None => false,
    }
}

// What is left once a change came to its end.
fn rest_of(alloc: Global, course: &Course<'_>) -> Result<Vec<Fact>, NoMemory> {
    match course.end {
        End::Commit | End::Settle => copy_of(alloc, course.after),
        End::Undo | End::Forget => copy_of(alloc, course.before),
    }
}

// What is left, where the graph shows just that and has nothing beside it.
fn rest_shown(alloc: Global, carried: &Carried, course: &Course<'_>) -> Option<Vec<Fact>> {
    let rest = rest_of(alloc, course).ok()?;
    if counts(&carried.graph, &rest) && shows(alloc, &carried.graph, &rest) {
        Some(rest)
    } else {
        None
    }
}

fn publish_course(
    alloc: Global,
    carried: &mut Carried,
    ops: &[Op],
    by: By,
    course: &Course<'_>,
) -> Option<Vec<Fact>> {
    let text = write_ops(alloc, ops).ok()?;
    if publish_text(alloc, carried, text.as_str(), by, course) {
        rest_shown(alloc, &*carried, course)
    } else {
        None
    }
}

// A publish.
pub(crate) fn publish(
    alloc: Global,
    carried: &mut Carried,
    before: &[Fact],
    ops: &[Op],
    by: By,
    end: End,
) -> Option<Vec<Fact>> {
    let after = after_all(alloc, before, ops).ok()?;
    let course = Course {
        end,
        before,
        after: &after,
    };
    publish_course(alloc, carried, ops, by, &course)
}

fn serials_of(alloc: Global, serial: u64) -> Result<Many<u64>, NoMemory> {
    let mut list = Vec::new(alloc);
    list.push(serial)?;
    Ok(Many(list))
}

fn who_of(alloc: Global, leaver: Leaver) -> Result<Who, NoMemory> {
    match leaver {
        Leaver::Session(client) => Ok(Who::Sessions(serials_of(alloc, serial_of(client))?)),
        Leaver::Client(client) => Ok(Who::Publisher(client_of(alloc, client_at(client))?)),
    }
}

fn retract_course(
    alloc: Global,
    carried: &mut Carried,
    leaver: Leaver,
    course: &Course<'_>,
) -> Option<Vec<Fact>> {
    let who = who_of(alloc, leaver).ok()?;
    if carried.retract(alloc, &who, course) {
        rest_shown(alloc, &*carried, course)
    } else {
        None
    }
}

// A retraction.
pub(crate) fn retract(
    alloc: Global,
    carried: &mut Carried,
    before: &[Fact],
    leaver: Leaver,
    end: End,
) -> Option<Vec<Fact>> {
    let after = after_leaving(alloc, before, leaver).ok()?;
    let course = Course {
        end,
        before,
        after: &after,
    };
    retract_course(alloc, carried, leaver, &course)
}
