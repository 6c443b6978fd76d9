//! A graph between changes, and changes of it.
ghost use Rattle.std.specs.Prelude.{◌≡◌, ◌<◌, IfSome, MatchOption};
ghost use Rattle.std.specs.List.{AllByRecursion};
ghost use Rattle.ifmap_graph.specs.Seen.{rows_now};
ghost use Rattle.ifmap_plans.specs.Plans.{Fits};
ghost use Rattle.ifmap_requests.specs.Fit.{IsFitOp};
ghost use Rattle.ifmap_graph_tests.specs.Steady.{IsBegunWhole, IsMadeWhole, IsStillWhole};

use crate::comparing::shows;
use crate::facts::Fact;
use ifmap_elem::Many;
use ifmap_graph::{Draft, Graph, Ready, Undo};
use ifmap_plans::Plan;
use ifmap_publish::{Author, Who, plan, retract};
use ifmap_requests::PublishOp;
use ifmap_steps::Steps;
use std::alloc::Global;
use std::marker::{Brand, Model};
use std::sync::ledger::{Blank, Ledger};

// How a change that is out comes to its end.
#[derive(Clone, Copy)]
pub(crate) enum End {
    Commit,
    Settle,
    Undo,
    Forget,
}

// How a change comes to its end, what stands before it, and what after it.
#[derive(Drop)]
pub(crate) struct Course<'a> {
    pub(crate) end: End,
    pub(crate) before: &'a [Fact],
    pub(crate) after: &'a [Fact],
}

// A graph on which nothing is out. Contracts see the graph.
#[derive(Drop)]
pub(crate) struct Carried {
    pub(crate) graph: Graph,
}

impl Model for Carried {
    ghost use Rattle.ifmap_ident.specs.contracts.identifiers.Identifier as the_identifier;
    ghost use Rattle.ifmap_ident.specs.contracts.items.Item as the_item;
    ghost use Rattle.ifmap_view.specs.contracts.views.LinkSeen as the_link;
    ghost use Rattle.ifmap_graph.specs.contracts.shelves.Shelf as the_shelf;
    ghost use Rattle.ifmap_graph.specs.Inside.{GraphInside, inside_code};
    ghost use Rattle.ifmap_graph_tests.specs.Steady.{IsStillWhole};

    ghost Value = { GraphInside };

    ghost coded = { inside_code the_item.the_row.coded the_shelf.the_row.coded
        the_identifier.the_row.coded the_link.the_row.coded };

    ghost view = { λ c. c.graph };

    ghost invariant = { λ c. IsStillWhole c.graph };
}

// What a publish changes.
fn plan_ops(alloc: Global, graph: &Graph, ops: &Many<PublishOp>, author: &Author) -> Option<Plan>
    requires steady { IsStillWhole graph.now }
    requires fit { AllByRecursion IsFitOp ops.now }
    ensures { IfSome result (λ plan. Fits (rows_now graph.now) plan.changes) }
{
    graph.is_view();
    plan(alloc, graph, ops, author).ok()
}

// What a retraction changes.
fn plan_with<L: Ledger>(alloc: Global, graph: &Graph, who: &Who, blank: Blank) -> Option<Plan>
    requires steady { IsStillWhole graph.now }
    requires name { blank.name ≡ L.name }
    requires parts { blank.parts ≡ L.parts }
    requires some { 0 < blank.parts }
    ensures { IfSome result (λ plan. Fits (rows_now graph.now) plan.changes) }
{
    let mut steps: Steps<L> = Steps::from_blank(blank);
    graph.is_view();
    retract(alloc, graph, who, &mut steps).ok()
}

fn plan_retraction(alloc: Global, graph: &Graph, who: &Who) -> Option<Plan>
    requires { IsStillWhole graph.now }
    ensures { IfSome result (λ plan. Fits (rows_now graph.now) plan.changes) }
{
    plan_with::<Brand>(alloc, graph, who, Blank::new(1))
}

// A change comes to be out.
fn begin(alloc: Global, graph: &mut Graph, plan: Plan) -> Option<Ready>
    requires steady { IsStillWhole graph.old }
    requires fits { Fits (rows_now graph.old) plan.changes }
    ensures { MatchOption result (IsStillWhole graph.new) (λ ready. IsBegunWhole ready graph.new) }
{
    match graph.reserve(alloc, plan) {
        Ok(ready) => Some(ready),
        Err(_) => None,
    }
}

// It is made, with a way back.
fn make(graph: &mut Graph, ready: Ready) -> Undo
    requires { IsBegunWhole ready graph.old }
    ensures { IsMadeWhole result graph.new }
{
    graph.commit_kept(ready)
}

fn commit(graph: &mut Graph, ready: Ready)
    requires { IsBegunWhole ready graph.old }
    ensures { IsStillWhole graph.new }
{
    let _plan = graph.commit(ready);
}

fn settle(graph: &mut Graph, undo: Undo)
    requires { IsMadeWhole undo graph.old }
    ensures { IsStillWhole graph.new }
{
    let _plan = graph.settle(undo);
}

fn take_back(graph: &mut Graph, undo: Undo)
    requires { IsMadeWhole undo graph.old }
    ensures { IsStillWhole graph.new }
{
    graph.undo(undo);
}

fn give_up(graph: &mut Graph, ready: Ready)
    requires { IsBegunWhole ready graph.old }
    ensures { IsStillWhole graph.new }
{
    graph.forget(ready);
}

// It is made, and stays.
fn make_for_good(alloc: Global, graph: &mut Graph, ready: Ready, after: &[Fact]) -> bool
    requires { IsBegunWhole ready graph.old }
    ensures { IsStillWhole graph.new }
{
    let undo = make(graph, ready);
    let shown = shows(alloc, &*graph, after);
    settle(graph, undo);
    shown
}

// It is made, and taken back.
fn make_for_now(alloc: Global, graph: &mut Graph, ready: Ready, after: &[Fact]) -> bool
    requires { IsBegunWhole ready graph.old }
    ensures { IsStillWhole graph.new }
{
    let undo = make(graph, ready);
    let shown = shows(alloc, &*graph, after);
    take_back(graph, undo);
    shown
}

// It comes to its end: whether the graph shows what is wanted where it is made with a way back.
fn finish(alloc: Global, graph: &mut Graph, ready: Ready, course: &Course<'_>) -> bool
    requires { IsBegunWhole ready graph.old }
    ensures { IsStillWhole graph.new }
{
    match course.end {
        End::Commit => {
            commit(graph, ready);
            true
        }
        End::Settle => make_for_good(alloc, graph, ready, course.after),
        End::Undo => make_for_now(alloc, graph, ready, course.after),
        End::Forget => {
            give_up(graph, ready);
            true
        }
    }
}

// Whether a graph shows what stands before a change that is out, and its draft what stands after it.
fn shows_both(alloc: Global, graph: &Graph, course: &Course<'_>) -> bool {
    let draft = Draft::of(graph);
    shows(alloc, graph, course.before) && shows(alloc, &draft, course.after)
}

// A change, to its end: whether all that is shown on the way is what is wanted.
fn carry_out(alloc: Global, graph: &mut Graph, plan: Plan, course: &Course<'_>) -> bool
    requires steady { IsStillWhole graph.old }
    requires fits { Fits (rows_now graph.old) plan.changes }
    ensures { IsStillWhole graph.new }
{
    match begin(alloc, graph, plan) {
        Some(ready) => {
            let shown = shows_both(alloc, &*graph, course);
            finish(alloc, graph, ready, course) && shown
        }
        None => false,
    }
}

fn publish_in(
    alloc: Global,
    graph: &mut Graph,
    ops: &Many<PublishOp>,
    author: &Author,
    course: &Course<'_>,
) -> bool
    requires steady { IsStillWhole graph.old }
    requires fit { AllByRecursion IsFitOp ops.now }
    ensures { IsStillWhole graph.new }
{
    match plan_ops(alloc, &*graph, ops, author) {
        Some(plan) => carry_out(alloc, graph, plan, course),
        None => false,
    }
}

fn retract_in(alloc: Global, graph: &mut Graph, who: &Who, course: &Course<'_>) -> bool
    requires { IsStillWhole graph.old }
    ensures { IsStillWhole graph.new }
{
    match plan_retraction(alloc, &*graph, who) {
        Some(plan) => carry_out(alloc, graph, plan, course),
        None => false,
    }
}

impl Carried {
    pub(crate) fn new(alloc: Global) -> Carried {
        Carried {
            graph: Graph::new(alloc),
        }
    }

    // A publish, to its end: whether all that is shown on the way is what is wanted.
    pub(crate) fn publish(
        &mut self,
        alloc: Global,
        ops: &Many<PublishOp>,
        author: &Author,
        course: &Course<'_>,
    ) -> bool
        requires { AllByRecursion IsFitOp ops.now }
    {
        publish_in(alloc, &mut self.graph, ops, author, course)
    }

    // A retraction, to its end.
    pub(crate) fn retract(&mut self, alloc: Global, who: &Who, course: &Course<'_>) -> bool {
        retract_in(alloc, &mut self.graph, who, course)
    }
}
