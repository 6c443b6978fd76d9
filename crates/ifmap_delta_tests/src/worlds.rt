//! Graphs, and publishes on them.
ghost use Rattle.std.specs.Prelude.{◌≡◌, Some, IfOk, OnOk};
ghost use Rattle.std.specs.List.{AllByRecursion};
ghost use Rattle.ifmap_delta_tests.specs.Worlds.{IsFitting, IsQuiet, IsUnderWay, ShowsSame};
ghost use Rattle.ifmap_graph.specs.Seen.{KeepsNumbers};
ghost use Rattle.ifmap_ident.specs.Canon.{IsIdentifier};
ghost use Rattle.ifmap_graph.specs.ifmap_pool.Holdings.{key_at};
ghost use Rattle.ifmap_requests.specs.Fit.{IsFitOp};

use crate::faults::Fault;
use crate::ops::{Op, read_ops};
use ifmap_elem::Many;
use ifmap_graph::{Draft, Graph, Ready};
use ifmap_ident::Identifier;
use ifmap_io::Moment;
use ifmap_meta::ClientName;
use ifmap_plans::Plan;
use ifmap_publish::laws::publishing_keeps_graphs;
use ifmap_publish::{Author, plan};
use ifmap_publish_tests::publishes::client_of;
use ifmap_requests::PublishOp;
use std::alloc::{AllocError as NoMemory, Global};

// A graph with nothing in it, and the number of an identifier that is held there.
fn new_graph(alloc: Global, id: &Identifier) -> Result<(Graph, u64), NoMemory>
    requires canon { IsIdentifier id.now }
    ensures quiet { IfOk result (λ made. IsQuiet made.0) }
    ensures number { IfOk result (λ made. key_at made.0.names made.1 ≡ Some id.now) }
{
    let mut graph = Graph::new(alloc);
    let number = graph.hold(alloc, id)?;
    Ok((graph, number))
}

fn plan_by(
    alloc: Global,
    graph: &Graph,
    client: &ClientName,
    ops: &Many<PublishOp>,
) -> Result<Plan, Fault>
    requires quiet { IsQuiet graph.now }
    requires ops { AllByRecursion IsFitOp ops.now }
    ensures { IfOk result (IsFitting graph.now) }
{
    publishing_keeps_graphs();
    let _form = client.text();
    graph.is_view();
    let moment = Moment::new(1_000_000_000).ok_or(Fault::Unread)?;
    let author = Author {
        client,
        serial: 7,
        moment,
    };
    Ok(plan(alloc, graph, ops, &author)?)
}

// What these operations of a client change.
pub(crate) fn plan_of(alloc: Global, graph: &Graph, client: &str, ops: &[Op]) -> Result<Plan, Fault>
    requires { IsQuiet graph.now }
    ensures { IfOk result (IsFitting graph.now) }
{
    let client = client_of(alloc, client)?;
    let ops = read_ops(alloc, ops)?;
    plan_by(alloc, graph, &client, &ops)
}

// A change of the graph comes to be out.
pub(crate) fn begin_change(alloc: Global, graph: &mut Graph, plan: Plan) -> Result<Ready, NoMemory>
    requires quiet { IsQuiet graph.old }
    requires fitting { IsFitting graph.old plan }
    ensures way { IfOk result (IsUnderWay graph.new) }
    ensures same { OnOk result (ShowsSame graph.old graph.new) }
{
    let ready = graph.reserve(alloc, plan)?;
    graph.is_view();
    Draft::of(graph).is_view();
    Ok(ready)
}

// A publish of a client.
fn publish(alloc: Global, graph: &mut Graph, client: &str, ops: &[Op]) -> Result<(), Fault>
    requires quiet { IsQuiet graph.old }
    ensures quiet { OnOk result (IsQuiet graph.new) }
    ensures numbers { OnOk result (KeepsNumbers graph.old graph.new) }
{
    let plan = plan_of(alloc, graph, client, ops)?;
    let ready = begin_change(alloc, graph, plan)?;
    graph.commit_kept(ready);
    Ok(())
}

// A graph after a first publish of `c1`, and the number of an identifier.
pub(crate) fn graph_with(alloc: Global, id: &Identifier, ops: &[Op]) -> Result<(Graph, u64), Fault>
    requires canon { IsIdentifier id.now }
    ensures quiet { IfOk result (λ made. IsQuiet made.0) }
    ensures number { IfOk result (λ made. key_at made.0.names made.1 ≡ Some id.now) }
{
    let (mut graph, number) = new_graph(alloc, id)?;
    publish(alloc, &mut graph, "c1", ops)?;
    Ok((graph, number))
}
