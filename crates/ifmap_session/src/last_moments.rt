//! Last moments by place, of which the least is known at once. They stand in the second half of a slice;
//! in the first half stands at each node from 1 on the lesser of what stands at its two children,
//! so that one last moment is changed by a walk to the root.
ghost use Rattle.std.specs.Prelude.{◌≡◌, ◌⊎◌, ℕ, ◌+◌, ◌*◌, ◌≤◌, ◌<◌, ◌∷◌, ◌++◌, [], All, IfOk, OnOk, filter, length, min};
ghost use Rattle.ifmap_session.specs.LastMoments.{IsPower, IsTree, SetsLastMoment, node_value, children_of, due_nodes, is_any_due, is_due, width_bound};
ghost use Rattle.ifmap_session.specs.Sessions.{most_sessions};

use std::alloc::{AllocError as NoMemory, Global};

/// The last moment of a place that has none, which no moment reaches.
pub const NO_MOMENT: u64 = u64::MAX;

/// For how many places there are to be last moments where those of this width do not serve: twice as many
/// where more than half of them are taken, and 64 at least.
#[tactic(auto, using(crate::proofs::Trees::power_again, crate::proofs::Trees::first_power, crate::proofs::LastMomentLaws::is_power))]
pub fn next_width(width: usize, live: usize) -> usize
    requires power { (width ≡ 0) ⊎ IsPower width }
    requires live { live ≤ width }
    requires most { live ≤ most_sessions }
    requires few { width < width_bound }
    ensures power { IsPower result }
    ensures few { result < width_bound }
    ensures wide { live < result }
    ensures more { width ≤ result }
{
    if width == 0 {
        64
    } else if width < 2 * live {
        2 * width
    } else {
        width
    }
}

/// Sets the last moment of a place.
pub fn set_last_moment(tree: &mut Vec<u64>, width: usize, place: usize, last_moment: u64)
    requires tree { IsTree width tree.old.items }
    requires place { place < width }
    ensures { SetsLastMoment width place last_moment tree.old.items tree.new.items }
{
    let mut node = width + place;
    tree[node] = last_moment;
    while 1 < node {
        node /= 2;
        tree[node] = lesser_child(tree, node);
    }
}

// The lesser of what stands at a node's children.
fn lesser_child(tree: &[u64], node: usize) -> u64
    requires { 2 * node + 1 < length tree.now }
    ensures { result ≡ min (node_value tree.now (2 * node)) (node_value tree.now (2 * node + 1)) }
{
    tree[2 * node].min(tree[2 * node + 1])
}

/// Whether any last moment is no later than the limit, as the least tells.
pub fn is_any_due(tree: &[u64], width: usize, limit: u64) -> bool
    requires { IsTree width tree.now }
    ensures { result ≡ is_any_due width tree.now limit }
{
    width != 0 && tree[1] <= limit
}

/// The nodes of the places whose last moments are no later than the limit. It looks at no other places
/// than these and what stands between them and the root. The one error is want of memory.
pub fn due_nodes(
    alloc: Global,
    tree: &[u64],
    width: usize,
    limit: u64,
) -> Result<Vec<usize>, NoMemory>
    requires tree { IsTree width tree.now }
    requires power { IsPower width }
    ensures { IfOk result (λ nodes. nodes.items ≡ due_nodes width tree.now limit) }
{
    let mut nodes = Vec::new(alloc);
    push_due(&mut nodes, tree, 1, limit)?;
    let mut first = 1;
    while first < width {
        nodes = due_children(alloc, tree, &nodes, limit)?;
        first *= 2;
    }
    Ok(nodes)
}

// The children of these nodes that are due. The one error is want of memory.
fn due_children(
    alloc: Global,
    tree: &[u64],
    nodes: &[usize],
    limit: u64,
) -> Result<Vec<usize>, NoMemory>
    requires { All (λ node. 2 * node + 1 < length tree.now) nodes.now }
    ensures { IfOk result (λ due. due.items ≡ filter (is_due tree.now limit)
        (children_of nodes.now)) }
{
    let mut due = Vec::new(alloc);
    for node in nodes {
        push_due(&mut due, tree, 2 * node, limit)?;
        push_due(&mut due, tree, 2 * node + 1, limit)?;
    }
    Ok(due)
}

// Puts the node last where it is due. The one error is want of memory.
fn push_due(nodes: &mut Vec<usize>, tree: &[u64], node: usize, limit: u64) -> Result<(), NoMemory>
    requires { node < length tree.now }
    ensures { OnOk result (nodes.new.items
        ≡ nodes.old.items ++ filter (is_due tree.now limit) (node ∷ [])) }
{
    if tree[node] <= limit {
        nodes.push(node)?;
    }
    Ok(())
}
