//! The namespaces of a request's filters.
ghost use Rattle.std.specs.Prelude.{◌≡◌, [], IfOk};
ghost use Rattle.std.specs.List.{flat_map};
ghost use Rattle.ifmap_elem.specs.Namespaces.{AddsSpaces};
ghost use Rattle.ifmap_filter.specs.Spaces.{filter_spaces};
ghost use Rattle.ifmap_writing.specs.RequestSpaces.{optional_filter, publish_filters, request_filters, request_spaces, search_filters, subscribe_filters};

use ifmap_elem::{Many, Text};
use ifmap_filter::Filter;
use ifmap_requests::{PublishOp, Request, SubscribeOp};
use ifmap_search::Search;
use std::alloc::{AllocError as NoMemory, Global};

// Each once, in the order of their first occurrence, but for none and that of `xml`.
pub(crate) fn request_spaces(alloc: Global, request: &Request) -> Result<Many<Text>, NoMemory>
    ensures { IfOk result (λ spaces. spaces ≡ request_spaces request.now) }
{
    let spaces = spaces_of(alloc, request)?;
    Ok(spaces)
}

#[tactic(auto, using(crate::proofs::SpaceLaws::none_added, crate::proofs::SpaceLaws::one_added, crate::proofs::SpaceLaws::search_added))]
fn spaces_of(alloc: Global, request: &Request) -> Result<Many<Text>, NoMemory>
    ensures { IfOk result (λ spaces.
        AddsSpaces [] (flat_map filter_spaces (request_filters request.now)) spaces) }
{
    match request {
        Request::NewSession { .. } => Ok(Many::new(alloc)),
        Request::RenewSession { .. } => Ok(Many::new(alloc)),
        Request::EndSession { .. } => Ok(Many::new(alloc)),
        Request::Publish { ops, .. } => publish_spaces(alloc, ops.as_slice()),
        Request::Search { search, .. } => add_search(alloc, search, Many::new(alloc)),
        Request::Subscribe { ops, .. } => subscribe_spaces(alloc, ops.as_slice()),
        Request::Poll { .. } => Ok(Many::new(alloc)),
        Request::PurgePublisher { .. } => Ok(Many::new(alloc)),
    }
}

fn publish_spaces(alloc: Global, ops: &[PublishOp]) -> Result<Many<Text>, NoMemory>
    ensures { IfOk result (λ spaces.
        AddsSpaces [] (flat_map filter_spaces (flat_map publish_filters ops.now)) spaces) }
{
    let mut spaces = Many::new(alloc);
    for op in ops {
        spaces = add_publish(alloc, op, spaces)?;
    }
    Ok(spaces)
}

#[tactic(auto, using(crate::proofs::SpaceLaws::none_added, crate::proofs::SpaceLaws::one_added, crate::proofs::SpaceLaws::search_added))]
fn add_publish(alloc: Global, op: &PublishOp, spaces: Many<Text>) -> Result<Many<Text>, NoMemory>
    ensures { IfOk result (λ all.
        AddsSpaces spaces (flat_map filter_spaces (publish_filters op.now)) all) }
{
    match op {
        PublishOp::Update { .. } => Ok(spaces),
        PublishOp::Notify { .. } => Ok(spaces),
        PublishOp::Delete { filter, .. } => add_filter(alloc, filter, spaces),
    }
}

fn subscribe_spaces(alloc: Global, ops: &[SubscribeOp]) -> Result<Many<Text>, NoMemory>
    ensures { IfOk result (λ spaces.
        AddsSpaces [] (flat_map filter_spaces (flat_map subscribe_filters ops.now)) spaces) }
{
    let mut spaces = Many::new(alloc);
    for op in ops {
        spaces = add_subscribe(alloc, op, spaces)?;
    }
    Ok(spaces)
}

#[tactic(auto, using(crate::proofs::SpaceLaws::none_added, crate::proofs::SpaceLaws::one_added, crate::proofs::SpaceLaws::search_added))]
fn add_subscribe(
    alloc: Global,
    op: &SubscribeOp,
    spaces: Many<Text>,
) -> Result<Many<Text>, NoMemory>
    ensures { IfOk result (λ all.
        AddsSpaces spaces (flat_map filter_spaces (subscribe_filters op.now)) all) }
{
    match op {
        SubscribeOp::Update { search, .. } => add_search(alloc, search, spaces),
        SubscribeOp::Delete { .. } => Ok(spaces),
    }
}

#[tactic(auto, using(crate::proofs::SpaceLaws::none_added, crate::proofs::SpaceLaws::one_added, crate::proofs::SpaceLaws::search_added))]
fn add_search(alloc: Global, search: &Search, spaces: Many<Text>) -> Result<Many<Text>, NoMemory>
    ensures { IfOk result (λ all.
        AddsSpaces spaces (flat_map filter_spaces (search_filters search.now)) all) }
{
    let spaces = add_filter(alloc, &search.match_links, spaces)?;
    add_filter(alloc, &search.result_filter, spaces)
}

#[tactic(auto, using(crate::proofs::SpaceLaws::none_added, crate::proofs::SpaceLaws::one_added, crate::proofs::SpaceLaws::search_added))]
fn add_filter(
    alloc: Global,
    filter: &Option<Filter>,
    spaces: Many<Text>,
) -> Result<Many<Text>, NoMemory>
    ensures { IfOk result (λ all.
        AddsSpaces spaces (flat_map filter_spaces (optional_filter filter.now)) all) }
{
    match filter {
        Some(filter) => filter.add_spaces(alloc, spaces),
        None => Ok(spaces),
    }
}
