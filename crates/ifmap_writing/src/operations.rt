//! The operations of a publish and of a subscribe as elements.
ghost use Rattle.std.specs.Prelude.{◌≡◌, [], codes, map, IfOk};
ghost use Rattle.std.specs.List.{AllByRecursion};
ghost use Rattle.ifmap_requests.specs.declared.publish_ops.PublishOp.TheVariants as publish;
ghost use Rattle.ifmap_requests.specs.declared.requests.SubscribeOp.TheVariants as subscribe;
ghost use Rattle.ifmap_writing.specs.Attributes.{values_of_lifetime, values_of_name};
ghost use Rattle.ifmap_elem.specs.Building.{as_children};
ghost use Rattle.ifmap_writing.specs.RequestElements.{part_element, publish_element, published_children, subscribe_element};
ghost use Rattle.ifmap_writing.specs.RequestSpaces.{ServeFilter, ServePublish, ServeSearch, ServeSubscribe};

use crate::attributes::{
    filter_attributes, lifetime_attributes, name_attributes, subscription_attributes,
};
use crate::children::{item_children, published_children, start_children};
use ifmap_elem::{Child, Element, Many, Text};
use ifmap_filter::Filter;
use ifmap_ident::Item;
use ifmap_meta::Metadata;
use ifmap_requests::{PublishOp, SubscribeOp};
use ifmap_search::Search;
use std::alloc::{AllocError as NoMemory, Global};

// The operations of a publish, as children.
pub(crate) fn publish_children(
    alloc: Global,
    spaces: &Many<Text>,
    ops: &[PublishOp],
) -> Result<Vec<Child>, NoMemory>
    requires { AllByRecursion (ServePublish spaces.now) ops.now }
    ensures { IfOk result (λ children.
        children.items ≡ as_children (map (publish_element spaces.now) ops.now)) }
{
    let mut children = Vec::with_capacity(alloc, ops.len())?;
    for op in ops {
        children.push(Child::Element(publish_element(alloc, spaces, op)?))?;
    }
    Ok(children)
}

fn publish_element(alloc: Global, spaces: &Many<Text>, op: &PublishOp) -> Result<Element, NoMemory>
    requires { ServePublish spaces.now op.now }
    ensures { IfOk result (λ element. element ≡ publish_element spaces.now op.now) }
{
    match op {
        PublishOp::Update {
            item,
            elements,
            forever,
        } => update_element(alloc, item, elements, *forever),
        PublishOp::Notify { item, elements } => notify_element(alloc, item, elements),
        PublishOp::Delete { item, filter } => delete_element(alloc, spaces, item, filter),
    }
}

fn update_element(
    alloc: Global,
    item: &Item,
    elements: &Many<Metadata>,
    forever: bool,
) -> Result<Element, NoMemory>
    ensures { IfOk result (λ element. element ≡ part_element (codes "update")
        (values_of_lifetime forever) (published_children item.now elements.now)) }
{
    let attributes = lifetime_attributes(alloc, forever)?;
    let children = published_children(alloc, item, elements)?;
    Element::with_local(alloc, "update", attributes, children)
}

fn notify_element(
    alloc: Global,
    item: &Item,
    elements: &Many<Metadata>,
) -> Result<Element, NoMemory>
    ensures { IfOk result (λ element. element ≡ part_element (codes "notify") []
        (published_children item.now elements.now)) }
{
    let children = published_children(alloc, item, elements)?;
    Element::with_local(alloc, "notify", Vec::new(alloc), children)
}

fn delete_element(
    alloc: Global,
    spaces: &Many<Text>,
    item: &Item,
    filter: &Option<Filter>,
) -> Result<Element, NoMemory>
    requires { ServeFilter spaces.now filter.now }
    ensures { IfOk result (λ element.
        element ≡ publish_element spaces.now (publish.Delete item.now filter.now)) }
{
    let attributes = filter_attributes(alloc, spaces, filter)?;
    let children = item_children(alloc, item)?;
    Element::with_local(alloc, "delete", attributes, children)
}

// The operations of a subscribe, as children.
pub(crate) fn subscribe_children(
    alloc: Global,
    spaces: &Many<Text>,
    ops: &[SubscribeOp],
) -> Result<Vec<Child>, NoMemory>
    requires { AllByRecursion (ServeSubscribe spaces.now) ops.now }
    ensures { IfOk result (λ children.
        children.items ≡ as_children (map (subscribe_element spaces.now) ops.now)) }
{
    let mut children = Vec::with_capacity(alloc, ops.len())?;
    for op in ops {
        children.push(Child::Element(subscribe_element(alloc, spaces, op)?))?;
    }
    Ok(children)
}

fn subscribe_element(
    alloc: Global,
    spaces: &Many<Text>,
    op: &SubscribeOp,
) -> Result<Element, NoMemory>
    requires { ServeSubscribe spaces.now op.now }
    ensures { IfOk result (λ element. element ≡ subscribe_element spaces.now op.now) }
{
    match op {
        SubscribeOp::Update { name, search } => subscription_element(alloc, spaces, name, search),
        SubscribeOp::Delete { name } => end_element(alloc, name),
    }
}

fn subscription_element(
    alloc: Global,
    spaces: &Many<Text>,
    name: &Text,
    search: &Search,
) -> Result<Element, NoMemory>
    requires { ServeSearch spaces.now search.now }
    ensures { IfOk result (λ element.
        element ≡ subscribe_element spaces.now (subscribe.Update name.now search.now)) }
{
    let attributes = subscription_attributes(alloc, spaces, name, search)?;
    let children = start_children(alloc, &search.start)?;
    Element::with_local(alloc, "update", attributes, children)
}

fn end_element(alloc: Global, name: &Text) -> Result<Element, NoMemory>
    ensures { IfOk result (λ element.
        element ≡ part_element (codes "delete") (values_of_name name.now) []) }
{
    let attributes = name_attributes(alloc, name)?;
    Element::with_local(alloc, "delete", attributes, Vec::new(alloc))
}
