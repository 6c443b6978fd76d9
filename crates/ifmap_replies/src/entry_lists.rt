//! Entries, read from `resultItem`s. Their elements are moved.
ghost use Rattle.std.specs.Prelude.{◌≡◌, ◌++◌, [], IfOk, OnOk};
ghost use Rattle.ifmap_forms.specs.Answers.{IsChecked};
ghost use Rattle.ifmap_forms.specs.Tables.{form_check, parts_in};
ghost use Rattle.ifmap_replies.specs.ResultForms.{element_check, entries_check, no_scopes, elements_or_none, run_check, run_form, run_made, run_parts};
ghost use Rattle.ifmap_replies.specs.Runs.{entries_in_runs, run_entries};

use crate::runs::Run;
use ifmap_elem::{Child, Element, Many};
use ifmap_forms::FormError;
use ifmap_forms::lists::read_listed;
use ifmap_forms::members::{MemberReader, read_members};
use ifmap_forms::parts::has_only;
use ifmap_ident::{Code, SharedItem};
use ifmap_meta::{SharedElement, arrange};
use ifmap_search::Entry;
use std::alloc::{AllocError as NoMemory, Global};

// The entries of the `resultItem`s among children.
pub(crate) fn read_entries(alloc: Global, children: Vec<Child>) -> Result<Many<Entry>, FormError>
    ensures { IsChecked (entries_check (parts_in children.items)) result }
{
    let runs = read_members::<RunReader>(alloc, children)?;
    let entries = entries_of(alloc, runs)?;
    Ok(Many(entries))
}

fn entries_of(alloc: Global, runs: Vec<Run>) -> Result<Vec<Entry>, NoMemory>
    ensures { IfOk result (λ entries. entries.items ≡ entries_in_runs runs.items) }
{
    let mut entries = Vec::new(alloc);
    for run in runs {
        push_entries(run, &mut entries)?;
    }
    Ok(entries)
}

// Puts the entries of a run after the others.
fn push_entries(run: Run, entries: &mut Vec<Entry>) -> Result<(), NoMemory>
    ensures { OnOk result (entries.new.items ≡ entries.old.items ++ run_entries run) }
{
    let Run { item, elements } = run;
    for element in elements.0 {
        let item = item.share()?;
        entries.push(Entry { item, element })?;
    }
    Ok(())
}

struct RunReader;

impl MemberReader for RunReader {
    ghost use Rattle.ifmap_replies.specs.ResultForms.{run_check};

    type Member = Run;

    ghost finds = { run_check };

    fn read_member(alloc: Global, element: Element) -> Result<Run, FormError> {
        read_run(alloc, element)
    }
}

fn read_run(alloc: Global, element: Element) -> Result<Run, FormError>
    ensures { IsChecked (run_check element) result }
{
    if !element.name.is_bare("resultItem") {
        return Err(FormError::Named(Code::Failure));
    }
    read_named_run(alloc, element)
}

fn read_named_run(alloc: Global, element: Element) -> Result<Run, FormError>
    ensures { IsChecked (form_check run_form run_made no_scopes element) result }
{
    if !has_only(&element, &[]) {
        return Err(FormError::Named(Code::Failure));
    }
    let children = element.children;
    read_run_parts(alloc, children.0)
}

// Identifiers, and then a list of elements or none.
fn read_run_parts(alloc: Global, children: Vec<Child>) -> Result<Run, FormError>
    ensures { IsChecked (run_parts (parts_in children.items)) result }
{
    let listed = read_listed::<ElementReader>(alloc, children)?;
    let item = SharedItem::new(alloc, listed.item)?;
    let elements = elements_or_none(alloc, listed.list);
    Ok(Run { item, elements })
}

fn elements_or_none(alloc: Global, list: Option<Many<SharedElement>>) -> Many<SharedElement>
    ensures { result ≡ elements_or_none list }
{
    match list {
        Some(elements) => elements,
        None => Many(Vec::new(alloc)),
    }
}

struct ElementReader;

impl MemberReader for ElementReader {
    ghost use Rattle.ifmap_replies.specs.ResultForms.{element_check};

    type Member = SharedElement;

    ghost finds = { element_check };

    fn read_member(alloc: Global, element: Element) -> Result<SharedElement, FormError> {
        share_arranged(alloc, element)
    }
}

fn share_arranged(alloc: Global, mut element: Element) -> Result<SharedElement, FormError>
    ensures { IsChecked (element_check element) result }
{
    arrange(&mut element);
    Ok(SharedElement::new(alloc, element)?)
}
