//! What is published: identifiers, and then a list of metadata. The elements of metadata are moved.
ghost use Rattle.ifmap_forms.specs.Answers.{IsChecked, IsCheckedAs};
ghost use Rattle.ifmap_forms.specs.Tables.{parts_in};
ghost use Rattle.ifmap_requests.specs.Published.{metadata_check, published_check, published_parts};

use ifmap_elem::{Child, Element, Many};
use ifmap_forms::FormError;
use ifmap_forms::lists::{Listed, read_listed};
use ifmap_forms::members::MemberReader;
use ifmap_ident::{Code, Item};
use ifmap_meta::{MetaError, Metadata};
use std::alloc::Global;

/// What an update or a notify publishes.
#[derive(Drop)]
pub struct Published {
    pub item: Item,
    pub elements: Many<Metadata>,
}

// What the children of an update or of a notify say.
pub(crate) fn read_published(alloc: Global, children: Vec<Child>) -> Result<Published, FormError>
    ensures { IsCheckedAs published_parts (published_check (parts_in children.items)) result }
{
    let listed = read_listed::<MetadataReader>(alloc, children)?;
    let Listed { item, list } = listed;
    match list {
        Some(elements) => Ok(Published { item, elements }),
        None => Err(FormError::Named(Code::Failure)),
    }
}

struct MetadataReader;

impl MemberReader for MetadataReader {
    ghost use Rattle.ifmap_requests.specs.Published.{metadata_check};

    type Member = Metadata;

    ghost finds = { metadata_check };

    fn read_member(alloc: Global, element: Element) -> Result<Metadata, FormError> {
        read_metadata(alloc, element)
    }
}

fn read_metadata(alloc: Global, element: Element) -> Result<Metadata, FormError>
    ensures { IsChecked (metadata_check element) result }
{
    match Metadata::from_element(alloc, element) {
        Ok(metadata) => Ok(metadata),
        Err(MetaError::Invalid) => Err(FormError::Named(Code::InvalidMetadata)),
        Err(MetaError::TooLong) => Err(FormError::Named(Code::MetadataTooLong)),
        Err(MetaError::NoMemory) => Err(FormError::NoMemory),
    }
}
