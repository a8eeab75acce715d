//! The ends of chains of domains, and the labels of enums.
ghost use Rattle.std.specs.Prelude.{◌≡◌, IfOk};
ghost use Rattle.type_ends.specs.Bases.{end_with};
ghost use Rattle.type_ends.specs.Enums.{labels_seen};

use cat_model::{Items, Resolved, TypeName};
use copy_text::Text;
use std::alloc::{AllocError, Global};
use std::marker::Model;

/// The labels of an enum, in the order of their positions. A contract sees the list of their bytes.
#[derive(Drop)]
pub(crate) struct Labels<'a> {
    labels: Vec<&'a Text>,
}

impl<'a> Model for Labels<'a> {
    ghost use Rattle.std.specs.Prelude.{List};
    ghost use Rattle.cat_model.specs.Values.{Bytes};
    ghost use Rattle.type_ends.specs.Enums.{labels_seen};

    ghost Value = { List Bytes };

    ghost view = { λ l. labels_seen l.labels.items };
}

impl<'a> Labels<'a> {
    /// These labels.
    pub(crate) fn new(labels: Vec<&'a Text>) -> Labels<'a>
        ensures { result ≡ labels_seen labels.entry.items }
    {
        Labels { labels }
    }

    /// The labels once more, as a list of texts. The error is that memory ran out.
    pub(crate) fn to_items(&self, alloc: Global) -> Result<Items<Text>, AllocError>
        ensures { IfOk result (λ labels. labels ≡ self.now) }
    {
        Ok(Items::new(copied(alloc, &self.labels)?))
    }
}

// The same texts once more.
fn copied(alloc: Global, labels: &[&Text]) -> Result<Vec<Text>, AllocError>
    ensures { IfOk result (λ texts. texts.items ≡ labels_seen labels.now) }
{
    let mut texts = Vec::new(alloc);
    for label in labels {
        texts.push((*label).clone()?)?;
    }
    Ok(texts)
}

// The labels once more, where there are any.
fn labels_of(alloc: Global, labels: &Option<Labels<'_>>) -> Result<Option<Items<Text>>, AllocError>
    ensures { IfOk result (λ copy. copy ≡ labels.now) }
{
    match labels {
        Some(labels) => Ok(Some(labels.to_items(alloc)?)),
        None => Ok(None),
    }
}

/// A type that is no domain, at the end of a chain of domains: an enum with its labels, or a type without a row.
#[derive(Drop)]
pub(crate) struct Base<'a> {
    /// The type.
    pub(crate) type_name: TypeName,
    /// The labels of an enum; `None` for any other type.
    pub(crate) labels: Option<Labels<'a>>,
}

/// What a type is whose chain of domains ends so.
pub(crate) fn end_with(
    alloc: Global,
    not_null: bool,
    base: &Base<'_>,
) -> Result<Resolved, AllocError>
    ensures { IfOk result (λ resolved. resolved ≡ end_with not_null base.now) }
{
    let labels = labels_of(alloc, &base.labels)?;
    Ok(Resolved {
        type_name: base.type_name.clone()?,
        labels,
        not_null,
    })
}
