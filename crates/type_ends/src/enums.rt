//! The labels of enums, found by the enum's oid.
ghost use Rattle.std.specs.Prelude.{◌≡◌, map, option_map, IfOk};
ghost use Rattle.std.specs.List.{slice_get};
ghost use Rattle.type_ends.specs.Ends.{labels_of};
ghost use Rattle.type_ends.specs.Enums.{label_keys, labels_at, labels_seen};

use crate::ends::Labels;
use cat_rows::{Catalogue, EnumRow};
use copy_text::Text;
use oid_groups::Groups;
use std::alloc::{AllocError, Global};

/// The labels of all enums, in groups by their enums.
pub(crate) fn label_groups(alloc: Global, rows: &[EnumRow]) -> Result<Groups, AllocError>
    ensures { IfOk result (λ groups. groups ≡ label_keys rows.now) }
{
    let keys = label_keys(alloc, rows)?;
    Groups::of(alloc, keys)
}

fn label_keys(alloc: Global, rows: &[EnumRow]) -> Result<Vec<(u32, i64)>, AllocError>
    ensures { IfOk result (λ keys. keys.items ≡ label_keys rows.now) }
{
    rows.iter()
        .map(|row| (row.enumtypid, row.enumpos))
        .collect(alloc)
}

/// The labels of an enum, in the order of their positions.
pub(crate) fn labels_of<'a>(
    alloc: Global,
    cat: &'a Catalogue,
    groups: &Groups,
    oid: u32,
) -> Result<Labels<'a>, AllocError>
    requires { groups.now ≡ label_keys cat.now.pg_enum }
    ensures { IfOk result (λ labels. labels ≡ labels_of cat.now oid) }
{
    let labels = labels_at(alloc, cat.pg_enum.as_slice(), groups.group(oid))?;
    Ok(Labels::new(labels))
}

// The labels at these places.
fn labels_at<'a>(
    alloc: Global,
    rows: &'a [EnumRow],
    places: &[usize],
) -> Result<Vec<&'a Text>, AllocError>
    ensures { IfOk result (λ labels. labels_seen labels.items ≡ labels_at rows.now places.now) }
{
    let mut labels = Vec::new(alloc);
    for place in places {
        if let Some(label) = label_at(rows, *place) {
            labels.push(label)?;
        }
    }
    Ok(labels)
}

fn label_at(rows: &[EnumRow], place: usize) -> Option<&Text>
    ensures { option_map (λ l. l.now) result ≡ option_map (λ e. e.enumlabel) (slice_get rows.now place) }
{
    match rows.get(place) {
        Some(row) => Some(&row.enumlabel),
        None => None,
    }
}
