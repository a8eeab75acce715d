//! Names of two parts.
ghost use Rattle.std.specs.Prelude.{drop};
ghost use Rattle.ddl_parts.specs.Leaves.{qualified};
ghost use Rattle.ddl_parts.specs.Pieces.{GivesPart};

use crate::pieces::Pieces;
use cat_model::QName;
use ddl_parts::Parsed;
use std::alloc::Global;

/// The qualified name at a place, and the place behind it.
pub fn qualified_name(alloc: Global, pieces: &Pieces<'_>, at: usize) -> Parsed<QName>
    ensures { GivesPart pieces.now (λ q. q) result (qualified.read (drop at pieces.now)) }
{
    let (schema, at) = pieces.name(alloc, at)?;
    let at = pieces.sign(at, b'.')?;
    let (name, at) = pieces.name(alloc, at)?;
    Ok((QName { schema, name }, at))
}
