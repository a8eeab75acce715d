//! What types depend on.
ghost use Rattle.std.specs.Prelude.{◌≡◌, ◌++◌, OnOk};
ghost use Rattle.obj_graph.specs.TypeLinks.{domain_default_links, domain_links, type_links};

use crate::links::{Linked, add_to_all, link, reference_ends};
use cat_rows::TypeRow;
use copy_text::Text;
use obj_beside::Beside;
use obj_graph::{Link, schema_id, type_id};
use std::alloc::{AllocError, Global};
use stmt_refs::expr_refs;

// Adds what the default of a domain, if it has one, refers to.
fn add_default(
    alloc: Global,
    beside: &Beside<'_>,
    row: &TypeRow,
    out: &mut Vec<Link>,
) -> Result<(), AllocError>
    ensures { OnOk result (out.new.items ≡ out.old.items ++ domain_default_links beside.now row.now row.now.typdefault) }
{
    match &row.typdefault {
        Some(text) => {
            let keys = expr_refs(alloc, text.as_bytes())?;
            let ends = reference_ends(alloc, beside, &keys)?;
            add_to_all(type_id(row.oid), &None, &ends, out)
        }
        None => Ok(()),
    }
}

// Adds what a domain is over, and what its default refers to.
fn add_domain(
    alloc: Global,
    beside: &Beside<'_>,
    row: &TypeRow,
    out: &mut Vec<Link>,
) -> Result<(), AllocError>
    ensures { OnOk result (out.new.items ≡ out.old.items ++ domain_links beside.now row.now) }
{
    if row.typtype.byte() != b'd' {
        return Ok(());
    }
    out.push(link(type_id(row.oid), type_id(row.typbasetype)))?;
    add_default(alloc, beside, row, out)?;
    Ok(())
}

impl Linked for TypeRow {
    ghost links = { type_links };

    #[tactic(auto, unfolding(obj_graph::specs::TypeLinks::type_links))]
    fn add_links(
        &self,
        alloc: Global,
        beside: &Beside<'_>,
        out: &mut Vec<Link>,
    ) -> Result<(), AllocError> {
        out.push(link(type_id(self.oid), schema_id(self.typnamespace)))?;
        add_domain(alloc, beside, self, out)?;
        Ok(())
    }
}
