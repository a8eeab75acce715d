//! What tables, views and sequences depend on.
ghost use Rattle.std.specs.Prelude.{◌≡◌, ◌++◌, map, option_map, IfOk, OnOk};
ghost use Rattle.obj_graph.specs.Objects.{rule_object};
ghost use Rattle.obj_graph.specs.RelationLinks.{links_of_kind, class_links, column_links, default_links, sequence_links, is_schema_of, is_kept, body_link, body_links, view_links};

use crate::links::{Linked, add_to_all, link, reference_ends};
use crate::object_list::{default_object, rule_object};
use cat_names::{RelationKind, relation_kind};
use cat_rows::{AttrdefRow, AttributeRow, ClassRow, RewriteRow, SequenceRow};
use copy_text::Text;
use graph_parts::{Obj, ObjId};
use obj_beside::Beside;
use obj_graph::{Link, data_id, relation_id, schema_id, type_id};
use row_texts::view_body;
use std::alloc::{AllocError, Global};
use stmt_refs::{expr_refs, view_refs};

impl Linked for ClassRow {
    ghost links = { λ cat row. class_links row };

    #[tactic(auto, unfolding(obj_graph::specs::RelationLinks::class_links))]
    fn add_links(
        &self,
        alloc: Global,
        beside: &Beside<'_>,
        out: &mut Vec<Link>,
    ) -> Result<(), AllocError> {
        match relation_kind(self.relkind) {
            RelationKind::Index => Ok(()),
            RelationKind::Table
            | RelationKind::View
            | RelationKind::Sequence
            | RelationKind::Other(_) => {
                out.push(link(relation_id(self.oid), schema_id(self.relnamespace)))?;
                out.push(link(data_id(self.oid), relation_id(self.oid)))?;
                Ok(())
            }
        }
    }
}

impl Linked for AttributeRow {
    ghost links = { λ cat row. column_links row };

    #[tactic(auto, unfolding(obj_graph::specs::RelationLinks::column_links))]
    fn add_links(
        &self,
        alloc: Global,
        beside: &Beside<'_>,
        out: &mut Vec<Link>,
    ) -> Result<(), AllocError> {
        out.push(link(relation_id(self.attrelid), type_id(self.atttypid)))?;
        Ok(())
    }
}

impl Linked for SequenceRow {
    ghost links = { λ cat row. sequence_links row };

    #[tactic(auto, unfolding(obj_graph::specs::RelationLinks::sequence_links))]
    fn add_links(
        &self,
        alloc: Global,
        beside: &Beside<'_>,
        out: &mut Vec<Link>,
    ) -> Result<(), AllocError> {
        out.push(link(relation_id(self.seqrelid), relation_id(self.ownrel)))?;
        Ok(())
    }
}

impl Linked for AttrdefRow {
    ghost links = { default_links };

    #[tactic(auto, unfolding(obj_graph::specs::RelationLinks::default_links))]
    fn add_links(
        &self,
        alloc: Global,
        beside: &Beside<'_>,
        out: &mut Vec<Link>,
    ) -> Result<(), AllocError> {
        let keys = expr_refs(alloc, self.adexpr.as_bytes())?;
        let ends = reference_ends(alloc, beside, &keys)?;
        let default = Some(default_object(beside.book(), self)?);
        add_to_all(relation_id(self.adrelid), &default, &ends, out)
    }
}

// Whether an object is the schema of the relation of an oid.
fn is_schema_of(row: Option<&ClassRow>, to: ObjId) -> bool
    ensures { result ≡ is_schema_of (option_map (λ r. r.now) row.entry) to }
{
    match row {
        Some(row) => to.class == 2615 && to.oid == row.relnamespace,
        None => false,
    }
}

/// Whether a view needs an object also as a dummy: its schema, and the types of its columns.
pub(crate) fn is_kept(beside: &Beside<'_>, view: u32, to: ObjId) -> bool
    ensures { result ≡ is_kept beside.now view to }
{
    is_schema_of(beside.book().class_of(view), to) || beside.has_column_type(view, to)
}

// The link of a view to what its query refers to.
fn body_link(
    beside: &Beside<'_>,
    row: &RewriteRow,
    rule: &Obj,
    to: ObjId,
) -> Result<Link, AllocError>
    requires { rule.now ≡ rule_object beside.now row.now }
    ensures { IfOk result (λ l. l ≡ body_link beside.now row.now to) }
{
    let moves_to = Some(rule.clone()?);
    Ok(Link {
        from: relation_id(row.ev_class),
        to,
        moves_to,
        stays: is_kept(beside, row.ev_class, to),
    })
}

// Adds a link of a view to each of these objects.
fn add_body_links(
    beside: &Beside<'_>,
    row: &RewriteRow,
    rule: &Obj,
    ends: &[ObjId],
    out: &mut Vec<Link>,
) -> Result<(), AllocError>
    requires { rule.now ≡ rule_object beside.now row.now }
    ensures { OnOk result (out.new.items ≡ out.old.items ++ map (body_link beside.now row.now) ends.now) }
{
    for to in ends {
        let link = body_link(beside, row, rule, *to)?;
        out.push(link)?;
    }
    Ok(())
}

// Adds what the query of a view, if its text is one, refers to.
fn add_body(
    alloc: Global,
    beside: &Beside<'_>,
    row: &RewriteRow,
    body: &Option<Text>,
    out: &mut Vec<Link>,
) -> Result<(), AllocError>
    ensures { OnOk result (out.new.items ≡ out.old.items ++ body_links beside.now row.now body.now) }
{
    match body {
        Some(body) => {
            let keys = view_refs(alloc, body.as_bytes())?;
            let ends = reference_ends(alloc, beside, &keys)?;
            let rule = rule_object(beside.book(), row)?;
            add_body_links(beside, row, &rule, &ends, out)
        }
        None => Ok(()),
    }
}

impl Linked for RewriteRow {
    ghost links = { view_links };

    #[tactic(auto, unfolding(obj_graph::specs::RelationLinks::view_links))]
    fn add_links(
        &self,
        alloc: Global,
        beside: &Beside<'_>,
        out: &mut Vec<Link>,
    ) -> Result<(), AllocError> {
        let body = view_body(alloc, self.viewdef.as_bytes())?;
        add_body(alloc, beside, self, &body, out)
    }
}
