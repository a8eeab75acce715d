//! Rows of constraints of tables and of checks of domains.
ghost use Rattle.std.specs.Prelude.{◌≡◌, true, IfOk};
ghost use Rattle.cat_model.specs.declared.key.Key.TheVariants as key;
ghost use Rattle.cat_model.specs.declared.object.QName.{QName};
ghost use Rattle.cat_model.specs.declared.value.Domain.{Domain};
ghost use Rattle.cat_sound.specs.Itself.{check_of, IsConstraint};
ghost use Rattle.named_objects.specs.Constraints.{letter_of, index_of, parent_oid, IsConstraintRow, IsCheckRow};
ghost use Rattle.named_objects.specs.Oids.{ObjectOids};
ghost use Rattle.named_tables.specs.Oids.{Oids};
ghost use Rattle.good_texts.specs.Grammar.{grammar};

use crate::letters::letter;
use crate::parts::ConstraintOids;
use crate::texts::{check_text, constraint_text};
use cat_model::{Constraint, ConstraintKind};
use cat_rows::{ConstraintRow, Letter};
use copy_text::{Name, Text};
use std::alloc::{AllocError, Global};

fn letter_of(kind: ConstraintKind) -> Letter
    ensures { result ≡ letter_of kind }
{
    match kind {
        ConstraintKind::Primary => letter(b'p'),
        ConstraintKind::Unique => letter(b'u'),
        ConstraintKind::Foreign => letter(b'f'),
        ConstraintKind::Check => letter(b'c'),
    }
}

/// The row of a constraint of a table. The only error is want of memory.
/// See <https://www.postgresql.org/docs/16/catalog-pg-constraint.html>.
pub fn constraint_row(
    alloc: Global,
    oids: ConstraintOids,
    name: &Name,
    constraint: &Constraint,
) -> Result<ConstraintRow, AllocError>
    ensures { IfOk result (λ row. (of : Oids) (q : QName) → of (key.Con q name.now) ≡ oids.oid → of (key.Rel q) ≡ oids.table → index_of of (record { table = q; name = name.now; constraint = constraint.now }) constraint.now.kind ≡ oids.index → parent_oid of constraint.now.parent ≡ oids.parent → IsConstraint grammar constraint.now → IsConstraintRow of (record { table = q; name = name.now; constraint = constraint.now }) row) }
{
    Ok(ConstraintRow {
        oid: oids.oid,
        conname: name.clone()?,
        contype: letter_of(constraint.kind),
        conrelid: oids.table,
        contypid: 0,
        conindid: oids.index,
        confrelid: oids.parent,
        condef: constraint_text(alloc, constraint)?,
    })
}

/// The row of a check of a domain, by its oid and the domain's.
pub fn check_row(
    alloc: Global,
    oid: u32,
    domain: u32,
    name: &Name,
    text: &Text,
) -> Result<ConstraintRow, AllocError>
    ensures { IfOk result (λ row. (oids : ObjectOids) (q : QName) (d : Domain) → oids.check q name.now ≡ oid → oids.of (key.UserType q) ≡ domain → grammar.constraint (check_of text.now) ≡ true → IsCheckRow oids (record { path = q; domain = d; name = name.now; text = text.now }) row) }
{
    Ok(ConstraintRow {
        oid,
        conname: name.clone()?,
        contype: letter(b'c'),
        conrelid: 0,
        contypid: domain,
        conindid: 0,
        confrelid: 0,
        condef: check_text(alloc, text)?,
    })
}
