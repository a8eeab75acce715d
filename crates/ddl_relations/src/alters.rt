//! Readers of ALTER TABLE, behind these words.
ghost use Rattle.std.specs.Prelude.{◌≡◌, drop};
ghost use Rattle.ddl_grammar.specs.Pieces.{GivesPart};
ghost use Rattle.ddl_grammar.specs.Syntax.{part};
ghost use Rattle.ddl_grammar.specs.OnlyGrammar.{table_and};
ghost use Rattle.ddl_grammar.specs.Grammar.{new_owner, constraint_body, constrained, own_change, table_change, table_changed, altered_table};

use crate::columns::columns;
use crate::rests::{foreign_rest, key_rest};
use cat_model::{Items, Owned, QName, Stmt};
use copy_text::Name;
use ddl_grammar::{Constraint, TableChange};
use ddl_pieces::{Parsed, Pieces, qualified_name, read};
use std::alloc::Global;

/// The new owner, and the place behind the semicolon.
#[tactic(auto, unfolding(ddl_grammar::specs::Syntax::part, ddl_grammar::specs::LeafParts::leaf_part, ddl_grammar::specs::Grammar::new_owner))]
pub fn new_owner(alloc: Global, pieces: &Pieces<'_>, at: usize) -> Parsed<Name>
    ensures { GivesPart pieces.now (λ n. n) result ((part new_owner).read (drop at pieces.now)) }
{
    read!(alloc, pieces, at; "owner" "to" role: .name; => role)
}

/// What a constraint says: its definition, from a place of the tokens on.
#[tactic(auto, unfolding(ddl_grammar::specs::Syntax::part, ddl_grammar::specs::LeafParts::leaf_part, ddl_grammar::specs::Grammar::constraint_body))]
pub fn constraint_body(alloc: Global, pieces: &Pieces<'_>, at: usize) -> Parsed<Constraint>
    ensures { GivesPart pieces.now (λ c. c) result ((part constraint_body).read (drop at pieces.now)) }
{
    read!(alloc, pieces, at;
        if "check" { (text: .expression) => Constraint::Check(text) }
        if "primary" { "key" key: columns rest: key_rest => Constraint::Primary(Items::new(key), rest) }
        if "unique" { key: columns rest: key_rest => Constraint::Unique(Items::new(key), rest) }
        "foreign" "key" key: columns "references" parent: qualified_name parents: columns rest: foreign_rest
        => Constraint::Foreign(Items::new(key), parent, Items::new(parents), rest))
}

/// A change of the table alone, before which ONLY may stand.
#[tactic(auto, unfolding(ddl_grammar::specs::Syntax::part, ddl_grammar::specs::LeafParts::leaf_part, ddl_grammar::specs::Grammar::own_change))]
fn own_change(alloc: Global, pieces: &Pieces<'_>, at: usize) -> Parsed<TableChange>
    ensures { GivesPart pieces.now (λ c. c) result ((part own_change).read (drop at pieces.now)) }
{
    read!(alloc, pieces, at;
        if "add" { "constraint" name: .name said: constraint_body; => TableChange::Added(name, said) }
        "alter" "column" column: .name "set" "default" text: .default_text; => TableChange::Default(column, text))
}

#[tactic(auto, unfolding(ddl_grammar::specs::Syntax::part, ddl_grammar::specs::LeafParts::leaf_part, ddl_grammar::specs::Grammar::table_change, ddl_grammar::specs::Grammar::new_owner))]
fn table_change(alloc: Global, pieces: &Pieces<'_>, at: usize) -> Parsed<TableChange>
    ensures { GivesPart pieces.now (λ c. c) result ((part table_change).read (drop at pieces.now)) }
{
    read!(alloc, pieces, at; if at "owner" { role: new_owner => TableChange::Owner(role) } -> own_change)
}

/// The statement that adds a constraint.
fn constrained(q: QName, name: Name, constraint: Constraint) -> Stmt
    ensures { result ≡ constrained q name constraint }
{
    match constraint {
        Constraint::Check(text) => Stmt::AddCheck { q, name, text },
        Constraint::Primary(columns, rest) => Stmt::AddPrimary {
            q,
            name,
            columns,
            rest,
        },
        Constraint::Unique(columns, rest) => Stmt::AddUnique {
            q,
            name,
            columns,
            rest,
        },
        Constraint::Foreign(columns, parent, parent_columns, rest) => Stmt::AddForeign {
            q,
            name,
            columns,
            parent,
            parent_columns,
            rest,
        },
    }
}

/// The statement of a change.
fn changed(q: QName, change: TableChange) -> Stmt
    ensures { result ≡ table_changed q change }
{
    match change {
        TableChange::Owner(role) => Stmt::OwnerTo {
            object: Owned::Table(q),
            role,
        },
        TableChange::Default(column, text) => Stmt::SetDefault { q, column, text },
        TableChange::Added(name, constraint) => constrained(q, name, constraint),
    }
}

/// A table and its change; or ONLY, a table and a change of it alone.
#[tactic(auto, unfolding(ddl_grammar::specs::OnlyGrammar::only_value, ddl_grammar::specs::OnlyGrammar::other_path, ddl_grammar::specs::OnlyGrammar::other_value))]
fn table_and_change(alloc: Global, pieces: &Pieces<'_>, at: usize) -> Parsed<(QName, TableChange)>
    ensures { GivesPart pieces.now (λ x. (x.0, x.1)) result ((table_and (part own_change) (part table_change)).read (drop at pieces.now)) }
{
    read!(alloc, pieces, at;
        if at "only" { schema: .name
            if . { name: .name change: table_change => (QName { schema, name }, change) }
            q: qualified_name change: own_change => (q, change) }
        schema: .name . name: .name change: table_change => (QName { schema, name }, change))
}

/// ALTER TABLE, behind these words.
pub fn altered_table(alloc: Global, pieces: &Pieces<'_>, at: usize) -> Parsed<Stmt>
    ensures { GivesPart pieces.now (λ s. s) result ((part altered_table).read (drop at pieces.now)) }
{
    let ((q, change), end) = table_and_change(alloc, pieces, at)?;
    Ok((changed(q, change), end))
}
