//! Readers of CREATE TYPE, CREATE DOMAIN and CREATE TABLE, behind these words.
ghost use Rattle.std.specs.Prelude.{◌≡◌, ◌++◌, ◌∷◌, [], drop, codes, OnOk, IfOk};
ghost use Rattle.ddl_grammar.specs.Lexemes.{starts, is_word};
ghost use Rattle.ddl_grammar.specs.Parts.{many};
ghost use Rattle.ddl_grammar.specs.Lists.{listed, listing};
ghost use Rattle.ddl_grammar.specs.Leaves.{literal, is_literal};
ghost use Rattle.ddl_grammar.specs.Pieces.{GivesPart};
ghost use Rattle.ddl_grammar.specs.Clauses.{named_check};
ghost use Rattle.ddl_grammar.specs.TableGrammar.{attributes, checking, element, element_begins, element_at, columns_of, checks_of, spot_behind, table_elements};
ghost use Rattle.ddl_grammar.specs.Syntax.{part};
ghost use Rattle.ddl_grammar.specs.Grammar.{create_enum, create_domain, create_table};

use cat_model::{CheckDef, ColumnDef, Items, Stmt};
use copy_text::Text;
use ddl_grammar::{Spot, TableElement};
use ddl_pieces::{Parsed, Pieces, qualified_name, read};
use std::alloc::{AllocError, Global};

/// A check with its name.
#[tactic(auto, unfolding(ddl_grammar::specs::Clauses::named_check))]
pub fn named_check(alloc: Global, pieces: &Pieces<'_>, at: usize) -> Parsed<CheckDef>
    ensures { GivesPart pieces.now (λ c. c) result (named_check.read (drop at pieces.now)) }
{
    read!(alloc, pieces, at; "constraint" name: .name "check" (text: .expression) => CheckDef { name, text })
}

/// Whether a label stands at a place of a list.
fn begins_label(pieces: &Pieces<'_>, at: usize, behind: bool) -> bool
    ensures { result ≡ starts ((listing is_literal literal).more behind) (drop at pieces.now) }
{
    if behind {
        pieces.is_sign(at, b',')
    } else {
        pieces.is_literal(at)
    }
}

/// A label, with the comma before it where it isn't the first.
fn label_at(alloc: Global, pieces: &Pieces<'_>, at: usize, behind: bool) -> Parsed<Text>
    ensures { GivesPart pieces.now (λ t. t) result (((listing is_literal literal).item behind).read (drop at pieces.now)) }
{
    if behind {
        return read!(alloc, pieces, at; , -> .literal);
    }
    pieces.literal(alloc, at)
}

/// Labels with commas between them, or none.
fn labels(alloc: Global, pieces: &Pieces<'_>, from: usize) -> Parsed<Vec<Text>>
    ensures { GivesPart pieces.now (λ v. v.items) result ((listed is_literal literal).read (drop from pieces.now)) }
{
    let mut labels = Vec::new(alloc);
    let mut behind = false;
    let mut at = from;
    'labels: loop {
        if !begins_label(pieces, at, behind) {
            return Ok((labels, at));
        }
        let (label, next) = label_at(alloc, pieces, at, behind)?;
        labels.push(label)?;
        behind = true;
        at = next;
    }
}

/// CREATE TYPE of an enum, behind these words.
#[tactic(auto, unfolding(ddl_grammar::specs::Syntax::part, ddl_grammar::specs::LeafParts::leaf_part, ddl_grammar::specs::Grammar::create_enum))]
pub fn create_enum(alloc: Global, pieces: &Pieces<'_>, at: usize) -> Parsed<Stmt>
    ensures { GivesPart pieces.now (λ s. s) result ((part create_enum).read (drop at pieces.now)) }
{
    read!(alloc, pieces, at; q: qualified_name "as" "enum" (labels: labels);
        => Stmt::CreateEnum { q, labels: Items::new(labels) })
}

#[tactic(auto, unfolding(ddl_grammar::specs::TableGrammar::attributes, ddl_grammar::specs::TableGrammar::null_first, ddl_grammar::specs::TableGrammar::default_first))]
fn attributes(alloc: Global, pieces: &Pieces<'_>, at: usize) -> Parsed<(Option<Text>, bool)>
    ensures { GivesPart pieces.now (λ x. (x.0, x.1)) result (attributes.read (drop at pieces.now)) }
{
    read!(alloc, pieces, at;
        if "not" { "null" if "default" { text: .default_text => (Some(text), true) } => (None, true) }
        if "default" { (text, not_null): .default_and_null => (Some(text), not_null) }
        => (None, false))
}

/// Checks one after another.
fn checks(alloc: Global, pieces: &Pieces<'_>, from: usize) -> Parsed<Vec<CheckDef>>
    ensures { GivesPart pieces.now (λ v. v.items) result ((many (is_word (codes "constraint")) checking).read (drop from pieces.now)) }
{
    let mut checks = Vec::new(alloc);
    let mut at = from;
    'checks: loop {
        if !pieces.is_word(at, "constraint") {
            return Ok((checks, at));
        }
        let (check, next) = named_check(alloc, pieces, at)?;
        checks.push(check)?;
        at = next;
    }
}

/// CREATE DOMAIN, behind these words.
#[tactic(auto, unfolding(ddl_grammar::specs::Syntax::part, ddl_grammar::specs::LeafParts::leaf_part, ddl_grammar::specs::Grammar::create_domain, ddl_grammar::specs::TableGrammar::domain_rest, ddl_grammar::specs::TableGrammar::typed))]
pub fn create_domain(alloc: Global, pieces: &Pieces<'_>, at: usize) -> Parsed<Stmt>
    ensures { GivesPart pieces.now (λ s. s) result ((part create_domain).read (drop at pieces.now)) }
{
    read!(alloc, pieces, at;
        q: qualified_name "as" base: .type_name (default, not_null): attributes checks: checks;
        => Stmt::CreateDomain { q, base, not_null, default, checks: Items::new(checks) })
}

#[tactic(auto, unfolding(ddl_grammar::specs::TableGrammar::element, ddl_grammar::specs::TableGrammar::column, ddl_grammar::specs::TableGrammar::column_name_value, ddl_grammar::specs::TableGrammar::typed))]
fn element(alloc: Global, pieces: &Pieces<'_>, at: usize) -> Parsed<TableElement>
    ensures { GivesPart pieces.now (λ e. e) result (element.read (drop at pieces.now)) }
{
    read!(alloc, pieces, at;
        if at "constraint" { check: named_check => TableElement::Check(check) }
        name: .name type_name: .type_name (default, not_null): attributes
        => TableElement::Column(ColumnDef { name, type_name, default, not_null }))
}

/// Whether a column or a check stands at a place of their list.
fn begins_element(pieces: &Pieces<'_>, at: usize, spot: Spot) -> bool
    ensures { result ≡ starts (element_begins spot) (drop at pieces.now) }
{
    match spot {
        Spot::Opening => pieces.is_name(at),
        Spot::BehindColumn | Spot::BehindCheck => pieces.is_sign(at, b','),
    }
}

/// A column or a check, with the comma before it where it isn't the first.
#[tactic(auto, unfolding(ddl_grammar::specs::TableGrammar::last_element))]
fn element_at(alloc: Global, pieces: &Pieces<'_>, at: usize, spot: Spot) -> Parsed<TableElement>
    ensures { GivesPart pieces.now (λ e. e) result ((element_at spot).read (drop at pieces.now)) }
{
    match spot {
        Spot::Opening => element(alloc, pieces, at),
        Spot::BehindColumn => read!(alloc, pieces, at; , -> element),
        Spot::BehindCheck =>
            read!(alloc, pieces, at; , check: named_check => TableElement::Check(check)),
    }
}

/// Adds a column or a check to its list, and tells where the list stands behind it.
fn put_element(
    element: TableElement,
    columns: &mut Vec<ColumnDef>,
    checks: &mut Vec<CheckDef>,
) -> Result<Spot, AllocError>
    ensures columns { OnOk result (columns.new.items ≡ columns.old.items ++ columns_of (element ∷ [])) }
    ensures checks { OnOk result (checks.new.items ≡ checks.old.items ++ checks_of (element ∷ [])) }
    ensures spot { IfOk result (λ spot. spot ≡ spot_behind element) }
{
    match element {
        TableElement::Column(column) => {
            columns.push(column)?;
            Ok(Spot::BehindColumn)
        }
        TableElement::Check(check) => {
            checks.push(check)?;
            Ok(Spot::BehindCheck)
        }
    }
}

/// Columns and then checks, with commas between them.
fn table_elements(
    alloc: Global,
    pieces: &Pieces<'_>,
    from: usize,
) -> Parsed<(Vec<ColumnDef>, Vec<CheckDef>)>
    ensures { GivesPart pieces.now (λ x. (x.0.items, x.1.items)) result (table_elements.read (drop from pieces.now)) }
{
    let mut columns = Vec::new(alloc);
    let mut checks = Vec::new(alloc);
    let mut spot = Spot::Opening;
    let mut at = from;
    'elements: loop {
        if !begins_element(pieces, at, spot) {
            return Ok(((columns, checks), at));
        }
        let (element, next) = element_at(alloc, pieces, at, spot)?;
        spot = put_element(element, &mut columns, &mut checks)?;
        at = next;
    }
}

/// CREATE TABLE, behind these words.
#[tactic(auto, unfolding(ddl_grammar::specs::Syntax::part, ddl_grammar::specs::LeafParts::leaf_part, ddl_grammar::specs::Grammar::create_table))]
pub fn create_table(alloc: Global, pieces: &Pieces<'_>, at: usize) -> Parsed<Stmt>
    ensures { GivesPart pieces.now (λ s. s) result ((part create_table).read (drop at pieces.now)) }
{
    read!(alloc, pieces, at; q: qualified_name ((columns, checks): table_elements);
        => Stmt::CreateTable { q, columns: Items::new(columns), checks: Items::new(checks) })
}
