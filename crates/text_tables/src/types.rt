//! The conditions of pg_type.
ghost use Rattle.std.specs.Prelude.{◌≡◌, IfOk};
ghost use Rattle.cat_book.specs.Chains.{is_domain_letter};
ghost use Rattle.text_tables.specs.Types.{is_there, is_good_default, is_good_domain, is_bad_type, kind_left_out, type_left_out, type_rules};

use crate::agreeing::{is_met_default, is_type_named};
use cat_book::{Book, Conditions, RowKeys, Unmet};
use cat_model::{QName, What};
use cat_names::{GrantKind, is_bad_acl, is_by_other, left_out_first};
use cat_rows::{Letter, TypeRow};
use copy_text::Text;
use plain_tables::other_left_out;
use std::alloc::{AllocError, Global};

fn is_domain_letter(letter: Letter) -> bool
    ensures { result ≡ is_domain_letter letter }
{
    letter.byte() == b'd'
}

// Whether a type's schema, its owner and its base are there.
fn is_there(book: &Book<'_>, row: &TypeRow) -> bool
    ensures { result ≡ is_there book.now row.now }
{
    book.has_schema(row.typnamespace)
        && book.roles().has(row.typowner)
        && book.is_base_there(row.typbasetype)
}

// Whether a default, if there is one, is an expression whose references are met.
fn is_good_default(
    alloc: Global,
    book: &Book<'_>,
    own: &Option<QName>,
    default: &Option<Text>,
) -> Result<bool, AllocError>
    ensures { IfOk result (λ is. is ≡ is_good_default book.now own.now default.now) }
{
    match default {
        Some(text) => is_met_default(alloc, book, own, text),
        None => Ok(true),
    }
}

// Whether a domain's base is named, the chain of its bases ends, and its default is good.
fn is_good_domain(alloc: Global, book: &Book<'_>, row: &TypeRow) -> Result<bool, AllocError>
    ensures { IfOk result (λ good. good ≡ is_good_domain book.now row.now) }
{
    let own = book.type_path(row)?;
    let named = is_type_named(alloc, book, row.typbasetype, &row.basetext)?;
    let good = is_good_default(alloc, book, &own, &row.typdefault)?;
    Ok(named && book.chain_ends(row) && good)
}

// Whether a type's list of rights is bad, or the domain that it is.
fn is_bad_type(alloc: Global, book: &Book<'_>, row: &TypeRow) -> Result<bool, AllocError>
    ensures { IfOk result (λ bad. bad ≡ is_bad_type book.now row.now) }
{
    if is_bad_acl(alloc, GrantKind::Type, book.roles(), &row.typacl)? {
        return Ok(true);
    }
    if is_domain_letter(row.typtype) {
        Ok(!is_good_domain(alloc, book, row)?)
    } else {
        Ok(false)
    }
}

// Types are enums and domains.
fn kind_left_out(letter: Letter) -> Option<What>
    ensures { result ≡ kind_left_out letter }
{
    match letter.byte() {
        b'e' | b'd' => None,
        other => Some(What::TypeKind(other)),
    }
}

// The first of what is left out.
fn type_left_out(book: &Book<'_>, row: &TypeRow) -> Option<What>
    ensures { result ≡ type_left_out book.now row.now }
{
    let by_other = is_by_other(book.role_name(row.typowner), &row.typacl);
    left_out_first(kind_left_out(row.typtype), other_left_out(by_other))
}

/// pg_type: oids are distinct, and names within a schema; schemas, owners and bases are there; the rights are those of
/// types; domains name their bases in chains that end, and their defaults are expressions whose references are met.
/// <https://www.postgresql.org/docs/16/catalog-pg-type.html>
pub struct Types {}

impl<'b> Conditions<Book<'b>> for Types {
    type Row = TypeRow;

    ghost rules = { type_rules };

    fn keys(row: &TypeRow) -> RowKeys<'_>
        ensures { result ≡ type_rules.keys row.now }
    {
        RowKeys::named_in(row.oid, row.typnamespace, row.typname.as_bytes())
    }

    fn unmet(alloc: Global, book: &Book<'b>, row: &TypeRow) -> Result<Unmet, AllocError> {
        let is_bad = is_bad_type(alloc, book, row)?;
        Ok(Unmet {
            dangles: !is_there(book, row),
            is_bad,
            left_out: type_left_out(book, row),
        })
    }

    fn needed(_book: &Book<'b>) -> bool {
        true
    }
}
