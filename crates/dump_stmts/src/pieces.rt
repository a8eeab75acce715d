//! Pieces of statements as they are written.
ghost use Rattle.std.specs.Prelude.{◌≡◌, ◌++◌, OnOk};
ghost use Rattle.sql_lex.specs.Written.{written_name};
ghost use Rattle.ddl_write.specs.Paths.{path};
ghost use Rattle.ddl_write.specs.Tables.{type_text};

use cat_model::{QName, TypeName};
use copy_text::Name;
use sql_lex::write_name;
use std::alloc::AllocError;

/// Appends words and a name.
pub fn put_name(words: &[u8], name: &Name, out: &mut Vec<u8>) -> Result<(), AllocError>
    ensures { OnOk result (out.new.items ≡ out.old.items ++ (words.now ++ written_name name.now)) }
{
    out.extend_from_slice(words)?;
    write_name(name.as_bytes(), out)
}

/// Appends words and a path.
#[tactic(auto, unfolding(ddl_spelling::specs::Paths::path))]
pub fn put_path(words: &[u8], q: &QName, out: &mut Vec<u8>) -> Result<(), AllocError>
    ensures { OnOk result (out.new.items ≡ out.old.items ++ (words.now ++ path q.now)) }
{
    out.extend_from_slice(words)?;
    write_name(q.schema.as_bytes(), out)?;
    out.extend_from_slice(b".")?;
    write_name(q.name.as_bytes(), out)
}

/// Appends words and a type.
#[tactic(auto, unfolding(ddl_spelling::specs::Tables::type_text))]
pub(crate) fn put_type(
    words: &[u8],
    type_name: &TypeName,
    out: &mut Vec<u8>,
) -> Result<(), AllocError>
    ensures { OnOk result (out.new.items ≡ out.old.items ++ (words.now ++ type_text type_name.now)) }
{
    match type_name {
        TypeName::Words(text) => {
            out.extend_from_slice(words)?;
            out.extend_from_slice(text.as_bytes())
        }
        TypeName::Path(q) => put_path(words, q, out),
    }
}
