//! Types of columns and domains.
ghost use Rattle.std.specs.Prelude.{◌≡◌};

use crate::object::QName;
use copy_text::Text;
use std::alloc::AllocError;

/// A type as a statement names it.
#[derive(PartialEq, Eq, Drop)]
pub enum TypeName {
    /// Words, as `character varying(20)`: the text from its first token to its last.
    Words(Text),
    /// A qualified name: an enum or a domain, or a type of a system schema.
    Path(QName),
}

impl Clone for TypeName {
    ghost is_clone = { λ a b. b ≡ a };

    fn clone(&self) -> Result<TypeName, AllocError> {
        match self {
            TypeName::Words(text) => Ok(TypeName::Words(text.clone()?)),
            TypeName::Path(q) => Ok(TypeName::Path(q.clone()?)),
        }
    }
}
