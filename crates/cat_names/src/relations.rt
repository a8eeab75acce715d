//! What relations are.
ghost use Rattle.std.specs.Prelude.{◌≡◌};
ghost use Rattle.cat_names.specs.Kinds.{relation_kind};

use cat_rows::Letter;

/// What a relation is. <https://www.postgresql.org/docs/16/catalog-pg-class.html>
#[derive(Clone, Copy)]
pub enum RelationKind {
    /// A table, `r`.
    Table,
    /// A view, `v`.
    View,
    /// A sequence, `S`.
    Sequence,
    /// An index, `i`.
    Index,
    /// Another kind, by its letter.
    Other(u8),
}

/// What a relation of this letter is.
pub fn relation_kind(letter: Letter) -> RelationKind
    ensures { result ≡ relation_kind letter }
{
    match letter.byte() {
        b'r' => RelationKind::Table,
        b'v' => RelationKind::View,
        b'S' => RelationKind::Sequence,
        b'i' => RelationKind::Index,
        other => RelationKind::Other(other),
    }
}
