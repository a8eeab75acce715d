//! Lists of rights. See <https://www.postgresql.org/docs/16/ddl-priv.html>.
ghost use Rattle.std.specs.Prelude.{◌≡◌};

use crate::rights::Rights;
use copy_text::Name;
use std::marker::Model;

/// What one role, or PUBLIC, was granted by another.
#[derive(Drop)]
pub struct AclItem {
    /// Who has the rights; `None` is PUBLIC.
    pub grantee: Option<Name>,
    /// The rights; there may be none.
    pub rights: Rights,
    /// Who granted them.
    pub grantor: Name,
}

/// A list of rights. A contract sees it as the list of its items.
#[derive(Drop)]
pub struct Acl {
    items: Vec<AclItem>,
}

impl Model for Acl {
    ghost use Rattle.std.specs.Prelude.{List};
    ghost use Rattle.acl_text.specs.declared.list.AclItem.{AclItem};

    ghost Value = { List AclItem };

    ghost view = { λ a. a.items.items };
}

impl Acl {
    /// These items.
    pub fn from_vec(items: Vec<AclItem>) -> Acl
        ensures { result ≡ items.items }
    {
        Acl { items }
    }

    /// The items.
    pub fn as_slice(&self) -> &[AclItem]
        ensures { result.now ≡ self.now }
    {
        &self.items
    }
}
