//! Rights. See <https://www.postgresql.org/docs/16/ddl-priv.html>.
ghost use Rattle.std.specs.Prelude.{◌≡◌};

use std::marker::Model;

/// A right on an object, in the order in which PostgreSQL writes their letters.
#[derive(Clone, Copy)]
pub enum Privilege {
    /// `a`: INSERT.
    Insert,
    /// `r`: SELECT.
    Select,
    /// `w`: UPDATE.
    Update,
    /// `d`: DELETE.
    Delete,
    /// `D`: TRUNCATE.
    Truncate,
    /// `x`: REFERENCES.
    References,
    /// `t`: TRIGGER.
    Trigger,
    /// `U`: USAGE.
    Usage,
    /// `C`: CREATE.
    Create,
}

/// A right as it was granted.
#[derive(Clone, Copy)]
pub struct Right {
    /// The right.
    pub privilege: Privilege,
    /// Whether the grantee may grant it, which a `*` behind the letter says.
    pub grant_option: bool,
}

/// Rights in the order of their letters. A contract sees them as a list.
#[derive(Drop)]
pub struct Rights {
    rights: Vec<Right>,
}

impl Model for Rights {
    ghost use Rattle.std.specs.Prelude.{List};
    ghost use Rattle.acl_text.specs.declared.rights.Right.{Right};

    ghost Value = { List Right };

    ghost view = { λ r. r.rights.items };
}

impl Rights {
    /// These rights.
    pub fn from_vec(rights: Vec<Right>) -> Rights
        ensures { result ≡ rights.items }
    {
        Rights { rights }
    }

    /// The rights.
    pub fn as_slice(&self) -> &[Right]
        ensures { result.now ≡ self.now }
    {
        &self.rights
    }
}
