//! Sets of rights.
ghost use Rattle.std.specs.Prelude.{◌≡◌};
ghost use Rattle.cat_model.specs.Grants.{both_rights, rights_less, has_rights};

use cat_model::Rights;

/// No rights.
pub const NO_RIGHTS: Rights = Rights {
    select: false,
    usage: false,
    insert: false,
    references: false,
    delete: false,
    trigger: false,
    truncate: false,
    update: false,
    create: false,
};

/// All rights that there are on a table or a view. <https://www.postgresql.org/docs/16/ddl-priv.html>
pub const TABLE_RIGHTS: Rights = Rights {
    select: true,
    insert: true,
    references: true,
    delete: true,
    trigger: true,
    truncate: true,
    update: true,
    ..NO_RIGHTS
};

/// All rights that there are on a sequence.
pub const SEQUENCE_RIGHTS: Rights = Rights {
    select: true,
    usage: true,
    update: true,
    ..NO_RIGHTS
};

/// All rights that there are on a schema.
pub const SCHEMA_RIGHTS: Rights = Rights {
    usage: true,
    create: true,
    ..NO_RIGHTS
};

/// All rights that there are on an enum or a domain.
pub const TYPE_RIGHTS: Rights = Rights {
    usage: true,
    ..NO_RIGHTS
};

/// The rights that are in one of both.
pub fn both_rights(a: Rights, b: Rights) -> Rights
    ensures { result ≡ both_rights a b }
{
    Rights {
        select: a.select | b.select,
        usage: a.usage | b.usage,
        insert: a.insert | b.insert,
        references: a.references | b.references,
        delete: a.delete | b.delete,
        trigger: a.trigger | b.trigger,
        truncate: a.truncate | b.truncate,
        update: a.update | b.update,
        create: a.create | b.create,
    }
}

/// The rights of the first that are not in the second.
pub fn rights_less(a: Rights, b: Rights) -> Rights
    ensures { result ≡ rights_less a b }
{
    Rights {
        select: a.select & !b.select,
        usage: a.usage & !b.usage,
        insert: a.insert & !b.insert,
        references: a.references & !b.references,
        delete: a.delete & !b.delete,
        trigger: a.trigger & !b.trigger,
        truncate: a.truncate & !b.truncate,
        update: a.update & !b.update,
        create: a.create & !b.create,
    }
}

/// Whether there is a right among them.
pub fn has_rights(rights: Rights) -> bool
    ensures { result ≡ has_rights rights }
{
    rights.select
        | rights.usage
        | rights.insert
        | rights.references
        | rights.delete
        | rights.trigger
        | rights.truncate
        | rights.update
        | rights.create
}
