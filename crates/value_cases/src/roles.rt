//! Roles and memberships.
use crate::parts::{put_if, put_nullable, put_number};
use cat_model::{Membership, Role};
use std::alloc::AllocError;

/// Appends the attributes of a role.
pub(crate) fn put_role(role: &Role, out: &mut Vec<u8>) -> Result<(), AllocError> {
    put_if(role.superuser, b"superuser ", out)?;
    put_if(role.inherit, b"inherit ", out)?;
    put_if(role.create_role, b"createrole ", out)?;
    put_if(role.create_db, b"createdb ", out)?;
    put_if(role.login, b"login ", out)?;
    put_if(role.replication, b"replication ", out)?;
    put_if(role.bypass_rls, b"bypassrls ", out)?;
    out.extend_from_slice(b"limit ")?;
    put_number(role.limit, out)?;
    out.extend_from_slice(b" password ")?;
    put_nullable(&role.password, out)?;
    out.extend_from_slice(b" until ")?;
    put_nullable(&role.valid_until, out)
}

/// Appends what a membership allows.
pub(crate) fn put_member(member: &Membership, out: &mut Vec<u8>) -> Result<(), AllocError> {
    let options: [(bool, &[u8]); 3] = [
        (member.admin, b"admin"),
        (member.inherit, b"inherit"),
        (member.set, b"set"),
    ];
    let mut any = false;
    for (allowed, word) in options {
        if allowed {
            put_if(any, b" ", out)?;
            out.extend_from_slice(word)?;
            any = true;
        }
    }
    put_if(!any, b"nothing", out)
}
