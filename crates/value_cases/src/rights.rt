//! Rights on objects.
use crate::parts::{put_between, put_if, put_name};
use cat_model::{Grants, Holder, Item, Rights};
use std::alloc::AllocError;

fn put_right(has: bool, option: bool, letter: &[u8], out: &mut Vec<u8>) -> Result<(), AllocError> {
    if has {
        out.extend_from_slice(letter)?;
        put_if(option, b"*", out)?;
    }
    Ok(())
}

fn put_table_rights(has: &Rights, may: &Rights, out: &mut Vec<u8>) -> Result<(), AllocError> {
    put_right(has.insert, may.insert, b"a", out)?;
    put_right(has.select, may.select, b"r", out)?;
    put_right(has.update, may.update, b"w", out)?;
    put_right(has.delete, may.delete, b"d", out)?;
    put_right(has.truncate, may.truncate, b"D", out)?;
    put_right(has.references, may.references, b"x", out)?;
    put_right(has.trigger, may.trigger, b"t", out)
}

fn put_item(item: &Item, out: &mut Vec<u8>) -> Result<(), AllocError> {
    put_table_rights(&item.rights, &item.options, out)?;
    put_right(item.rights.usage, item.options.usage, b"U", out)?;
    put_right(item.rights.create, item.options.create, b"C", out)
}

fn put_holder(holder: &Holder, out: &mut Vec<u8>) -> Result<(), AllocError> {
    match holder {
        Holder::Owner => out.extend_from_slice(b"owner "),
        Holder::Public => out.extend_from_slice(b"public "),
        Holder::Role(name) => {
            out.extend_from_slice(b"role ")?;
            put_name(name, out)?;
            out.extend_from_slice(b" ")
        }
    }
}

/// Appends who has rights, and which.
pub(crate) fn put_grants(grants: &Grants, out: &mut Vec<u8>) -> Result<(), AllocError> {
    let mut any = false;
    for (i, (holder, item)) in grants.iter().enumerate() {
        put_between(i, b", ", out)?;
        put_holder(holder, out)?;
        put_item(item, out)?;
        any = true;
    }
    put_if(!any, b"nobody", out)
}
