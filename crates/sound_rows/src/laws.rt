//! Laws of the definitions, each the contract of a function that does nothing.
ghost use Rattle.std.specs.Prelude.{◌≡◌, ℕ, List, Option, Some, true, false};
ghost use Rattle.acl_text.specs.declared.list.AclItem.{AclItem};
ghost use Rattle.cat_rows.specs.declared.roles.AuthidRow.{AuthidRow};
ghost use Rattle.cat_model.specs.Values.{Bytes};
ghost use Rattle.cat_names.specs.declared.rights.GrantKind.{GrantKind};
ghost use Rattle.cat_names.specs.Grants.{grants_of};
ghost use Rattle.cat_names.specs.Rights.{is_bad_acl};
ghost use Rattle.sound_rows.specs.Granted.{AreGranted};

/// A list of rights that isn't bad, and null too, stands for grants in order.
pub fn good_lists_of_rights_are_grants_in_order()
    ensures { (kind : GrantKind) (roles : List AuthidRow) (owner : Bytes) (acl : Option (List AclItem)) → is_bad_acl kind roles acl ≡ false → AreGranted kind roles owner (grants_of kind owner acl) }
{}
