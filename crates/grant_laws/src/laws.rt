//! Laws of the definitions, each the contract of a function that does nothing.
ghost use Rattle.std.specs.Prelude.{◌≡◌, List, Some};
ghost use Rattle.std.specs.List.{AllByRecursion};
ghost use Rattle.acl_text.specs.declared.list.AclItem.{AclItem};
ghost use Rattle.cat_model.specs.declared.grant.Granted.{Granted};
ghost use Rattle.cat_model.specs.declared.stmt.Stmt.{Stmt};
ghost use Rattle.cat_model.specs.Values.{Bytes};
ghost use Rattle.ddl_grammar.specs.Respelling.{AllWritable};
ghost use Rattle.ddl_grammar.specs.Writable.{IsObject};
ghost use Rattle.dump_grants.specs.Stmts.{grant_stmts};
ghost use Rattle.grant_laws.specs.Items.{kind_on, IsRoleName, IsItem};

/// The statements for a list of rights can be written, where each item that gives rights gives such as the kind of object has,
/// to PUBLIC or to a role, and a role owns the object.
pub fn grants_can_be_written()
    ensures { (what : Granted) (owner : Bytes) (items : List AclItem) (statements : List Stmt)
        → IsObject what → IsRoleName owner → AllByRecursion (IsItem (kind_on what)) items
        → grant_stmts (kind_on what) what owner (Some items) ≡ Some statements → AllWritable statements }
{}
