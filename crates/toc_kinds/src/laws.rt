//! Laws of the definitions, each the contract of a function that does nothing.
ghost use Rattle.std.specs.Prelude.{◌≡◌, List, Ok};
ghost use Rattle.std.specs.List.{AllByRecursion};
ghost use Rattle.cat_rows.specs.declared.catalogue.Catalogue.{Catalogue};
ghost use Rattle.dump_toc.specs.Toc.{toc};
ghost use Rattle.obj_graph.specs.declared.select.Select.{Select};
ghost use Rattle.toc_entry.specs.declared.entry.Entry.{Entry};
ghost use Rattle.toc_kinds.specs.Kinds.{IsOfDump};

/// The entries of a dump of any catalogue: rows are the data of tables, and no entry but the first four sets up the session or
/// makes the database, or is listed as what another needs while it does.
pub fn dumps_have_such_entries()
    ensures { (cat : Catalogue) (select : Select) (entries : List Entry) → toc cat select ≡ Ok entries → AllByRecursion IsOfDump entries }
{}
