//! Laws of the definitions, each the contract of a function that does nothing.
ghost use Rattle.std.specs.Prelude.{◌≡◌, ◌↔◌, Some, None};
ghost use Rattle.cat_rows.specs.declared.catalogue.Catalogue.{Catalogue};
ghost use Rattle.cat_rows.specs.declared.table.SysTable.{SysTable};
ghost use Rattle.cat_names.specs.declared.fault.CatFault.{CatFault};
ghost use Rattle.well_formed.specs.Catalogues.{all_tables, catalogue_fault, table_fault};
ghost use Rattle.well_formed.specs.Firsts.{IsFirstAmong};
ghost use Rattle.well_formed.specs.Formed.{IsWellFormed};

/// The fault that a catalogue has by its definition is the first of the first table that has one.
pub fn the_first_table_is_told()
    ensures { (cat : Catalogue) (fault : CatFault) → catalogue_fault cat ≡ Some fault → IsFirstAmong cat all_tables fault }
{}

/// A catalogue has no fault exactly where none of its tables has one.
pub fn well_formed_tables_are_all()
    ensures { (cat : Catalogue) → (catalogue_fault cat ≡ None) ↔ ((table : SysTable) → table_fault cat table ≡ None) }
{}

/// A catalogue has no fault exactly where it is well-formed: each table's rows meet its conditions, said row by row and pair
/// by pair.
pub fn well_formed_is_without_fault()
    ensures { (cat : Catalogue) → (catalogue_fault cat ≡ None) ↔ IsWellFormed cat }
{}
