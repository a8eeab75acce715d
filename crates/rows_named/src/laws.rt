//! Laws of the definitions, each the contract of a function that does nothing.
ghost use Rattle.std.specs.Prelude.{◌≡◌, false};
ghost use Rattle.std.specs.FinMap.{get};
ghost use Rattle.std.specs.Option.{option_map};
ghost use Rattle.cat_rows.specs.declared.catalogue.Catalogue.{Catalogue};
ghost use Rattle.cat_model.specs.declared.key.Key.{Key};
ghost use Rattle.cat_model.specs.declared.key.Key.TheVariants as key;
ghost use Rattle.cat_model.specs.declared.object.QName.{QName};
ghost use Rattle.cat_model.specs.declared.value.Value.TheVariants as value;
ghost use Rattle.cat_naming.specs.Entries.{catalogue_named};
ghost use Rattle.cat_naming.specs.Relations.{RowsByOid};
ghost use Rattle.rows_named.specs.Tables.{is_rows, first_table};

/// Of what a catalogue stands for only the rows of tables depend on their texts: under a path stand those of the first
/// table of the path, and under any other key what stands there whatever the rows are.
pub fn rows_stand_under_their_paths()
    ensures others { (cat : Catalogue) (rows other : RowsByOid) (k : Key) → is_rows k ≡ false → get (catalogue_named cat rows) k ≡ get (catalogue_named cat other) k }
    ensures rows { (cat : Catalogue) (rows : RowsByOid) (p : QName) → get (catalogue_named cat rows) (key.Rows p) ≡ option_map (λ oid. value.Rows (rows oid)) (first_table cat p cat.pg_class) }
{}
