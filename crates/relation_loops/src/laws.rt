//! Rows of types and relations stand for those of a catalogue. Each law is the contract of a function that does nothing.
ghost use Rattle.std.specs.Prelude.{◌≡◌, List};
ghost use Rattle.std.specs.FinMap.{entries};
ghost use Rattle.std.specs.List.{filter_map};
ghost use Rattle.cat_model.specs.Values.{Named};
ghost use Rattle.cat_rows.specs.declared.relations.ClassRow.{ClassRow};
ghost use Rattle.cat_rows.specs.declared.types.TypeRow.{TypeRow};
ghost use Rattle.cat_sound.specs.Sound.{IsSound};
ghost use Rattle.cat_sound.specs.Texts.{Texts};
ghost use Rattle.map_export.specs.Making.{AreSaid};
ghost use Rattle.object_rows.specs.Relations.{IsRelation, IsRelationRow};
ghost use Rattle.object_rows.specs.Types.{IsType, IsTypeRow};
ghost use Rattle.named_tables.specs.Oids.{Oids, AreOids};
ghost use Rattle.named_tables.specs.Standing.{AreRowsOf};
ghost use Rattle.relation_loops.specs.Wholes.{type_in, relation_in};

/// The rows of types and relations that the entries of a catalogue say, one of each in the order of keys, stand for all types
/// and relations of a catalogue that is in order.
pub fn wholes_stand()
    ensures types { (texts : Texts) (named : Named) (oids : Oids) (rows : List TypeRow) → IsSound texts named → AreOids named oids → AreSaid (IsTypeRow oids) (filter_map (type_in named) (entries named)) rows → AreRowsOf (IsType named) (IsTypeRow oids) rows }
    ensures relations { (texts : Texts) (named : Named) (oids : Oids) (rows : List ClassRow) → IsSound texts named → AreOids named oids → AreSaid (IsRelationRow named oids) (filter_map (relation_in named) (entries named)) rows → AreRowsOf (IsRelation named) (IsRelationRow named oids) rows }
{}
