//! Tables made of the entries of a catalogue stand for it. Each law is the contract of a function that does nothing.
ghost use Rattle.std.specs.Prelude.{◌≡◌, List};
ghost use Rattle.std.specs.FinMap.{entries};
ghost use Rattle.std.specs.List.{filter_map, flat_map};
ghost use Rattle.cat_model.specs.Values.{Named};
ghost use Rattle.cat_rows.specs.declared.constraints.ConstraintRow.{ConstraintRow};
ghost use Rattle.cat_rows.specs.declared.notes.DescriptionRow.{DescriptionRow};
ghost use Rattle.cat_rows.specs.declared.relations.AttrdefRow.{AttrdefRow};
ghost use Rattle.cat_rows.specs.declared.relations.AttributeRow.{AttributeRow};
ghost use Rattle.cat_rows.specs.declared.relations.IndexRow.{IndexRow};
ghost use Rattle.cat_rows.specs.declared.relations.RewriteRow.{RewriteRow};
ghost use Rattle.cat_rows.specs.declared.sequences.SequenceRow.{SequenceRow};
ghost use Rattle.cat_rows.specs.declared.types.EnumRow.{EnumRow};
ghost use Rattle.cat_sound.specs.Sound.{IsSound};
ghost use Rattle.cat_sound.specs.Texts.{Texts};
ghost use Rattle.map_export.specs.Making.{AreSaid};
ghost use Rattle.named_objects.specs.Constraints.{IsConstrained, IsConstrainedRow, IsComment, IsCommentRow};
ghost use Rattle.named_objects.specs.Oids.{ObjectOids, AreNumbers, AreCheckOids, AreLabelOids};
ghost use Rattle.named_objects.specs.Relations.{IsColumn, IsColumnRow, IsDefault, IsDefaultRow, IsSequence, IsSequenceRow, IsIndex, IsIndexRow, IsBody, IsBodyRow};
ghost use Rattle.named_objects.specs.Types.{IsLabel, label_row};
ghost use Rattle.named_tables.specs.Oids.{AreOids};
ghost use Rattle.named_tables.specs.Standing.{AreRowsOf};
ghost use Rattle.object_export.specs.Parts.{default_in, index_in, body_in, comment_in, sequence_in, labels_in, columns_in, constrained_in};

/// The rows of labels, columns, defaults, constraints, indexes, sequences, bodies and comments, one of each in the order of keys, stand
/// for the catalogue where oids and numbers are apart.
pub fn parts_stand()
    ensures labels { (named : Named) (oids : ObjectOids) (rows : List EnumRow) → AreLabelOids named oids → AreSaid (λ l row. row ≡ label_row oids l) (flat_map labels_in (entries named)) rows → AreRowsOf (IsLabel named) (λ l row. row ≡ label_row oids l) rows }
    ensures columns { (named : Named) (oids : ObjectOids) (rows : List AttributeRow) → AreOids named oids.of → AreNumbers named oids.number → AreSaid (IsColumnRow oids) (flat_map columns_in (entries named)) rows → AreRowsOf (IsColumn named) (IsColumnRow oids) rows }
    ensures defaults { (named : Named) (oids : ObjectOids) (rows : List AttrdefRow) → AreOids named oids.of → AreSaid (IsDefaultRow oids) (filter_map default_in (entries named)) rows → AreRowsOf (IsDefault named) (IsDefaultRow oids) rows }
    ensures constraints { (named : Named) (oids : ObjectOids) (rows : List ConstraintRow) → AreOids named oids.of → AreCheckOids named oids → AreSaid (IsConstrainedRow oids) (flat_map constrained_in (entries named)) rows → AreRowsOf (IsConstrained named) (IsConstrainedRow oids) rows }
    ensures indexes { (texts : Texts) (named : Named) (oids : ObjectOids) (rows : List IndexRow) → IsSound texts named → AreOids named oids.of → AreSaid (IsIndexRow oids.of) (filter_map index_in (entries named)) rows → AreRowsOf (IsIndex named) (IsIndexRow oids.of) rows }
    ensures sequences { (named : Named) (oids : ObjectOids) (rows : List SequenceRow) → AreOids named oids.of → AreSaid (IsSequenceRow named oids) (filter_map (sequence_in named) (entries named)) rows → AreRowsOf (IsSequence named) (IsSequenceRow named oids) rows }
    ensures comments { (texts : Texts) (named : Named) (oids : ObjectOids) (rows : List DescriptionRow) → IsSound texts named → AreOids named oids.of → AreNumbers named oids.number → AreSaid (IsCommentRow oids) (filter_map comment_in (entries named)) rows → AreRowsOf (IsComment named) (IsCommentRow oids) rows }
    ensures bodies { (named : Named) (oids : ObjectOids) (rows : List RewriteRow) → AreOids named oids.of → AreSaid (IsBodyRow oids.of) (filter_map body_in (entries named)) rows → AreRowsOf (IsBody named) (IsBodyRow oids.of) rows }
{}
