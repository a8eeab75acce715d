//! Laws of the definitions, each the contract of a function that does nothing.
ghost use Rattle.std.specs.Prelude.{◌≡◌, ℕ, ◌+◌, ◌<◌, ◌^◌, true, false, slice_index_or, slice_set, List, [], ◌∷◌, ◌++◌, length, Some, None, Ok};
ghost use Rattle.std.specs.List.{AllByRecursion};
ghost use Rattle.dump_ports.specs.Tree.{overwritten};
ghost use Rattle.toc_entry.specs.declared.entry.Entry.{Entry};
ghost use Rattle.toc_layout.specs.Heads.{HeadFields};
ghost use Rattle.fmt_custom.specs.Blocks.{piece};
ghost use Rattle.fmt_custom.specs.Customs.{custom_in, pieces_of};
ghost use Rattle.fmt_custom.specs.Stored.{Stored, CustomFits, open_block, block_by, custom_text, custom_of, rows_of, entries_of, all_placed, placed_at, first_placed, place_of, first_place};
ghost use Rattle.fmt_custom.specs.Worked.{worked_head, worked_stored};
ghost use Rattle.fmt_custom.specs.Writing.{front_text, start_text, placed_entry};

/// A block as the calls of a writer make it: what begins it, each piece behind those before, and the end.
pub fn blocks_grow_by_pieces()
    ensures begins { (id : ℕ) → open_block id [] ≡ start_text id }
    ensures grows { (id : ℕ) (ps : List (List ℕ)) (p : List ℕ) → open_block id (ps ++ p ∷ []) ≡ open_block id ps ++ piece.write (Some p) }
    ensures ends { (id : ℕ) (ps : List (List ℕ)) → open_block id ps ++ piece.write None ≡ block_by true id ps }
{}

/// A whole archive that is written reads as what was written: its head, its entries and the pieces of the rows of each.
pub fn what_is_written_is_read()
    ensures read { (h : HeadFields) (ss : List Stored) → CustomFits h ss → custom_in (custom_text h ss) ≡ Ok (custom_of h ss) }
    ensures rows { (h : HeadFields) (ss : List Stored) → CustomFits h ss
        → AllByRecursion (λ s. pieces_of s.entry.dump_id (custom_of h ss).found ≡ rows_of s) ss }
{}

/// A small archive that can be written.
pub fn worked_example()
    ensures { CustomFits worked_head worked_stored }
{}

/// Where entries with rows are told the places of their blocks one after another, by `CustomWriter::place`, all of them
/// have them in the end.
pub fn places_are_told_one_by_one()
    ensures told { (k at : ℕ) (ss : List Stored) (e : Entry) → k < length ss → (slice_index_or (entries_of ss) k e).has_rows ≡ true
        → slice_set (entries_of (first_placed k at ss)) k (placed_entry (place_of k at ss) (slice_index_or (entries_of (first_placed k at ss)) k e))
        ≡ entries_of (first_placed (k + 1) at ss) }
    ensures none { (k at : ℕ) (ss : List Stored) (e : Entry) → k < length ss → (slice_index_or (entries_of ss) k e).has_rows ≡ false
        → entries_of (first_placed (k + 1) at ss) ≡ entries_of (first_placed k at ss) }
    ensures all { (at : ℕ) (ss : List Stored) → first_placed (length ss) at ss ≡ placed_at at ss }
{}

/// Where the entries are told the places of their blocks and the front is written anew in its place, its length stays,
/// and the archive reads as what was written, with these places.
pub fn what_is_patched_is_read()
    ensures length { (h : HeadFields) (ss : List Stored) → CustomFits h ss
        → length (front_text h (entries_of (all_placed h ss))) ≡ first_place h ss }
    ensures fits { (h : HeadFields) (ss : List Stored) → CustomFits h ss → length (custom_text h ss) < 2 ^ 64
        → CustomFits h (all_placed h ss) }
    ensures read { (h : HeadFields) (ss : List Stored) → CustomFits h ss → length (custom_text h ss) < 2 ^ 64
        → custom_in (overwritten 0 (front_text h (entries_of (all_placed h ss))) (custom_text h ss)) ≡ Ok (custom_of h (all_placed h ss)) }
{}
