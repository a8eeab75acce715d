//! Laws of the definitions, each the contract of a function that does nothing.
ghost use Rattle.std.specs.Prelude.{◌≡◌, Bool, ℕ, List, ◌++◌, Ok};
ghost use Rattle.toc_entry.specs.declared.entry.Entry.{Entry};
ghost use Rattle.toc_table.specs.Writing.{toc_text, TocFits};
ghost use Rattle.toc_parts.specs.Laws.{Lawful};
ghost use Rattle.toc_table.specs.Tables.{toc};

/// What is read of a table of contents is spelled so; what is spelled so is read, whatever follows; and what is written
/// for entries that fit spells them.
pub fn tables_have_their_laws()
    ensures { (directory : Bool) → Lawful (toc directory) }
{}

/// What is written of entries with distinct dump ids reads as they, whatever follows.
pub fn what_is_written_is_read()
    ensures { (directory : Bool) (es : List Entry) (rest : List ℕ) → TocFits directory es → (toc directory).read (toc_text es ++ rest) ≡ Ok (es, rest) }
{}
