//! Laws of the definitions, each the contract of a function that does nothing.
ghost use Rattle.std.specs.Prelude.{◌≡◌, ℕ, true, List, ◌++◌, Ok};
ghost use Rattle.toc_entry.specs.declared.entry.Entry.{Entry};
ghost use Rattle.toc_layout.specs.Heads.{HeadFields, head};
ghost use Rattle.toc_layout.specs.Values.{IsHead};
ghost use Rattle.toc_layout.specs.Writable.{HeadCanBeWritten};
ghost use Rattle.toc_table.specs.Writing.{toc_text, TocFits};
ghost use Rattle.fmt_directory.specs.Directories.{toc_dat_in, is_directory};

/// The `toc.dat` that is written of a directory's head and of entries with distinct dump ids reads as they.
pub fn what_is_written_is_read()
    ensures { (folder : List ℕ) (h : HeadFields) (es : List Entry) → IsHead h → HeadCanBeWritten h → is_directory h.format ≡ true → TocFits true es → toc_dat_in folder (head.write h ++ toc_text es) ≡ Ok (record { folder = folder; head = h; entries = es }) }
{}
