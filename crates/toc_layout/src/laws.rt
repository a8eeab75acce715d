//! Laws of the definitions, each the contract of a function that does nothing.
ghost use Rattle.std.specs.Prelude.{◌≡◌, Bool, ℕ, List, ◌++◌, Ok};
ghost use Rattle.toc_parts.specs.Laws.{Lawful};
ghost use Rattle.toc_entry.specs.declared.entry.Entry.{Entry};
ghost use Rattle.toc_layout.specs.Entries.{dump_id, body, entry};
ghost use Rattle.toc_layout.specs.Heads.{HeadFields, head};
ghost use Rattle.toc_layout.specs.Values.{IsHead, IsEntry};
ghost use Rattle.toc_layout.specs.Writable.{HeadCanBeWritten, EntryCanBeWritten, is_file, entry_text};

/// What is read of a head and of an entry is spelled so; what is spelled so is read, whatever follows; and what is
/// written for a value that fits spells it.
pub fn head_and_entry_have_their_laws()
    ensures head { Lawful head }
    ensures entry { (directory : Bool) → Lawful (entry directory) }
    ensures dump_id { Lawful dump_id }
    ensures body { (directory : Bool) → Lawful (body directory) }
{}

/// What is written reads as what was written, whatever follows it.
pub fn what_is_written_is_read()
    ensures head { (h : HeadFields) (rest : List ℕ) → IsHead h → HeadCanBeWritten h → head.read (head.write h ++ rest) ≡ Ok (h, rest) }
    ensures entry { (e : Entry) (rest : List ℕ) → IsEntry e → EntryCanBeWritten e → (entry (is_file e.extra)).read (entry_text e ++ rest) ≡ Ok (e, rest) }
{}
