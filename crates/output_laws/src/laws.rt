//! What dumps write, beside the scripts and archives of the same entries and rows.
ghost use Rattle.std.specs.Prelude.{◌≡◌, ℕ, Bool, List, Option, None};
ghost use Rattle.std.specs.Global.{Vec};
ghost use Rattle.dump_ports.specs.Tree.{Tree};
ghost use Rattle.toc_entry.specs.declared.entry.Entry.{Entry};
ghost use Rattle.toc_entry.specs.declared.head.Head.{Head};
ghost use Rattle.toc_layout.specs.Heads.{head_seen};
ghost use Rattle.fmt_text.specs.Script.{script};
ghost use Rattle.fmt_custom.specs.Stored.{Stored, custom_text};
ghost use Rattle.dump_files.specs.declared.file.DataFile.{DataFile};
ghost use Rattle.dump_plain.specs.Dumps.{plain_out};
ghost use Rattle.dump_archives.specs.Customs.{custom_out, unplaced_out, custom_written};
ghost use Rattle.output_laws.specs.Pairs.{HaveTexts, HavePieces, written_entries};

/// A plain dump is the script of its entries with the texts of their rows, where no row fails: so it is what is written of an
/// archive that holds these.
pub fn a_plain_dump_is_a_script()
    ensures { (tree : Tree) (head : Head) (owners : Bool) (entries : List Entry) (needed : List DataFile) (stored : List (Entry × Option (Vec ℕ))) → HaveTexts tree entries needed stored
        → ((plain_out tree head owners entries needed).bad ≡ None) × ((plain_out tree head owners entries needed).text ≡ script head stored owners) }
{}

/// A dump in the custom format is the archive of its entries with the pieces of their rows, where no row fails.
pub fn a_custom_dump_is_an_archive()
    ensures { (tree : Tree) (head : Head) (entries : List Entry) (needed : List DataFile) (stored : List Stored) → HavePieces tree entries needed stored
        → ((custom_out tree head entries needed).bad ≡ None) × ((custom_out tree head entries needed).text ≡ custom_text (head_seen head) stored) }
{}

/// What a dump in the custom format writes in the end is such an archive: to standard output of entries that tell no place, and
/// in a file of those that tell the places of their blocks.
pub fn a_written_dump_is_an_archive()
    ensures { (tree : Tree) (target : Option (List ℕ)) (head : Head) (entries : List Entry) (needed : List DataFile) (stored : List Stored) → HavePieces tree (written_entries tree target head entries needed) needed stored
        → ((unplaced_out tree head entries needed).bad ≡ None) × (custom_written tree target head entries needed ≡ custom_text (head_seen head) stored) }
{}
