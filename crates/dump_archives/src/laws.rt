//! Laws of the definitions, each the contract of a function that does nothing.
ghost use Rattle.std.specs.Prelude.{◌≡◌, ℕ, List, length, Some};
ghost use Rattle.dump_ports.specs.Tree.{Tree, overwritten};
ghost use Rattle.toc_entry.specs.declared.entry.Entry.{Entry};
ghost use Rattle.toc_entry.specs.declared.head.Head.{Head};
ghost use Rattle.dump_files.specs.declared.file.DataFile.{DataFile};
ghost use Rattle.dump_archives.specs.Customs.{first_front, unplaced_out, custom_front, custom_written};

/// The head and the entries are as long with the places of the blocks as without them, so that a file has its last text once
/// they are written anew in their place.
pub fn places_are_told_in_place()
    ensures as_long { (tree : Tree) (head : Head) (entries : List Entry) (needed : List DataFile) → length (custom_front tree head entries needed) ≡ length (first_front head entries) }
    ensures written { (tree : Tree) (name : List ℕ) (head : Head) (entries : List Entry) (needed : List DataFile) → custom_written tree (Some name) head entries needed ≡ overwritten 0 (custom_front tree head entries needed) (unplaced_out tree head entries needed).text }
{}
