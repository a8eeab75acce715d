//! Laws of the definitions, each the contract of a function that does nothing.
ghost use Rattle.std.specs.Prelude.{◌≡◌, true, false, Option, Some};
ghost use Rattle.dump_ports.specs.Tree.{Tree};
ghost use Rattle.restore_folders.specs.Written.{is_written};
ghost use Rattle.restore_tools.specs.Due.{Restoring, ending};
ghost use Rattle.restore_tools.specs.Standing.{Restored, ReadsBack};

/// Once a restore has run, its folder is read as an export which stands for what its entries make of the opening one after
/// another, whatever was there before; a restore that was undone has changed no file.
pub fn folders_read_as_what_is_left()
    ensures written { (plan : Restoring) (before after : Option Tree) (tree : Tree) → Restored plan before after → before ≡ Some tree → is_written plan.how (ending plan).stopped ≡ true → ReadsBack plan after }
    ensures undone { (plan : Restoring) (before after : Option Tree) → Restored plan before after → is_written plan.how (ending plan).stopped ≡ false → after ≡ before }
{}
