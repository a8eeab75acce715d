//! Laws of the definitions, each the contract of a function that does nothing.
ghost use Rattle.std.specs.Prelude.{◌≡◌, Bool, List, Ok};
ghost use Rattle.std.specs.List.{AllByRecursion};
ghost use Rattle.std.specs.Str.{IsUtf8};
ghost use Rattle.ddl_laws.specs.located.Located.{Located};
ghost use Rattle.ddl_laws.specs.Reading.{statements_of};
ghost use Rattle.ddl_laws.specs.Spellings.{said};
ghost use Rattle.fmt_text.specs.Script.{script};
ghost use Rattle.toc_entry.specs.declared.head.Head.{Head};
ghost use Rattle.script_laws.specs.Examples.{Examples};
ghost use Rattle.script_laws.specs.Scripts.{AllEntries, rows_of, IsStated, script_statements};

use copy_text::laws::tests_are_exact;
use ddl_laws::laws::{laid_out_statements_are_read, what_was_read_can_be_written};

/// A script reads as the statements that prepare the session, and then those of its entries in order, and as no others.
pub fn scripts_read_as_their_statements()
    ensures { (head : Head) (entries : AllEntries) (owners : Bool)
        → IsUtf8 head.server → IsUtf8 head.dumper → AllByRecursion (λ e. IsStated e.0 (rows_of e)) entries
        → (found : List Located) × (statements_of (script head entries owners) ≡ Ok found)
        × (said found ≡ script_statements owners entries) }
{
    laid_out_statements_are_read();
    what_was_read_can_be_written();
    tests_are_exact();
}

/// Worked examples, computed from the definitions: what a schema, a table, its rows and the owner of a sequence say.
pub fn entries_meet_the_examples()
    ensures { Examples }
{}
