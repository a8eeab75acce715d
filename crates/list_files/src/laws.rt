//! Laws of the definitions, each the contract of a function that does nothing.
ghost use Rattle.std.specs.Prelude.{◌≡◌, [], ◌∷◌, Some, None, Ok, Err, true, codes};
ghost use Rattle.entry_choices.specs.Examples.{plain};
ghost use Rattle.entry_choices.specs.Choices.{wanted_places};
ghost use Rattle.list_files.specs.declared.fault.ListFault.TheVariants as faults;
ghost use Rattle.list_files.specs.Edits.{edited, chosen};
ghost use Rattle.list_files.specs.Lists.{list_text, entries_at};
ghost use Rattle.list_files.specs.Examples.{serial, head, serial_list, strange, early, strange_list};

/// Worked examples of list files, computed from the definitions. Places count from 0.
pub fn worked_edits()
    ensures edit { edited serial (codes "; note\n\n6; x\n5\n6;\n") ≡ Ok (0 ∷ 1 ∷ 2 ∷ 5 ∷ 4 ∷ []) }
    ensures unknown { edited serial (codes "; note\n\n6; x\n5\n6;\n99") ≡ Err (faults.UnknownId 6) }
    ensures no_number { edited serial (codes "six\n99") ≡ Err (faults.NotANumber 1) }
    ensures blanks { edited serial (codes " \t 007 \t; x\n \t\n2;") ≡ Ok (0 ∷ 1 ∷ 2 ∷ 6 ∷ []) }
    ensures carriage_return { edited serial (codes "7\n5\r\n") ≡ Err (faults.NotANumber 2) }
    ensures past_32_bits { edited serial (codes "4294967301") ≡ Err (faults.UnknownId 1) }
    ensures empty { edited serial [] ≡ Ok (0 ∷ 1 ∷ 2 ∷ []) }
{}

/// Worked examples of lists, and of a list file together with options.
pub fn worked_lists()
    ensures list { list_text head (entries_at serial (wanted_places plain serial)) ≡ serial_list }
    ensures strange { list_text early (strange ∷ []) ≡ strange_list }
    ensures chosen { chosen (record plain { data_only = true }) serial (Some (codes "11\n6\n4\n10\n")) ≡ Ok (0 ∷ 1 ∷ 2 ∷ 10 ∷ 9 ∷ []) }
    ensures all { chosen plain serial None ≡ Ok (0 ∷ 1 ∷ 2 ∷ 4 ∷ 5 ∷ 6 ∷ 7 ∷ 8 ∷ 9 ∷ 10 ∷ []) }
{}
