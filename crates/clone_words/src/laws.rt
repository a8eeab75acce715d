//! Laws of the definitions, each the contract of a function that does nothing.
ghost use Rattle.std.specs.Prelude.{◌≡◌, ℕ, List, Some, false};
ghost use Rattle.command_line.specs.Checks.{lies_in};
ghost use Rattle.clone_words.specs.declared.asked.CloneAsked.{CloneAsked};
ghost use Rattle.clone_words.specs.Words.{clone_in};

/// Words that read never ask for a clone whose archive lies in the folder that is dumped, or in the one that is restored into.
pub fn a_clone_is_written_outside_of_its_folders()
    ensures source { (words : List (List ℕ)) (asked : CloneAsked) → clone_in words ≡ Some asked → lies_in asked.source asked.archive ≡ false }
    ensures target { (words : List (List ℕ)) (asked : CloneAsked) → clone_in words ≡ Some asked → lies_in asked.target asked.archive ≡ false }
{}
