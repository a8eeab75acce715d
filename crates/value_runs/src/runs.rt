//! Runs of statements, and what they leave: each is the contract of a function that does nothing.
ghost use Rattle.std.specs.Prelude.{◌≡◌};
ghost use Rattle.std.specs.FinMap.{entries};
ghost use Rattle.model_laws.specs.Examples.{postgres, causes, catalogue_after};
ghost use Rattle.model_laws.specs.Runs.{empty_cluster};
ghost use Rattle.value_runs.specs.RunsOne.{run_one, values_one, run_two, values_two, run_three, values_three, run_four, values_four};
ghost use Rattle.value_runs.specs.RunsTwo.{run_five, values_five, run_six, values_six, run_seven, values_seven, run_eight, values_eight};
ghost use Rattle.value_runs.specs.RunsThree.{run_nine, values_nine, run_ten, values_ten, run_eleven, values_eleven, run_twelve, values_twelve};
ghost use Rattle.value_runs.specs.RunsFour.{run_keyed, values_keyed, said_keyed, run_shown, values_shown, said_shown, run_granted, values_granted};

/// What four runs of 83 statements leave, from the export of an empty cluster on: each key with its value. Sequences and
/// tables with keys, enums and domains, rows, a view.
pub fn first_runs_leave_values()
    ensures one { entries (catalogue_after postgres run_one empty_cluster) ≡ values_one }
    ensures two { entries (catalogue_after postgres run_two empty_cluster) ≡ values_two }
    ensures three { entries (catalogue_after postgres run_three empty_cluster) ≡ values_three }
    ensures four { entries (catalogue_after postgres run_four empty_cluster) ≡ values_four }
{}

/// What four runs of 90 statements more leave: rows, values of sequences, a view, checks of a domain, rights that are
/// all taken.
pub fn second_runs_leave_values()
    ensures five { entries (catalogue_after postgres run_five empty_cluster) ≡ values_five }
    ensures six { entries (catalogue_after postgres run_six empty_cluster) ≡ values_six }
    ensures seven { entries (catalogue_after postgres run_seven empty_cluster) ≡ values_seven }
    ensures eight { entries (catalogue_after postgres run_eight empty_cluster) ≡ values_eight }
{}

/// What four runs of 89 statements more leave: what a domain is at the end of its chain, options to grant, roles that
/// don't inherit, a COPY that names its columns.
pub fn third_runs_leave_values()
    ensures nine { entries (catalogue_after postgres run_nine empty_cluster) ≡ values_nine }
    ensures ten { entries (catalogue_after postgres run_ten empty_cluster) ≡ values_ten }
    ensures eleven { entries (catalogue_after postgres run_eleven empty_cluster) ≡ values_eleven }
    ensures twelve { entries (catalogue_after postgres run_twelve empty_cluster) ≡ values_twelve }
{}

/// What three short runs leave, and what the statements of two of them say: which rows have one key and which have a
/// parent, what columns take, views and comments, and what GRANT, REVOKE and a new owner make of rights.
pub fn runs_of_keys_and_rights_leave_values()
    ensures keyed { entries (catalogue_after postgres run_keyed empty_cluster) ≡ values_keyed }
    ensures keyed_said { causes postgres run_keyed empty_cluster ≡ said_keyed }
    ensures shown { entries (catalogue_after postgres run_shown empty_cluster) ≡ values_shown }
    ensures shown_said { causes postgres run_shown empty_cluster ≡ said_shown }
    ensures granted { entries (catalogue_after postgres run_granted empty_cluster) ≡ values_granted }
{}
