//! Laws of the definitions, each the contract of a function that does nothing.
ghost use Rattle.std.specs.Prelude.{◌≡◌, ◌↔◌, ℕ, List, Some, None, true};
ghost use Rattle.cat_rows.specs.declared.types.TypeRow.{TypeRow};
ghost use Rattle.cat_names.specs.declared.fault.LineFault.{LineFault};
ghost use Rattle.cat_names.specs.Firsts.{IsFirstFault};
ghost use Rattle.cat_book.specs.Chains.{ends_within, chain_ends};
ghost use Rattle.cat_book.specs.Meets.{Meets};
ghost use Rattle.cat_book.specs.Rules.{Rules, found, ending, fault_by};
ghost use Rattle.table_laws.specs.Clusters as of_clusters;
ghost use Rattle.table_laws.specs.Objects as of_objects;
ghost use Rattle.table_laws.specs.Types as of_types;
ghost use Rattle.table_laws.specs.Columns as of_columns;
ghost use Rattle.table_laws.specs.OwnRows as of_own_rows;
ghost use Rattle.table_laws.specs.Constraints as of_constraints;
ghost use Rattle.table_laws.specs.Whole as of_all;

/// The fault that the rows of a table have by its rules is that of the first row which has one, behind the rows before it,
/// or, where no row has one, that of the table's end at the line after the last.
pub fn faults_are_first<C, R>()
    ensures { (rules : Rules C R) (cat : C) (rows : List R) (f : LineFault) → fault_by rules cat rows ≡ Some f → IsFirstFault (found rules cat) (ending rules cat) rows f }
{}

/// The rows of a table have no fault exactly where they meet the conditions of its rules, said row by row and pair by pair.
pub fn tables_without_faults_meet_their_rules<C, R>()
    ensures { (rules : Rules C R) (cat : C) (rows : List R) → (fault_by rules cat rows ≡ None) ↔ Meets rules cat rows }
{}

/// A chain of bases that ends after any number of types is counted as one that ends.
pub fn chains_end_within_the_types()
    ensures { (types : List TypeRow) (row : TypeRow) (n : ℕ) → ends_within n types row ≡ true → chain_ends types row ≡ true }
{}

/// Worked examples of roles, memberships, databases and schemas, computed from the definitions.
pub fn clusters_meet_the_examples()
    ensures schemas { of_clusters.Schemas }
    ensures roles { of_clusters.Roles }
    ensures members { of_clusters.Members }
    ensures databases { of_clusters.Databases }
{}

/// Worked examples of labels, relations, comments and dependencies.
pub fn objects_meet_the_examples()
    ensures labels { of_objects.Labels }
    ensures relations { of_objects.Relations }
    ensures comments { of_objects.Comments }
    ensures depends { of_objects.Depends }
{}

/// Worked examples of types: of their rows, of the texts of bases, of chains of domains and of defaults.
pub fn types_meet_the_examples()
    ensures rows { of_types.Rows }
    ensures bases { of_types.Bases }
    ensures chains { of_types.Chains }
    ensures defaults { of_types.Defaults }
{}

/// Worked examples of columns and of their defaults.
pub fn columns_meet_the_examples()
    ensures columns { of_columns.Columns }
    ensures defaults { of_columns.Defaults }
    ensures both { of_columns.Both }
{}

/// Worked examples of indexes, sequences and views, with their texts.
pub fn own_rows_meet_the_examples()
    ensures indexes { of_own_rows.Indexes }
    ensures sequences { of_own_rows.Sequences }
    ensures views { of_own_rows.Views }
{}

/// Worked examples of constraints, with their texts.
pub fn constraints_meet_the_examples()
    ensures texts { of_constraints.Texts }
    ensures rows { of_constraints.Rows }
    ensures keys { of_constraints.Keys }
    ensures foreign_keys { of_constraints.ForeignKeys }
    ensures checks { of_constraints.Checks }
{}

/// Worked examples of whole catalogues: two without a fault, and one of them after one change.
pub fn catalogues_meet_the_examples()
    ensures clean { of_all.Clean }
    ensures schemas { of_all.Schemas }
    ensures types { of_all.Types }
    ensures defaults { of_all.Defaults }
    ensures constraints { of_all.Constraints }
    ensures views { of_all.Views }
    ensures notes { of_all.Notes }
{}
