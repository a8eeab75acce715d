//! Worked examples, each the contract of a function that does nothing.
ghost use Rattle.std.specs.Prelude.{◌≡◌, true, false, None, Some, codes};
ghost use Rattle.cat_model.specs.declared.grant.Owned.TheVariants as owned;
ghost use Rattle.cat_model.specs.declared.stmt.Stmt.TheVariants as stmt;
ghost use Rattle.cat_model.specs.declared.words.What.TheVariants as what;
ghost use Rattle.fmt_text.specs.Examples.{schema, owned_by};
ghost use Rattle.restore_plan.specs.declared.kind.Kind.TheVariants as kind;
ghost use Rattle.restore_steps.specs.Examples.{entry_in};
ghost use Rattle.restore_steps.specs.Faults.{left_out};
ghost use Rattle.restore_steps.specs.Statements.{kind_of, owner_statement};

/// A tablespace is left out unless it is the empty text, and so is a kind that no restore takes, which is told first.
pub fn what_is_left_out()
    ensures taken { left_out (entry_in (codes "TABLE DATA") (Some (codes ""))) ≡ None }
    ensures no_tablespace { left_out (entry_in (codes "FK CONSTRAINT") None) ≡ None }
    ensures tablespace { left_out (entry_in (codes "TABLE") (Some (codes "fast"))) ≡ Some what.Tablespace }
    ensures kind { left_out (entry_in (codes "FUNCTION") (Some (codes ""))) ≡ Some (what.EntryKind (codes "FUNCTION")) }
    ensures kind_first { left_out (entry_in (codes "TRIGGER") (Some (codes "fast"))) ≡ Some (what.EntryKind (codes "TRIGGER")) }
    ensures properties { left_out (entry_in (codes "DATABASE PROPERTIES") None) ≡ Some (what.EntryKind (codes "DATABASE PROPERTIES")) }
{}

/// A schema's owner statement, which it has none without owners; what no role owns by itself has none.
pub fn owner_statements()
    ensures schema { owner_statement true schema ≡ Some (stmt.OwnerTo (owned.Schema (codes "a")) (codes "postgres")) }
    ensures without { owner_statement false schema ≡ None }
    ensures none { owner_statement true owned_by ≡ None }
    ensures in_schema { owner_statement true (entry_in (codes "SEQUENCE") None) ≡ Some (stmt.OwnerTo (owned.Sequence (record { schema = codes "public"; name = codes "t" })) (codes "alice")) }
{}

/// Three kinds of entries are told apart.
pub fn kinds_by_desc()
    ensures table { kind_of (codes "TABLE") ≡ kind.Table }
    ensures rows { kind_of (codes "TABLE DATA") ≡ kind.TableData }
    ensures index { kind_of (codes "INDEX") ≡ kind.Index }
    ensures other { kind_of (codes "FK CONSTRAINT") ≡ kind.Other }
{}
