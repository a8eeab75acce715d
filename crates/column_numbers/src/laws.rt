//! Numbers of columns rise, and those that rose are kept. Each law is the contract of a function that does nothing.
ghost use Rattle.std.specs.Prelude.{◌≡◌, ℕ, List, Some};
ghost use Rattle.std.specs.FinMap.{empty, entries, get};
ghost use Rattle.std.specs.List.{slice_get};
ghost use Rattle.cat_model.specs.declared.key.Key.TheVariants as key;
ghost use Rattle.cat_model.specs.declared.object.QName.{QName};
ghost use Rattle.cat_model.specs.declared.value.Column.{Column};
ghost use Rattle.cat_model.specs.declared.value.Value.TheVariants as value;
ghost use Rattle.cat_model.specs.Values.{Named};
ghost use Rattle.column_numbers.specs.Numbers.{NumbersOf, number_of};
ghost use Rattle.column_numbers.specs.Rising.{HaveApartNames, AreRising, HadRising};
ghost use Rattle.column_numbers.specs.Rule.{with_entries};

/// The numbers of the columns of each table rise from 1 up, whichever they had.
pub fn numbers_rise()
    ensures { (named : Named) (had : NumbersOf) → HaveApartNames named → AreRising named (number_of (with_entries had (entries named) empty)) }
{}

/// A table whose columns had numbers that rise, with room behind each for the columns behind it, keeps them.
pub fn numbers_are_kept()
    ensures { (named : Named) (had : NumbersOf) → HaveApartNames named → (q : QName) (columns : List Column) (i : ℕ) (c : Column) → get named (key.Rel q) ≡ Some (value.Table columns) → HadRising had q 0 columns → slice_get columns i ≡ Some c → number_of (with_entries had (entries named) empty) q c.name ≡ number_of had q c.name }
{}
