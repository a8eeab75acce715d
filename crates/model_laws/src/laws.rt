//! The laws of the definitions: each is the contract of a function that does nothing.
ghost use Rattle.std.specs.Prelude.{◌≡◌, ◌<◌, Bool, true, false, List, [], ◌∷◌, Result, Ok, Err};
ghost use Rattle.std.specs.List.{list_any};
ghost use Rattle.std.specs.FinMap.{get};
ghost use Rattle.std.specs.Cmp.{IsTotalOrder};
ghost use Rattle.std.specs.Cmp.Lexicographic.{slice_cmp};
ghost use Rattle.std.specs.Ordering.{nat_cmp};
ghost use Rattle.std.specs.declared.cmp.Ordering.TheVariants.{Less, Equal};
ghost use Rattle.cat_model.specs.Effects.{effect};
ghost use Rattle.cat_model.specs.Keys.{key_cmp, key_kind, key_names};
ghost use Rattle.cat_model.specs.Footprints.{footprint_of, GivesParents};
ghost use Rattle.cat_model.specs.Marks.{IsWithin, Agree, key_meets, conflict};
ghost use Rattle.cat_model.specs.Trees.{Tree, Seen, seen, outcome, run, next};
ghost use Rattle.cat_model.specs.Values.{Bytes, Named};
ghost use Rattle.cat_model.specs.declared.object.QName.{QName};
ghost use Rattle.cat_model.specs.declared.footprint.Footprint.{Footprint};
ghost use Rattle.cat_model.specs.declared.key.Key.{Key};
ghost use Rattle.cat_model.specs.declared.stmt.Stmt.{Stmt};
ghost use Rattle.cat_model.specs.declared.key.Key.TheVariants as key;
ghost use Rattle.cat_model.specs.declared.cause.Cause.TheVariants as cause;
ghost use Rattle.cat_model.specs.declared.stmt.Stmt.TheVariants as stmt;

/// Keys are ordered by kind and then by their names, one after another, and keys that compare alike are one key.
pub fn keys_are_ordered()
    ensures total { IsTotalOrder key_cmp }
    ensures same { (a b : Key) → key_cmp a b ≡ Equal → a ≡ b }
    ensures kinds { (a b : Key) → key_kind a < key_kind b → key_cmp a b ≡ Less }
    ensures names { (a b : Key) → key_kind a ≡ key_kind b → key_cmp a b ≡ slice_cmp (slice_cmp nat_cmp) (key_names a) (key_names b) }
{}

/// What a tree says depends only on what its footprint reads.
pub fn outcomes_depend_on_reads()
    ensures same { (f : Footprint) (s t : Seen) (tree : Tree) → IsWithin f s tree → Agree f.reads s t → outcome tree s ≡ outcome tree t }
    ensures within { (f : Footprint) (s t : Seen) (tree : Tree) → IsWithin f s tree → Agree f.reads s t → IsWithin f t tree }
{}

/// A tree changes only the keys that its footprint writes.
pub fn only_writes_change()
    ensures { (f : Footprint) (tree : Tree) (named : Named) (k : Key) → IsWithin f (seen named) tree → list_any (key_meets k) f.writes ≡ false → get (next tree named) k ≡ get named k }
{}

/// Two trees whose footprints don't conflict change places: the second says after the first what it says before it,
/// and both orders leave the same catalogue.
pub fn trees_change_places()
    ensures says { (f g : Footprint) (s t : Tree) (named : Named) → IsWithin f (seen named) s → IsWithin g (seen named) t → conflict f g ≡ false → outcome t (seen (next s named)) ≡ outcome t (seen named) }
    ensures within { (f g : Footprint) (s t : Tree) (named : Named) → IsWithin f (seen named) s → IsWithin g (seen named) t → conflict f g ≡ false → IsWithin g (seen (next s named)) t }
    ensures leaves { (f g : Footprint) (s t : Tree) (named : Named) → IsWithin f (seen named) s → IsWithin g (seen named) t → conflict f g ≡ false → next t (next s named) ≡ next s (next t named) }
{}

/// Each statement stays within its footprint: a COPY where the pairs hold each foreign key of its table, all others always.
pub fn statements_stay_within_footprints()
    ensures { (boot : Bytes) (s : Stmt) (parents : List (QName × QName)) (named : Named) → GivesParents parents named s → IsWithin (footprint_of s parents) (seen named) (effect boot s) }
{}

/// A second CREATE SCHEMA of one name is refused.
pub fn second_schema_is_refused()
    ensures { (boot name : Bytes) (named after : Named) → run (effect boot (stmt.CreateSchema name)) named ≡ Ok after → run (effect boot (stmt.CreateSchema name)) after ≡ Err (cause.Exists (key.Schema name)) }
{}
