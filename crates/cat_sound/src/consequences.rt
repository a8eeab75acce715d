//! What follows of soundness, as the rows of a catalogue have to meet it: each is the contract of a function that does
//! nothing.
ghost use Rattle.std.specs.Prelude.{◌≡◌, ℕ, true, List, [], Some};
ghost use Rattle.std.specs.FinMap.{get};
ghost use Rattle.std.specs.List.{AllByRecursion};
ghost use Rattle.cat_model.specs.KeyEffects.{index_path};
ghost use Rattle.cat_model.specs.Trees.{is_unique};
ghost use Rattle.cat_model.specs.Values.{Bytes, Named};
ghost use Rattle.cat_model.specs.declared.key.Key.TheVariants as key;
ghost use Rattle.cat_model.specs.declared.object.QName.{QName};
ghost use Rattle.cat_model.specs.declared.value.Column.{Column};
ghost use Rattle.cat_model.specs.declared.value.Constraint.{Constraint};
ghost use Rattle.cat_model.specs.declared.value.Domain.{Domain};
ghost use Rattle.cat_model.specs.declared.value.Index.{Index};
ghost use Rattle.cat_model.specs.declared.value.Value.TheVariants as value;
ghost use Rattle.cat_sound.specs.Asked.{Asked};
ghost use Rattle.cat_sound.specs.Ends.{followed};
ghost use Rattle.cat_sound.specs.Sound.{IsMet, IsSound};
ghost use Rattle.cat_sound.specs.Texts.{Texts};

/// What a domain and each column of a table keep of their type is what following its chain of domains gives.
pub fn ends_are_what_chains_give()
    ensures domains { (texts : Texts) (named : Named) (q : QName) (d : Domain) → IsSound texts named → get named (key.UserType q) ≡ Some (value.Domain d) → (n : ℕ) × (followed n named d.base ≡ Some d.resolved) }
    ensures columns { (texts : Texts) (named : Named) (q : QName) (columns : List Column) → IsSound texts named → get named (key.Rel q) ≡ Some (value.Table columns) → AllByRecursion (λ (c : Column). (n : ℕ) × (followed n named c.type_name ≡ Some c.resolved)) columns }
{}

/// An index is that of one key, or one that stands alone; its table is there.
pub fn indexes_have_one_owner()
    ensures keys { (texts : Texts) (named : Named) (t u : QName) (a b : Bytes) (c d : Constraint) → IsSound texts named → get named (key.Con t a) ≡ Some (value.Constraint c) → is_unique c.kind ≡ true → get named (key.Con u b) ≡ Some (value.Constraint d) → is_unique d.kind ≡ true → index_path t a ≡ index_path u b → (t ≡ u) × (a ≡ b) }
    ensures indexes { (texts : Texts) (named : Named) (t u : QName) (a b : Bytes) (i j : Index) → IsSound texts named → get named (key.Index t a) ≡ Some (value.Index i) → get named (key.Index u b) ≡ Some (value.Index j) → index_path t a ≡ index_path u b → (t ≡ u) × (a ≡ b) }
    ensures apart { (texts : Texts) (named : Named) (t u : QName) (a b : Bytes) (i : Index) (c : Constraint) → IsSound texts named → get named (key.Index t a) ≡ Some (value.Index i) → get named (key.Con u b) ≡ Some (value.Constraint c) → is_unique c.kind ≡ true → index_path t a ≡ index_path u b → ⊥ }
    ensures table { (texts : Texts) (named : Named) (q table : QName) → IsSound texts named → get named (key.Rel q) ≡ Some (value.IndexOf table) → IsMet named (key.Rel table, Asked.has_columns []) }
{}
