//! Worked examples, and what follows of the definitions for whole classes of them: each is the contract of a function
//! that does nothing.
ghost use Rattle.std.specs.Prelude.{◌≡◌, ℕ, Bool, true, false, ◌||◌, List, [], ◌∷◌, ◌++◌, Option, Some, None, codes, map};
ghost use Rattle.std.specs.FinMap.{get, entries};
ghost use Rattle.model_laws.specs.Examples.{causes, catalogue_after, opening, postgres, public, setvals, bigints, children, equal_rows, domains, views};
ghost use Rattle.cat_model.specs.Footprints.{footprint_of, is_given};
ghost use Rattle.cat_model.specs.Grants.{granted, revoked, joined, both_items, item_or_none, rights_less, has_rights};
ghost use Rattle.cat_model.specs.Marks.{conflict};
ghost use Rattle.model_laws.specs.Runs.{empty_cluster, run_one, said_one, keys_one, run_two, said_two, keys_two, run_three, said_three, keys_three, run_four, said_four, keys_four};
ghost use Rattle.cat_model.specs.Trees.{same_path};
ghost use Rattle.cat_model.specs.declared.value.Value.TheVariants as value;
ghost use Rattle.cat_model.specs.declared.holder.Holder.{Holder};
ghost use Rattle.cat_model.specs.declared.holder.Item.{Item};
ghost use Rattle.cat_model.specs.declared.holder.Holder.TheVariants.{Owner as OWNER, Role as ROLE};
ghost use Rattle.cat_model.specs.Values.{Bytes, Grants};
ghost use Rattle.cat_model.specs.declared.cause.Cause.{Cause};
ghost use Rattle.cat_model.specs.declared.cause.Cause.TheVariants as cause;
ghost use Rattle.cat_model.specs.declared.grant.Rights.{Rights};
ghost use Rattle.cat_model.specs.declared.key.Key.TheVariants as key;
ghost use Rattle.cat_model.specs.declared.object.QName.{QName};
ghost use Rattle.cat_model.specs.declared.stmt.Stmt.TheVariants as stmt;

/// What each of some statements says, one after another: a sequence's value below its minimum, a number that isn't a
/// `bigint`, rows without a parent, rows with equal keys, a domain that its own check names, the references of views.
pub fn statements_meet_the_examples()
    ensures setvals { causes postgres setvals opening ≡ None ∷ Some cause.OutOfRange ∷ None ∷ [] }
    ensures bigints { causes postgres bigints opening ≡ None ∷ None ∷ Some (cause.BadValue 1 1) ∷ Some (cause.BadValue 1 2) ∷ [] }
    ensures kept { get (catalogue_after postgres bigints opening) (key.Rows (public (codes "t"))) ≡ Some (value.Rows ((Some (codes "9223372036854775807") ∷ []) ∷ [])) }
    ensures children { causes postgres children opening ≡ None ∷ None ∷ None ∷ None ∷ None ∷ Some (cause.NoParent (codes "c_fk") 3) ∷ None ∷ None ∷ [] }
    ensures equal_rows { causes postgres equal_rows opening ≡ None ∷ None ∷ Some (cause.Duplicate (codes "t_n_key") 2 3) ∷ Some (cause.NullValue 1 5) ∷ Some (cause.Duplicate (codes "t_i") 2 3) ∷ None ∷ [] }
    ensures domains { causes postgres domains opening ≡ None ∷ Some (cause.Absent (key.UserType (public (codes "e")))) ∷ [] }
    ensures views { causes postgres views opening ≡ None ∷ None ∷ Some (cause.Absent (key.Rel (public (codes "q")))) ∷ [] }
{}

/// What each statement of four runs says, from the export of an empty cluster on, and which keys are there at the end.
pub fn runs_end_as_worked_out()
    ensures one { causes postgres run_one empty_cluster ≡ said_one }
    ensures one_keys { map (λ e. e.0) (entries (catalogue_after postgres run_one empty_cluster)) ≡ keys_one }
    ensures two { causes postgres run_two empty_cluster ≡ said_two }
    ensures two_keys { map (λ e. e.0) (entries (catalogue_after postgres run_two empty_cluster)) ≡ keys_two }
    ensures three { causes postgres run_three empty_cluster ≡ said_three }
    ensures three_keys { map (λ e. e.0) (entries (catalogue_after postgres run_three empty_cluster)) ≡ keys_three }
    ensures four { causes postgres run_four empty_cluster ≡ said_four }
    ensures four_keys { map (λ e. e.0) (entries (catalogue_after postgres run_four empty_cluster)) ≡ keys_four }
{}

/// COPYs of two tables conflict exactly where a foreign key pairs them, one way or the other.
pub fn copies_meet_where_paired()
    ensures { (p q : QName) (some more : List Bytes) (rows others : List ℕ) (parents : List (QName × QName)) → same_path p q ≡ false → conflict (footprint_of (stmt.CopyRows p some rows) parents) (footprint_of (stmt.CopyRows q more others) parents) ≡ (is_given parents q p || is_given parents p q) }
{}

/// The grant that a new owner had joins the owner's, and the new owner has no item of its own.
pub fn new_owner_keeps_its_rights()
    ensures owner { (role : Bytes) (grants : Grants) (item : Item) → get grants (ROLE role) ≡ Some item → get (joined role grants) OWNER ≡ Some (both_items item (item_or_none (get grants OWNER))) }
    ensures role { (role : Bytes) (grants : Grants) (item : Item) → get grants (ROLE role) ≡ Some item → get (joined role grants) (ROLE role) ≡ None }
    ensures none { (role : Bytes) (grants : Grants) → get grants (ROLE role) ≡ None → joined role grants ≡ grants }
{}

/// REVOKE takes the options of rights with the rights, and an item without rights goes.
pub fn options_go_with_rights()
    ensures some { (rights : Rights) (holder : Holder) (grants : Grants) (item : Item) → get grants holder ≡ Some item → has_rights (rights_less item.rights rights) ≡ true → get (revoked rights holder grants) holder ≡ Some (record { rights = rights_less item.rights rights; options = rights_less item.options rights }) }
    ensures none { (rights : Rights) (holder : Holder) (grants : Grants) (item : Item) → get grants holder ≡ Some item → has_rights (rights_less item.rights rights) ≡ false → get (revoked rights holder grants) holder ≡ None }
{}
