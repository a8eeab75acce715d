//! Laws of the definitions, each the contract of a function that does nothing.
ghost use Rattle.std.specs.Prelude.{◌≡◌, ℕ, List, nat_eq};
ghost use Rattle.std.specs.List.{All, IsDistinct, slice_get};
ghost use Rattle.std.specs.Option.{IsSomeAnd};
ghost use Rattle.oid_groups.specs.Examples.{Groups, FirstPlaces};
ghost use Rattle.oid_groups.specs.Groups.{Key, group_of};

/// Worked examples, computed from the definitions.
pub fn worked_examples()
    ensures groups { Groups }
    ensures first_places { FirstPlaces }
{}

/// Each place of a group is that of a key of the oid, and no two of them are one.
pub fn places_of_a_group()
    ensures of_oid { (keys : List Key) (oid : ℕ) → All (λ place. IsSomeAnd (slice_get keys place) (λ key. key.0 ≡ oid)) (group_of keys oid) }
    ensures distinct { (keys : List Key) (oid : ℕ) → IsDistinct nat_eq (group_of keys oid) }
{}
