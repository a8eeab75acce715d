//! Which names a pattern hits.
ghost use Rattle.std.specs.Prelude.{◌≡◌, ◌≤◌, List, Option, Some, None, length};
ghost use Rattle.patterns.specs.declared.hits.Left.TheVariants as left;
ghost use Rattle.patterns.specs.Matching.{goes_on, behind_character, matches, schema_matches, hits};
ghost use Rattle.patterns.specs.Left.{left_of, is_found, found_in, seen};

use crate::atom::Atom;
use crate::pattern::Pattern;

/// What is left of a part and of a name where the part was followed up to its first `*`, or to its end.
#[derive(Clone, Copy)]
enum Left<'a, 'b> {
    /// The part has ended; this is left of the name.
    End(&'b [u8]),
    /// The atoms behind the `*`, and the name.
    Many(&'a [Atom], &'b [u8]),
}

/// What stands behind the bytes that go on with a character.
fn behind_character(mut name: &[u8]) -> &[u8]
    ensures { result.now ≡ behind_character name.now }
{
    while let [byte, rest @ ..] = name
        && (128..192).contains(byte)
    {
        name = rest;
    }
    name
}

/// Follows a part up to its first `*`, or to its end. None where the name differs before.
fn follow<'a, 'b>(mut atoms: &'a [Atom], mut name: &'b [u8]) -> Option<Left<'a, 'b>>
    ensures { seen result ≡ left_of atoms.now name.now }
{
    'atoms: while let [atom, later @ ..] = atoms {
        name = match (atom, name) {
            (Atom::Many, _) => return Some(Left::Many(later, name)),
            (Atom::One, [_, rest @ ..]) => behind_character(rest),
            (Atom::Byte(byte), [first, rest @ ..]) if byte == first => rest,
            _ => return None,
        };
        atoms = later;
    }
    Some(Left::End(name))
}

/// Whether the part was followed up to a `*`, or to its end and that of the name.
fn is_found(left: &Option<Left<'_, '_>>) -> bool
    ensures { result ≡ is_found (seen left.now) }
{
    match left {
        None => false,
        Some(Left::End(name)) => name.is_empty(),
        Some(Left::Many(..)) => true,
    }
}

/// Looks for the first place of a name from which a part can be followed up to its next `*`, or to the name's end.
#[tactic(auto, using(crate::proofs::Following::found_here))]
fn find<'a, 'b>(atoms: &'a [Atom], mut name: &'b [u8]) -> Option<Left<'a, 'b>>
    ensures { seen result ≡ found_in atoms.now name.now }
{
    'places: loop {
        let left = follow(atoms, name);
        if is_found(&left) {
            return left;
        }
        match name {
            [] => return None,
            [_, rest @ ..] => name = rest,
        }
    }
}

/// Whether a part is the whole name. What stands before each `*` is followed from the first place that will do, since
/// a later one would leave less: no more than atoms times bytes steps.
#[tactic(auto, using(crate::proofs::Following::left_says, crate::proofs::Following::found_says, crate::proofs::Following::stars_found))]
fn matches(atoms: &[Atom], name: &[u8]) -> bool
    ensures { result ≡ matches atoms.now name.now }
{
    let mut left = follow(atoms, name);
    'parts: loop {
        match left {
            None => return false,
            Some(Left::End(rest)) => return rest.is_empty(),
            Some(Left::Many(later, rest)) => left = find(later, rest),
        }
    }
}

/// Whether a pattern hits the name in the schema: both of its parts are the whole of theirs. A pattern without a
/// schema part hits names in the schema `public` alone. It takes no memory, and no more steps than bytes of the
/// pattern times bytes of schema and name.
#[tactic(auto, unfolding(crate::specs::Matching::hits))]
pub fn pattern_hits(pattern: &Pattern, schema: &str, name: &str) -> bool
    ensures { result ≡ hits pattern.now schema.now name.now }
{
    schema_matches(pattern, schema) && matches(pattern.name().atoms(), name.as_bytes())
}

/// Whether the schema part is the whole name of the schema, which is `public` where there is no part.
fn schema_matches(pattern: &Pattern, schema: &str) -> bool
    ensures { result ≡ schema_matches pattern.now.schema schema.now }
{
    match pattern.schema() {
        None => schema == "public",
        Some(part) => matches(part.atoms(), schema.as_bytes()),
    }
}
