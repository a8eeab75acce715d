//! The order of keys, and what follows it: equality and hashes.
ghost use Rattle.std.specs.Prelude.{◌≡◌, refl};
ghost use Rattle.std.specs.Ordering.{as_partial_cmp, eq_by_cmp};
ghost use Rattle.std.specs.Cmp.{eq_by_cmp_equiv, partial_equiv_from_equiv, po};
ghost use Rattle.cat_model.specs.Keys.{key_cmp, key_kind};
ghost use Rattle.cat_model.specs.KeyLaws.{key_cmp_total};

use crate::key::Key;
use std::cmp::Ordering;

// The place of the key's kind among the kinds.
fn kind(key: &Key) -> u8
    ensures { result ≡ key_kind key.now }
{
    match key {
        Key::Role(_) => 0,
        Key::Member(..) => 1,
        Key::Schema(_) => 2,
        Key::UserType(_) => 3,
        Key::Rel(_) => 4,
        Key::Owner(_) => 5,
        Key::Default(..) => 6,
        Key::Con(..) => 7,
        Key::Index(..) => 8,
        Key::Rows(_) => 9,
        Key::SeqVal(_) => 10,
        Key::OwnedBy(_) => 11,
        Key::Acl(_) => 12,
        Key::Comment(_) => 13,
        Key::Body(_) => 14,
        Key::Database(_) => 15,
    }
}

fn compare(a: &Key, b: &Key) -> Ordering
    ensures { result ≡ key_cmp a.now b.now }
{
    match (a, b) {
        (Key::Role(x), Key::Role(y)) => x.cmp(y),
        (Key::Schema(x), Key::Schema(y)) => x.cmp(y),
        (Key::Database(x), Key::Database(y)) => x.cmp(y),
        (Key::Member(x, m, g), Key::Member(y, n, h)) => x
            .cmp(y)
            .then_with(|| m.cmp(n))
            .then_with(|| g.cmp(h)),
        (Key::UserType(x), Key::UserType(y)) => x.cmp(y),
        (Key::Rel(x), Key::Rel(y)) => x.cmp(y),
        (Key::Rows(x), Key::Rows(y)) => x.cmp(y),
        (Key::SeqVal(x), Key::SeqVal(y)) => x.cmp(y),
        (Key::OwnedBy(x), Key::OwnedBy(y)) => x.cmp(y),
        (Key::Body(x), Key::Body(y)) => x.cmp(y),
        (Key::Owner(x), Key::Owner(y)) => x.cmp(y),
        (Key::Acl(x), Key::Acl(y)) => x.cmp(y),
        (Key::Comment(x), Key::Comment(y)) => x.cmp(y),
        (Key::Default(x, m), Key::Default(y, n)) => x.cmp(y).then_with(|| m.cmp(n)),
        (Key::Con(x, m), Key::Con(y, n)) => x.cmp(y).then_with(|| m.cmp(n)),
        (Key::Index(x, m), Key::Index(y, n)) => x.cmp(y).then_with(|| m.cmp(n)),
        _ => kind(a).cmp(&kind(b)),
    }
}

impl PartialEq for Key {
    ghost eq = { eq_by_cmp key_cmp };

    ghost laws = { partial_equiv_from_equiv (eq_by_cmp_equiv key_cmp_total) };

    fn eq(&self, other: &Key) -> bool {
        compare(self, other).is_eq()
    }
}

impl Eq for Key {
    ghost laws = { eq_by_cmp_equiv key_cmp_total };
}

impl PartialOrd for Key {
    ghost partial_cmp = { as_partial_cmp key_cmp };

    ghost laws = { po key_cmp_total (λ x y. refl) };

    fn partial_cmp(&self, other: &Key) -> Option<Ordering> {
        Some(self.cmp(other))
    }
}

impl Ord for Key {
    ghost cmp = { key_cmp };

    ghost total = { key_cmp_total };

    ghost matches_partial_cmp = { λ x y. refl };

    ghost matches_eq = { λ x y. refl };

    fn cmp(&self, other: &Key) -> Ordering {
        compare(self, other)
    }
}
