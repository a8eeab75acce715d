//! Where the reading of a view's body stands: the brackets that are open, and whether a relation's name may follow.
ghost use Rattle.std.specs.Prelude.{◌≡◌, ◌&&◌, OnOk, map};
ghost use Rattle.cat_model.specs.Lexemes.{is_one_of};
ghost use Rattle.cat_model.specs.References.{start, opened, closed_to, listing_now, expecting, from_counts, walked, moved, behind, place_after, list_ends, own_from};
ghost use Rattle.stmt_refs.specs.Said.{said};
ghost use Rattle.stmt_refs.specs.Places.{place};

use crate::lexeme::Lexeme;
use std::alloc::{AllocError, Global};

// A bracket: whether a FROM list is open in it, and whether it is that of a function with a FROM of its own.
#[derive(Clone, Copy)]
pub(crate) struct Bracket {
    listing: bool,
    own: bool,
}

/// Where reading stands.
#[derive(Drop)]
pub(crate) struct Place {
    // The innermost open bracket, and those around it, the innermost last.
    inner: Bracket,
    outer: Vec<Bracket>,
    // Whether DISTINCT, or a function with a FROM of its own, stands right before.
    distinct: bool,
    calls_own: bool,
    // Whether a qualified name here would be a relation, and how many lexemes of such a name are still to come.
    pub(crate) expects: bool,
    passing: u8,
}

// The words that end a FROM list.
fn ends_list(x: &Lexeme) -> bool
    ensures { result ≡ is_one_of list_ends (said x.now) }
{
    x.is_word(b"where")
        || x.is_word(b"group")
        || x.is_word(b"having")
        || x.is_word(b"window")
        || x.is_word(b"order")
        || x.is_word(b"limit")
        || x.is_word(b"offset")
        || x.is_word(b"fetch")
        || x.is_word(b"for")
        || x.is_word(b"union")
        || x.is_word(b"intersect")
        || x.is_word(b"except")
}

// Functions with a FROM of their own between their brackets.
fn has_own_from(x: &Lexeme) -> bool
    ensures { result ≡ is_one_of own_from (said x.now) }
{
    x.is_word(b"extract")
        || x.is_word(b"substring")
        || x.is_word(b"trim")
        || x.is_word(b"overlay")
        || x.is_word(b"position")
}

impl Place {
    /// Where reading starts.
    pub(crate) fn new(alloc: Global) -> Place
        ensures { place result ≡ start }
    {
        Place {
            inner: Bracket {
                listing: false,
                own: false,
            },
            outer: Vec::new(alloc),
            distinct: false,
            calls_own: false,
            expects: false,
            passing: 0,
        }
    }

    fn open(&mut self, round: bool) -> Result<(), AllocError>
        ensures { OnOk result (place self.new ≡ opened (place self.old) round) }
    {
        self.outer.push(self.inner)?;
        self.inner = Bracket {
            listing: false,
            own: self.calls_own,
        };
        self.expects = self.expects && round;
        Ok(())
    }

    fn close(&mut self)
        ensures { place self.new ≡ closed_to (place self.old) (place self.old).outer }
    {
        self.inner = self.outer.pop().unwrap_or(Bracket {
            listing: false,
            own: false,
        });
        self.expects = false;
    }

    fn list(&mut self, now: bool)
        ensures { place self.new ≡ listing_now (place self.old) now }
    {
        self.inner.listing = now;
        self.expects = now;
    }

    fn expect(&mut self, now: bool)
        ensures { place self.new ≡ expecting (place self.old) now }
    {
        self.expects = now;
    }

    fn from_counts(&self) -> bool
        ensures { result ≡ from_counts (place self.now) }
    {
        !self.inner.own && !self.distinct
    }

    fn walk(&mut self, x: &Lexeme)
        ensures { place self.new ≡ walked (place self.old) (said x.now) }
    {
        if x.is_sign(b')') || x.is_sign(b']') {
            self.close();
        } else if x.is_sign(b',') {
            self.expect(self.inner.listing);
        } else if x.is_word(b"from") && self.from_counts() {
            self.list(true);
        } else if x.is_word(b"join") {
            self.expect(true);
        } else if x.is_word(b"only") || x.is_word(b"lateral") {} else if ends_list(x) {
            self.list(false);
        } else {
            self.expect(false);
        }
    }

    fn advance(&mut self, x: &Lexeme) -> Result<(), AllocError>
        ensures { OnOk result (place self.new ≡ moved (place self.old) (said x.now)) }
    {
        if x.is_sign(b'(') {
            return self.open(true);
        }
        if x.is_sign(b'[') {
            return self.open(false);
        }
        self.walk(x);
        Ok(())
    }

    fn remember(&mut self, x: &Lexeme)
        ensures { place self.new ≡ behind (place self.old) (said x.now) }
    {
        self.distinct = x.is_word(b"distinct");
        self.calls_own = has_own_from(x);
    }

    /// Passes a lexeme, which may begin a relation's name.
    pub(crate) fn pass(&mut self, x: &Lexeme, relation: bool) -> Result<(), AllocError>
        ensures { OnOk result (place self.new ≡ place_after (place self.old) (said x.now) relation) }
    {
        if relation {
            self.expects = false;
            self.passing = 2;
        } else if self.passing == 0 {
            self.advance(x)?;
        } else {
            self.passing -= 1;
        }
        self.remember(x);
        Ok(())
    }
}
