//! What each byte of a pattern's text means.
ghost use Rattle.std.specs.Prelude.{◌≡◌};
ghost use Rattle.patterns.specs.Marks.{opened, bare_mark, mark_of, quotes_behind};

use crate::atom::Atom;

/// How a place of a pattern stands to its quotes. The numbers are the places where the quotes opened.
#[derive(Clone, Copy)]
pub(crate) enum Quotes {
    /// Outside.
    Outside,
    /// Inside.
    Inside(usize),
    /// Behind a quote that closes them, if no second one follows: two inside are one.
    Closing(usize),
}

/// What a byte of a pattern stands for, where it stands for something.
#[derive(Clone, Copy)]
pub(crate) enum Mark {
    /// The dot between schema and name.
    Dot,
    /// Part of the schema or the name.
    Atom(Atom),
}

impl Quotes {
    /// Where the quotes opened that are open still.
    pub(crate) fn opened(self) -> Option<usize>
        ensures { result ≡ opened self }
    {
        match self {
            Quotes::Inside(at) => Some(at),
            Quotes::Outside | Quotes::Closing(_) => None,
        }
    }

    /// What the next byte means.
    pub(crate) fn mark(self, byte: u8) -> Option<Mark>
        ensures { result ≡ mark_of self byte }
    {
        match self {
            Quotes::Outside => bare_mark(byte),
            Quotes::Inside(_) if byte == b'"' => None,
            Quotes::Inside(_) => Some(Mark::Atom(Atom::Byte(byte))),
            Quotes::Closing(_) if byte == b'"' => Some(Mark::Atom(Atom::Byte(byte))),
            Quotes::Closing(_) => bare_mark(byte),
        }
    }

    /// How the place behind the next byte stands to the quotes, where that byte is at `at`.
    pub(crate) fn behind(self, at: usize, byte: u8) -> Quotes
        ensures { result ≡ quotes_behind self at byte }
    {
        match self {
            Quotes::Outside if byte == b'"' => Quotes::Inside(at),
            Quotes::Inside(opened) if byte == b'"' => Quotes::Closing(opened),
            Quotes::Inside(opened) => Quotes::Inside(opened),
            Quotes::Closing(opened) if byte == b'"' => Quotes::Inside(opened),
            Quotes::Outside | Quotes::Closing(_) => Quotes::Outside,
        }
    }
}

/// What a byte outside quotes means.
fn bare_mark(byte: u8) -> Option<Mark>
    ensures { result ≡ bare_mark byte }
{
    match byte {
        b'"' => None,
        b'.' => Some(Mark::Dot),
        b'*' => Some(Mark::Atom(Atom::Many)),
        b'?' => Some(Mark::Atom(Atom::One)),
        _ => Some(Mark::Atom(Atom::Byte(byte.to_ascii_lowercase()))),
    }
}
