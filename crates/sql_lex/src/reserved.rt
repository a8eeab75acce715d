//! The reserved words.

ghost use Rattle.std.specs.Prelude.{◌≡◌};
ghost use Rattle.std.specs.List.{list_any};
ghost use Rattle.std.specs.Str.{bytes_eq};
ghost use Rattle.sql_lex.specs.Reserved.{is_reserved};

/// The reserved words.
const RESERVED: [&[u8]; 56] = [
    b"all",
    b"and",
    b"any",
    b"array",
    b"as",
    b"asc",
    b"case",
    b"cast",
    b"check",
    b"collate",
    b"column",
    b"constraint",
    b"create",
    b"default",
    b"desc",
    b"distinct",
    b"do",
    b"else",
    b"end",
    b"except",
    b"false",
    b"fetch",
    b"for",
    b"foreign",
    b"from",
    b"grant",
    b"group",
    b"having",
    b"in",
    b"into",
    b"is",
    b"join",
    b"like",
    b"limit",
    b"not",
    b"null",
    b"offset",
    b"on",
    b"only",
    b"or",
    b"order",
    b"primary",
    b"references",
    b"select",
    b"table",
    b"then",
    b"to",
    b"true",
    b"union",
    b"unique",
    b"user",
    b"using",
    b"when",
    b"where",
    b"window",
    b"with",
];

/// Whether the name is one of the words.
fn is_one_of(words: &[&[u8]], name: &[u8]) -> bool
    ensures { result ≡ list_any (λ word. bytes_eq word.now name.now) words.now }
{
    words.iter().any(|word| *word == name)
}

/// Whether the name is a reserved word.
#[tactic(auto, unfolding(crate::specs::Reserved::is_reserved))]
pub fn is_reserved(name: &[u8]) -> bool
    ensures { result ≡ is_reserved name.now }
{
    is_one_of(&RESERVED, name)
}
