//! Laws of the definitions, each the contract of a function that does nothing.

ghost use Rattle.std.specs.Prelude.{◌≡◌, ◌+◌, ◌≤◌, ◌↔◌, ◌++◌, ℕ, List, Option, Some, None, Result, Ok, Err, false, true, length, drop};
ghost use Rattle.std.specs.Str.{IsUtf8, is_utf8};
ghost use Rattle.sql_lex.specs.declared.fault.LexFault.{LexFault};
ghost use Rattle.sql_lex.specs.declared.token.TokenKind.{TokenKind};
ghost use Rattle.sql_lex.specs.declared.token.TokenKind.TheVariants.{Literal, MetaLine};
ghost use Rattle.sql_lex.specs.declared.token.Token.{Token};
ghost use Rattle.sql_lex.specs.Pieces.{begins_line};
ghost use Rattle.sql_lex.specs.Next.{next_token_of, tokens_of, AreTokens, AreTokensBefore, AreInOrder};
ghost use Rattle.sql_lex.specs.Answers.{IsNext};
ghost use Rattle.sql_lex.specs.Examples.{WorkedExamples};
ghost use Rattle.sql_lex.specs.Spelling.{Spells, IsGap, goes_on};
ghost use Rattle.sql_lex.specs.Written.{written_name, written_literal};
ghost use Rattle.sql_lex.specs.Meaning.{name_of, literal_of};
ghost use Rattle.sql_lex.specs.ReadBack.{IsTokenAt, written_kind};

/// The definitions give what is known of some texts.
pub fn the_definitions_meet_the_examples()
    ensures { WorkedExamples }
{}

/// What `next_token` finds is due: white space and comments alone stand before it, and its bytes spell a token of its
/// kind that nothing behind it goes on with; or a fault is the first.
pub fn what_is_found_is_due()
    ensures { (text : List ℕ) (at : ℕ) → at ≤ length text → IsNext text at (next_token_of text at) }
{}

/// What is due `next_token` finds, so that there is one answer.
pub fn what_is_due_is_found()
    ensures { (text : List ℕ) (at : ℕ) (answer : Result (Option Token) LexFault) → IsNext text at answer
        → next_token_of text at ≡ answer }
{}

/// The token that is found is the longest: no longer front of what stands there spells a token of any kind.
pub fn the_longest_is_taken()
    ensures { (text : List ℕ) (at : ℕ) (t : Token) → at ≤ length text → next_token_of text at ≡ Ok (Some t)
        → (kind : TokenKind) (word rest : List ℕ) → drop t.start text ≡ word ++ rest → Spells kind word
        → t.start + length word ≤ t.end }
{}

/// The tokens of a text are those of calls of `next_token`, each from the last one's end, up to the end of the text.
pub fn tokens_follow_one_another()
    ensures { (text : List ℕ) (ts : List Token) → (tokens_of text ≡ Ok ts) ↔ AreTokens text 0 ts }
{}

/// The tokens of a text stand in order, and none overlaps another.
pub fn tokens_stand_in_order()
    ensures { (text : List ℕ) (ts : List Token) → tokens_of text ≡ Ok ts → AreInOrder 0 ts }
{}

/// A text has no tokens exactly where such a call meets a fault.
pub fn the_first_fault_is_told()
    ensures { (text : List ℕ) (fault : LexFault) → (tokens_of text ≡ Err fault)
        ↔ ((ts : List Token) × AreTokensBefore fault text 0 ts) }
{}

/// What spells a token is read as that token, wherever it stands, before anything that doesn't go on with it.
pub fn each_spelling_is_read()
    ensures { (front word rest : List ℕ) (kind : TokenKind) → Spells kind word
        → goes_on kind word rest ≡ false → is_utf8 word ≡ true
        → (kind ≡ MetaLine → begins_line (front ++ (word ++ rest)) (length front) ≡ true)
        → IsTokenAt (front ++ (word ++ rest)) (length front) kind word }
{}

/// White space and comments are passed over.
pub fn each_gap_is_passed()
    ensures { (front word rest : List ℕ) → IsGap word rest → is_utf8 word ≡ true
        → next_token_of (front ++ (word ++ rest)) (length front)
        ≡ next_token_of (front ++ (word ++ rest)) (length front + length word) }
{}

/// A name that was written is read back as one token that stands for the name.
pub fn names_are_read_back()
    ensures { (front name rest : List ℕ) → IsUtf8 name
        → goes_on (written_kind name) (written_name name) rest ≡ false
        → IsTokenAt (front ++ (written_name name ++ rest)) (length front)
        (written_kind name) (written_name name)
        × (name_of (written_kind name) (written_name name) ≡ Some name) }
{}

/// A text that was written as a literal is read back as one token with that text.
pub fn literals_are_read_back()
    ensures { (front text rest : List ℕ) → IsUtf8 text
        → goes_on Literal (written_literal text) rest ≡ false
        → IsTokenAt (front ++ (written_literal text ++ rest)) (length front)
        Literal (written_literal text)
        × (literal_of Literal (written_literal text) ≡ Some text) }
{}
