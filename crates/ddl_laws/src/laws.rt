//! Laws of the definitions, each the contract of a function that does nothing.
ghost use Rattle.std.specs.Prelude.{◌≡◌, ◌↔◌, ℕ, List, [], ◌∷◌, None, Ok, Err};
ghost use Rattle.cat_model.specs.declared.object.QName.{QName};
ghost use Rattle.ddl_scripts.specs.Collecting.{collected};
ghost use Rattle.ddl_scripts.specs.Leaves.{qualified};
ghost use Rattle.ddl_scripts.specs.Pieces.{lexemes};
ghost use Rattle.ddl_relation_texts.specs.Laws.{Lawful};
ghost use Rattle.ddl_scripts.specs.Grammar.{constraint_body, index_body, statement};
ghost use Rattle.ddl_scripts.specs.Syntax.{part};
ghost use Rattle.ddl_scripts.specs.Shortened.{path_in};
ghost use Rattle.ddl_scripts.specs.declared.located.Located.{Located};
ghost use Rattle.ddl_scripts.specs.declared.fault.DdlFault.{DdlFault};
ghost use Rattle.ddl_scripts.specs.Reading.{statements_of};
ghost use Rattle.ddl_scripts.specs.Readings.{Reads, FailsAt};
ghost use Rattle.cat_model.specs.declared.stmt.Stmt.{Stmt};
ghost use Rattle.ddl_scripts.specs.Respelling.{IsWritable, AllWritable, spelling};
ghost use Rattle.ddl_scripts.specs.Spellings.{spellings, said};
ghost use Rattle.ddl_scripts.specs.Laying.{Lays};

/// A text is read as statements exactly where it reads as them, so that it reads as one list at most.
pub fn reading_is_exact()
    ensures { (text : List ℕ) (statements : List Located) → (statements_of text ≡ Ok statements)
        ↔ Reads text 0 statements }
{}

/// A fault is told exactly where a text reads up to it: at the first place from which on no statement goes on, where what
/// stands before can be finished. There is one at most.
pub fn the_first_fault_is_told()
    ensures exact { (text : List ℕ) (fault : DdlFault) → (statements_of text ≡ Err fault) ↔ FailsAt text 0 fault }
    ensures one { (text : List ℕ) (fault other : DdlFault) → FailsAt text 0 fault → FailsAt text 0 other → fault ≡ other }
{}

/// A statement up to its semicolon has the laws of a part: what is read is spelled so, what is spelled so is read, and where
/// reading stops, what stands before can be finished, and nothing goes on with the next token. So have a constraint's
/// definition and that of an index.
pub fn definitions_have_their_laws()
    ensures statements { Lawful statement }
    ensures constraints { Lawful (part constraint_body) }
    ensures indexes { Lawful (part index_body) }
{}

/// A literal's text is a path exactly where all of its tokens together spell it, and no fault stands behind them.
pub fn a_path_is_all_tokens_of_its_literal()
    ensures { (text : List ℕ) (q : QName) → (path_in text ≡ Ok q)
        ↔ ((collected text 0).fault ≡ None) × qualified.Spells q (lexemes text (collected text 0).pieces) }
{}

/// Statements that are written one after another read as these statements: so the spelling of a statement reads as it.
pub fn written_statements_are_read_back()
    ensures { (statements : List Stmt) → AllWritable statements
        → (found : List Located) × (statements_of (spellings statements) ≡ Ok found) × (said found ≡ statements) }
{}

/// Statements that lie in a text as they are written, with empty lines and lines of comments between them, are what the text
/// reads as.
pub fn laid_out_statements_are_read()
    ensures { (text : List ℕ) (statements : List Stmt) → Lays text statements
        → (found : List Located) × (statements_of text ≡ Ok found) × (said found ≡ statements) }
{}

/// What a text reads as can be written.
pub fn what_was_read_can_be_written()
    ensures { (text : List ℕ) (statements : List Located) → statements_of text ≡ Ok statements → AllWritable (said statements) }
{}

/// The spelling of a statement that can be written is a text in which it lies.
pub fn what_can_be_written_is_spelled()
    ensures { (statement : Stmt) → IsWritable statement → Lays (spelling statement) (statement ∷ []) }
{}

/// Where a text reads as statements, their spellings, joined, are a text that reads as the same statements.
pub fn statements_that_were_read_are_read_again()
    ensures { (text : List ℕ) (statements : List Located) → statements_of text ≡ Ok statements
        → (same : List Located) × (statements_of (spellings (said statements)) ≡ Ok same) × (said same ≡ said statements) }
{}
