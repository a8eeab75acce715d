//! The statements of a text, one after another.
ghost use Rattle.std.specs.Prelude.{◌≡◌, ◌<◌, ◌≤◌, ◌+◌, ◌^◌, ◌++◌, [], length, drop, true, IfOk, IfSome, OnOk};
ghost use Rattle.ddl_scripts.specs.Pieces.{lexemes};
ghost use Rattle.ddl_scripts.specs.Lexemes.{is_sign_kind, start_of};
ghost use Rattle.ddl_scripts.specs.Reading.{Adds, AddsLine, Gives, completed, error_of, fault_by, first_start, begins_statement, line_at, line_said, listed, no_more, statement_of, statements_of, stray, whole, whole_of};
ghost use Rattle.ddl_scripts.specs.MetaLines.{meta_line};
ghost use Rattle.sql_lex.specs.Meaning.{spelling};

use crate::kinds::statement;
use crate::meta_lines::meta_line;
use cat_model::{Items, Stmt};
use ddl_pieces::{Piece, Pieces, ReadError, Run, collect, is_sign_kind};
use ddl_scripts::{DdlFault, Located, MetaError, ReadStmtsError, Rows, RowsError, rows_behind};
use sql_lex::{LexFault, Token, TokenKind, is_keyword, next_token};
use std::alloc::{AllocError, Global};

/// The fault at a token, or behind the last one.
fn fault_at(len: usize, fault: Option<LexFault>, long: bool, start: Option<usize>) -> DdlFault
    ensures { result ≡ fault_by len fault long start }
{
    match (start, fault) {
        (Some(at), _) if long => DdlFault::LongName(at),
        (Some(at), _) => DdlFault::Unknown(at),
        (None, Some(fault)) => DdlFault::Lex(fault),
        (None, None) => DdlFault::Incomplete(len),
    }
}

/// The error where reading tokens stops.
fn error_of(
    len: usize,
    fault: Option<LexFault>,
    pieces: &Pieces<'_>,
    error: ReadError,
) -> ReadStmtsError
    ensures { result ≡ error_of len fault pieces.now error }
{
    match error {
        ReadError::Memory => ReadStmtsError::Memory,
        ReadError::Halted(halt) => {
            let start = pieces.start(halt.at);
            ReadStmtsError::Fault(fault_at(len, fault, halt.long, start))
        }
    }
}

/// The statement at the front of the tokens, or the fault of the text; an empty one is None.
#[tactic(auto, unfolding(ddl_scripts::specs::Reading::statement_of))]
fn one_statement(
    alloc: Global,
    len: usize,
    pieces: &Pieces<'_>,
    fault: Option<LexFault>,
) -> Result<Option<Stmt>, ReadStmtsError>
    ensures { Gives (λ s. s) result (statement_of len pieces.now fault) }
{
    match statement(alloc, pieces) {
        Ok(stmt) => Ok(stmt),
        Err(error) => Err(error_of(len, fault, pieces, error)),
    }
}

/// Adds a statement, unless it is empty.
fn put(
    statements: &mut Vec<Located>,
    stmt: Option<Stmt>,
    start: usize,
    end: usize,
) -> Result<(), AllocError>
    ensures { OnOk result (statements.new.items ≡ statements.old.items ++ listed stmt start end []) }
{
    match stmt {
        Some(stmt) => {
            statements.push(Located { stmt, start, end })?;
            Ok(())
        }
        None => Ok(()),
    }
}

/// The statement whose tokens end at a place, with its rows where it is a COPY, and where it ends.
fn completed(
    alloc: Global,
    text: &[u8],
    end: usize,
    stmt: Option<Stmt>,
) -> Result<(Option<Stmt>, usize), ReadStmtsError>
    requires { end ≤ length text.now }
    ensures exact { Gives (λ x. whole x.0 x.1) result (completed text.now end stmt) }
    ensures within { IfOk result (λ x. (end ≤ x.1) × (x.1 ≤ length text.now)) }
{
    match stmt {
        Some(Stmt::CopyRows { q, columns, .. }) => match rows_behind(alloc, text, end) {
            Ok(Rows { rows, end }) => {
                let rows = Items::new(rows);
                Ok((Some(Stmt::CopyRows { q, columns, rows }), end))
            }
            Err(RowsError::Unknown(at)) => Err(ReadStmtsError::Fault(DdlFault::Unknown(at))),
            Err(RowsError::Memory) => Err(ReadStmtsError::Memory),
        },
        stmt => Ok((stmt, end)),
    }
}

/// Reads a statement and adds it; the answer is where it ends.
fn add_statement(
    alloc: Global,
    text: &[u8],
    pieces: &Pieces<'_>,
    fault: Option<LexFault>,
    start: usize,
    end: usize,
    statements: &mut Vec<Located>,
) -> Result<usize, ReadStmtsError>
    requires { end ≤ length text.now }
    ensures added { Adds statements.old.items statements.new.items result start (whole_of text.now end (statement_of (length text.now) pieces.now fault)) }
    ensures within { IfOk result (λ x. (end ≤ x) × (x ≤ length text.now)) }
{
    let stmt = one_statement(alloc, text.len(), pieces, fault)?;
    let (stmt, end) = completed(alloc, text, end, stmt)?;
    put(statements, stmt, start, end)?;
    Ok(end)
}

/// The next token, where it is a line that begins with a backslash.
#[tactic(auto, unfolding(ddl_scripts::specs::Reading::line_at))]
fn line_at(text: &[u8], at: usize) -> Option<Token>
    requires { at ≤ length text.now }
    ensures exact { result ≡ line_at text.now at }
    ensures within { IfSome result (λ t. (at ≤ t.start) × (t.start < t.end) × (t.end ≤ length text.now)) }
{
    let Ok(Some(token)) = next_token(text, at) else {
        return None;
    };
    match token.kind {
        TokenKind::MetaLine => Some(token),
        _ => None,
    }
}

/// Whether a token begins a statement, or is an empty one.
#[tactic(auto, unfolding(ddl_scripts::specs::Reading::begins_statement))]
fn begins_statement(text: &[u8], token: Token) -> bool
    requires low { token.start ≤ token.end }
    requires high { token.end ≤ length text.now }
    ensures { result ≡ begins_statement token.kind (spelling text.now token) }
{
    is_sign_kind(token.kind, b';')
        || is_keyword(text, token, "create")
        || is_keyword(text, token, "alter")
        || is_keyword(text, token, "select")
        || is_keyword(text, token, "set")
        || is_keyword(text, token, "copy")
        || is_keyword(text, token, "grant")
        || is_keyword(text, token, "revoke")
        || is_keyword(text, token, "comment")
}

/// The place of the next token, where no statement begins with it.
#[tactic(auto, unfolding(ddl_scripts::specs::Reading::stray))]
fn stray(text: &[u8], at: usize) -> Option<usize>
    requires { at ≤ length text.now }
    ensures { result ≡ stray text.now at }
{
    let Ok(Some(token)) = next_token(text, at) else {
        return None;
    };
    if begins_statement(text, token) {
        None
    } else {
        Some(token.start)
    }
}

/// What a line with a backslash says, or its fault.
fn line_said(alloc: Global, start: usize, line: &[u8]) -> Result<Option<Stmt>, ReadStmtsError>
    requires { start + length line.now < 2 ^ 64 }
    ensures { Gives (λ s. s) result (line_said start (meta_line line.now)) }
{
    match meta_line(alloc, line) {
        Ok(stmt) => Ok(stmt),
        Err(MetaError::LongName(at)) => Err(ReadStmtsError::Fault(DdlFault::LongName(start + at))),
        Err(MetaError::Unknown(at)) => Err(ReadStmtsError::Fault(DdlFault::Unknown(start + at))),
        Err(MetaError::Memory) => Err(ReadStmtsError::Memory),
    }
}

/// Reads a line that begins with a backslash and adds what it says.
#[tactic(auto, unfolding(sql_lex::specs::Meaning::spelling))]
fn add_line(
    alloc: Global,
    text: &[u8],
    line: Token,
    statements: &mut Vec<Located>,
) -> Result<(), ReadStmtsError>
    requires low { line.start ≤ line.end }
    requires high { line.end ≤ length text.now }
    ensures { AddsLine statements.old.items statements.new.items result line (line_said line.start (meta_line (spelling text.now line))) }
{
    let stmt = line_said(alloc, line.start, &text[line.start..line.end])?;
    put(statements, stmt, line.start, line.end)?;
    Ok(())
}

/// The place of the first token.
fn first_start(pieces: &[Piece]) -> Option<usize>
    ensures { result ≡ first_start pieces.now }
{
    match pieces {
        [] => None,
        [first, ..] => Some(first.token.start),
    }
}

/// What is left of a text without tokens.
fn no_more(fault: Option<LexFault>) -> Result<(), ReadStmtsError>
    ensures { Gives (λ _. []) result (no_more fault) }
{
    match fault {
        None => Ok(()),
        Some(fault) => Err(ReadStmtsError::Fault(DdlFault::Lex(fault))),
    }
}

/// The statements of a text, in order, with the rows of each COPY and the lines that begin with a backslash; empty
/// statements are passed over, and so are `\restrict` and `\unrestrict`.
///
/// `Fault` is the first place at which no statement goes on: `Lex` where the text has no token, `LongName` where a name
/// has more than 63 bytes, `Incomplete` at the text's length where it ends within a statement, else `Unknown`. The
/// statements are those of PostgreSQL's dump scripts
/// (<https://www.postgresql.org/docs/16/sql-commands.html>); `Grammar` says how each is spelled.
pub fn read_stmts(alloc: Global, text: &[u8]) -> Result<Vec<Located>, ReadStmtsError>
    ensures { Gives (λ v. v.items) result (statements_of text.now) }
{
    let mut statements = Vec::new(alloc);
    let mut at = 0;
    'statements: loop {
        if let Some(line) = line_at(text, at) {
            add_line(alloc, text, line, &mut statements)?;
            at = line.end;
            continue;
        }
        if let Some(start) = stray(text, at) {
            return Err(ReadStmtsError::Fault(DdlFault::Unknown(start)));
        }
        let Run { pieces, end, fault } = collect(alloc, text, at)?;
        let Some(start) = first_start(&pieces) else {
            no_more(fault)?;
            return Ok(statements);
        };
        let pieces = Pieces::new(text, pieces);
        at = add_statement(alloc, text, &pieces, fault, start, end, &mut statements)?;
    }
}
