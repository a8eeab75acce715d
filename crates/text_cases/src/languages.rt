//! Cases of COPY text, tokens, names and rights.
use crate::escapes::decoded;
use acl_text::{read_acl, write_acl};
use copy_text::{Name, ReadRowError, Row, Text, read_row, write_row};
use data_rows::{CheckRowsError, DataFault, check_rows, same_rows};
use sql_lex::{
    Token, TokenKind, TokensError, is_keyword, literal_text, next_token, token_name, tokens,
    write_literal, write_name,
};
use std::alloc::{AllocError, Global};

fn put_field(field: &Option<Text>, out: &mut Vec<u8>) -> Result<(), AllocError> {
    match field {
        None => out.extend_from_slice(b"null"),
        Some(text) => {
            out.push(b'\'')?;
            out.extend_from_slice(text.as_bytes())?;
            Ok(out.push(b'\'')?)
        }
    }
}

fn put_row(row: &Row, out: &mut Vec<u8>) -> Result<(), AllocError> {
    for (i, field) in row.fields().iter().enumerate() {
        if i > 0 {
            out.extend_from_slice(b" | ")?;
        }
        put_field(field, out)?;
    }
    out.extend_from_slice(b" => ")?;
    write_row(row.fields(), out)
}

/// A line of COPY text: its fields, and the row written again; or the fault.
pub(crate) fn row(alloc: Global, line: &[u8], out: &mut Vec<u8>) -> Result<(), AllocError> {
    if line.contains(&b'\n') {
        return out.extend_from_slice(b"?");
    }
    match read_row(alloc, line) {
        Ok(row) => put_row(&row, out),
        Err(ReadRowError::Fault(fault)) => {
            out.extend_from_slice(format!(in alloc; "{fault:?} => -")?.as_bytes())
        }
        Err(ReadRowError::Memory) => Err(AllocError),
    }
}

fn kind_name(kind: TokenKind) -> &'static str {
    match kind {
        TokenKind::Word => "Word",
        TokenKind::QuotedName => "QuotedName",
        TokenKind::Literal => "Literal",
        TokenKind::Number => "Number",
        TokenKind::Sign(_) => "Sign",
        TokenKind::MetaLine => "MetaLine",
    }
}

fn put_token(alloc: Global, token: Token, out: &mut Vec<u8>) -> Result<(), AllocError> {
    let name = kind_name(token.kind);
    let shown = format!(in alloc; "{name}({},{})", token.start, token.end)?;
    out.extend_from_slice(shown.as_bytes())
}

fn put_tokens(alloc: Global, found: &[Token], out: &mut Vec<u8>) -> Result<(), AllocError> {
    if found.is_empty() {
        return out.extend_from_slice(b"(none)");
    }
    for (i, token) in found.iter().enumerate() {
        if i > 0 {
            out.push(b' ')?;
        }
        put_token(alloc, *token, out)?;
    }
    Ok(())
}

/// A text: its tokens, or the fault.
pub(crate) fn text_tokens(alloc: Global, text: &[u8], out: &mut Vec<u8>) -> Result<(), AllocError> {
    match tokens(alloc, text) {
        Ok(found) => put_tokens(alloc, &found, out),
        Err(TokensError::Lex(fault)) => {
            out.extend_from_slice(format!(in alloc; "{fault:?}")?.as_bytes())
        }
        Err(TokensError::Memory) => Err(AllocError),
    }
}

/// A place and a text: the first token at or behind it, or the fault.
pub(crate) fn token_behind(alloc: Global, line: &str, out: &mut Vec<u8>) -> Result<(), AllocError> {
    let Some((place, text)) = line.split_once(' ') else {
        return out.extend_from_slice(b"?");
    };
    let (Ok(place), Some(text)) = (place.parse::<usize>(), decoded(alloc, text)?) else {
        return out.extend_from_slice(b"?");
    };
    if place > text.len() {
        return out.extend_from_slice(b"?");
    }
    match next_token(&text, place) {
        Ok(Some(token)) => put_token(alloc, token, out),
        Ok(None) => out.extend_from_slice(b"(none)"),
        Err(fault) => out.extend_from_slice(format!(in alloc; "{fault:?}")?.as_bytes()),
    }
}

fn put_meant(word: &[u8], meant: Option<&[u8]>, out: &mut Vec<u8>) -> Result<(), AllocError> {
    if let Some(text) = meant {
        out.extend_from_slice(word)?;
        out.extend_from_slice(b" '")?;
        out.extend_from_slice(text)?;
        out.push(b'\'')?;
    }
    Ok(())
}

/// A token: the name or the text that it stands for, and whether it is the key word CREATE.
pub(crate) fn meaning(alloc: Global, text: &[u8], out: &mut Vec<u8>) -> Result<(), AllocError> {
    let Ok(Some(token)) = next_token(text, 0) else {
        return out.extend_from_slice(b"?");
    };
    let name = token_name(alloc, text, token)?;
    let literal = literal_text(alloc, text, token)?;
    if name.is_none() && literal.is_none() {
        return out.extend_from_slice(b"nothing");
    }
    put_meant(b"name", name.as_ref().map(|name| name.as_slice()), out)?;
    put_meant(b"text", literal.as_ref().map(|text| text.as_slice()), out)?;
    if is_keyword(text, token, "create") {
        out.extend_from_slice(b", CREATE")?;
    }
    Ok(())
}

/// `name` or `literal` and a text: how it is written.
pub(crate) fn written(alloc: Global, input: &[u8], out: &mut Vec<u8>) -> Result<(), AllocError> {
    if let Some(bytes) = input.strip_prefix(b"name ".as_slice()) {
        if let Some(name) = Name::new(bytes.to_vec(alloc)?) {
            return write_name(name.as_bytes(), out);
        }
    }
    if let Some(bytes) = input.strip_prefix(b"literal ".as_slice()) {
        if let Some(text) = Text::new(bytes.to_vec(alloc)?) {
            return write_literal(text.as_bytes(), out);
        }
    }
    out.extend_from_slice(b"?")
}

/// A list of rights: how it is written.
pub(crate) fn rights(alloc: Global, input: &[u8], out: &mut Vec<u8>) -> Result<(), AllocError> {
    let Some(text) = Text::new(input.to_vec(alloc)?) else {
        return out.extend_from_slice(b"?");
    };
    match read_acl(alloc, &text)? {
        Some(acl) => out.extend_from_slice(write_acl(alloc, &acl)?.as_bytes()),
        None => out.extend_from_slice(b"no list"),
    }
}

/// A number of columns and a text: how many rows it holds for such a table, or the first fault.
pub(crate) fn data(alloc: Global, line: &str, out: &mut Vec<u8>) -> Result<(), AllocError> {
    let Some((columns, text)) = line.split_once(' ') else {
        return out.extend_from_slice(b"?");
    };
    let (Ok(columns), Some(text)) = (columns.parse::<usize>(), decoded(alloc, text)?) else {
        return out.extend_from_slice(b"?");
    };
    let shown = match check_rows(alloc, &text, columns) {
        Ok(count) => format!(in alloc; "{count} rows")?,
        Err(CheckRowsError::Fault(fault)) => match fault.fault {
            DataFault::Fields(found) => format!(in alloc; "row {} Fields({found})", fault.row)?,
            DataFault::BadRow(of) => format!(in alloc; "row {} BadRow({of:?})", fault.row)?,
        },
        Err(CheckRowsError::Memory) => return Err(AllocError),
    };
    out.extend_from_slice(shown.as_bytes())
}

/// Two texts, with ` | ` between: whether they hold the same rows.
pub(crate) fn same_texts(alloc: Global, line: &str, out: &mut Vec<u8>) -> Result<(), AllocError> {
    let Some((one, other)) = line.split_once(" | ") else {
        return out.extend_from_slice(b"?");
    };
    let (Some(one), Some(other)) = (decoded(alloc, one)?, decoded(alloc, other)?) else {
        return out.extend_from_slice(b"?");
    };
    let answer = if same_rows(alloc, &one, &other)? {
        "same"
    } else {
        "other"
    };
    out.extend_from_slice(answer.as_bytes())
}
