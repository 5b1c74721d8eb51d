//! The reading of statements.

ghost use Rattle.std.specs.Prelude.{◌≡◌, ◌≤◌, suc, length, slice_index, IfOk};
ghost use Rattle.toml_parser.specs.Lexical.{first, left_bracket};
ghost use Rattle.toml.specs.Parse as parse;
ghost use Rattle.fb_deploy_positions.specs.Results.{AnswersRead, LeavesLess};
ghost use Rattle.fb_deploy_positions.specs.Statements as spec;
ghost use Rattle.fb_deploy_positions.specs.Views.{statement_view, statements_view};

use crate::keys::header_key;
use crate::statement::{Kind, Statement};
use crate::tokens::key_equals;
use crate::values::{after_value, items_of};
use std::alloc::{AllocError, Global};
use std::str::from_utf8;
use toml_parser::RECURSION_LIMIT;
use toml_parser::text::{byte_at, first, skip, skip_blank, skip_ws};

/// The text without its byte order mark.
fn skip_bom(text: &str) -> &str
    ensures rest { result.now ≡ parse.skip_bom text.now }
    ensures within { length result.now ≤ length text.now }
{
    if first(text) == 0xEF && byte_at(text, 1) == 0xBB && byte_at(text, 2) == 0xBF {
        &text[3..]
    } else {
        text
    }
}

/// The heading of an element of an array of tables.
fn element_heading<'a>(
    alloc: Global,
    text: &'a str,
) -> Result<Option<(Statement<'a>, &'a str)>, AllocError>
    requires begins { first text.now ≡ left_bracket }
    requires twice { slice_index text.now 1 ≡ left_bracket }
    ensures value { AnswersRead statement_view result (spec.element_heading text.now) }
    ensures shorter { LeavesLess text.now result }
{
    let Some((key, rest)) = header_key(alloc, skip(text, 2))? else {
        return Ok(None);
    };
    if first(rest) != b']' {
        return Ok(None);
    }
    let statement = Statement {
        kind: Kind::Element,
        key,
        begin: text,
        name: skip_ws(skip(text, 2)),
        value: "",
        items: Vec::new(alloc),
    };
    Ok(Some((statement, skip(rest, 1))))
}

/// The heading of a table.
fn table_heading<'a>(
    alloc: Global,
    text: &'a str,
) -> Result<Option<(Statement<'a>, &'a str)>, AllocError>
    requires { first text.now ≡ left_bracket }
    ensures value { AnswersRead statement_view result (spec.table_heading text.now) }
    ensures shorter { LeavesLess text.now result }
{
    let Some((key, rest)) = header_key(alloc, skip(text, 1))? else {
        return Ok(None);
    };
    let statement = Statement {
        kind: Kind::Table,
        key,
        begin: text,
        name: skip_ws(skip(text, 1)),
        value: "",
        items: Vec::new(alloc),
    };
    Ok(Some((statement, rest)))
}

/// A key with its value.
fn assignment<'a>(
    alloc: Global,
    text: &'a str,
) -> Result<Option<(Statement<'a>, &'a str)>, AllocError>
    ensures value { AnswersRead statement_view result (spec.assignment text.now) }
    ensures shorter { LeavesLess text.now result }
{
    let Some((key, value)) = key_equals(alloc, text)? else {
        return Ok(None);
    };
    let Some(rest) = after_value(alloc, value, RECURSION_LIMIT)? else {
        return Ok(None);
    };
    let statement = Statement {
        kind: Kind::Key,
        key,
        begin: text,
        name: text,
        value,
        items: items_of(alloc, value, RECURSION_LIMIT)?,
    };
    Ok(Some((statement, rest)))
}

/// A statement, and the text after it. `None` where there is none.
fn statement<'a>(
    alloc: Global,
    text: &'a str,
) -> Result<Option<(Statement<'a>, &'a str)>, AllocError>
    ensures value { AnswersRead statement_view result (spec.statement text.now) }
    ensures shorter { LeavesLess text.now result }
{
    if first(text) == b'[' && byte_at(text, 1) == b'[' {
        element_heading(alloc, text)
    } else if first(text) == b'[' {
        table_heading(alloc, text)
    } else {
        assignment(alloc, text)
    }
}

/// Whether a line ends here, or a comment begins.
fn ends_line(text: &str) -> bool
    ensures { result ≡ parse.ends_line text.now }
{
    text.is_empty() || matches!(first(text), b'#' | b'\n' | b'\r')
}

/// A statement that has its line to itself.
fn line<'a>(alloc: Global, text: &'a str) -> Result<Option<(Statement<'a>, &'a str)>, AllocError>
    ensures value { AnswersRead statement_view result (spec.line text.now) }
    ensures shorter { LeavesLess text.now result }
{
    let Some((found, rest)) = statement(alloc, text)? else {
        return Ok(None);
    };
    if ends_line(skip_ws(rest)) {
        Ok(Some((found, rest)))
    } else {
        Ok(None)
    }
}

/// The statements of a text, up to one that is none.
fn statements_of<'a>(alloc: Global, text: &'a str) -> Result<Vec<Statement<'a>>, AllocError>
    ensures { IfOk result (λ v. statements_view v.items ≡ spec.statements_from (suc (length text.now)) (parse.skip_bom text.now)) }
{
    let mut found = Vec::new(alloc);
    let mut rest = skip_bom(text);
    'lines: loop {
        let start = skip_blank(rest, true);
        if start.is_empty() {
            return Ok(found);
        }
        match line(alloc, start)? {
            None => return Ok(found),
            Some((statement, after)) => {
                found.push(statement)?;
                rest = after;
            }
        }
    }
}

/// The statements of a document. Bytes that are not UTF-8 have none.
pub(crate) fn document_statements<'a>(
    alloc: Global,
    text: &'a [u8],
) -> Result<Vec<Statement<'a>>, AllocError>
    ensures { IfOk result (λ v. statements_view v.items ≡ spec.statements text.now) }
{
    match from_utf8(text) {
        Ok(document) => statements_of(alloc, document),
        Err(_) => Ok(Vec::new(alloc)),
    }
}
