//! A declaration in several files: its text, and which line of it is in which file.

ghost use Rattle.std.specs.Prelude.{◌≡◌, ◌+◌, ◌∷◌, ◌<◌, ◌⊎◌, ◌++◌, IfNone, IfOk, IfSome, OnOk, length, map, nat_lt, sum};
ghost use Rattle.fb_read.specs.Whole.{most_bytes};
ghost use Rattle.fbsim_command.specs.Joining as spec;
ghost use Rattle.fbsim_command.specs.Joining.{IsLineOf, counts, mark_at};
ghost use Rattle.fbsim_command.specs.Texts.{texts_of};

use fb_read_positions::after_mark;
use fb_types::MOST_BYTES;
use std::alloc::{AllocError, Global};

/// What the next byte is in.
#[derive(Clone, Copy)]
enum Within {
    /// Tokens and blanks.
    Tokens,
    /// The star of `(*`.
    Opening,
    Comment,
    /// The bracket of `*)`.
    Closing,
    /// A comment that began with `//`.
    Line,
}

/// The byte at an index, or 0 past the end.
fn at(bytes: &[u8], index: usize) -> u8
    ensures { result ≡ spec.byte_at bytes.now index }
{
    if index < bytes.len() { bytes[index] } else { 0 }
}

/// What follows a byte that is in this, by the byte after it.
fn beyond(within: Within, b: u8, next: u8) -> Within
    ensures { result ≡ spec.beyond within b next }
{
    match within {
        Within::Tokens => {
            if b == b'(' && next == b'*' {
                Within::Opening
            } else if b == b'/' && next == b'/' {
                Within::Line
            } else {
                Within::Tokens
            }
        }
        Within::Opening => Within::Comment,
        Within::Comment => {
            if b == b'*' && next == b')' {
                Within::Closing
            } else {
                Within::Comment
            }
        }
        Within::Closing => Within::Tokens,
        Within::Line => {
            if b == b'\n' {
                Within::Tokens
            } else {
                Within::Line
            }
        }
    }
}

/// Whether a text that ends in this leaves a comment open.
fn leaves_open(within: Within) -> bool
    ensures { result ≡ spec.leaves_open within }
{
    match within {
        Within::Tokens | Within::Line => false,
        _ => true,
    }
}

/// Whether a comment that `(*` begins is open at the end of a text.
fn is_open(text: &[u8]) -> bool
    ensures { result ≡ spec.is_open text.now }
{
    let mut within = Within::Tokens;
    for i in 0..text.len() {
        within = beyond(within, text[i], at(text, i + 1));
    }
    leaves_open(within)
}

/// The texts up to the first one that leaves a comment open.
fn up_to_open(texts: &[Vec<u8>]) -> &[Vec<u8>]
    ensures { texts_of result.now ≡ spec.up_to_open (texts_of texts.now) }
{
    for i in 0..texts.len() {
        if is_open(texts[i].as_slice()) {
            return &texts[..i + 1];
        }
    }
    texts
}

/// Appends the texts after the first one.
fn join_behind(all: &mut Vec<u8>, texts: &[Vec<u8>]) -> Result<(), AllocError>
    ensures { OnOk result (all.new.items ≡ all.old.items ++ spec.joined_behind (texts_of texts.now)) }
{
    for text in texts {
        all.push(b'\n')?;
        all.extend_from_slice(after_mark(text.as_slice()))?;
    }
    Ok(())
}

/// A first text and those after it as one.
fn join_all(alloc: Global, first: &[u8], following: &[Vec<u8>]) -> Result<Vec<u8>, AllocError>
    ensures { IfOk result (λ v. v.items ≡ first.now ++ spec.joined_behind (texts_of following.now)) }
{
    let mut all = Vec::from_slice(alloc, first)?;
    join_behind(&mut all, following)?;
    Ok(all)
}

/// Texts as one: a line feed between two, and of the byte order marks only the first text's.
fn joined(alloc: Global, texts: &[Vec<u8>]) -> Result<Vec<u8>, AllocError>
    ensures { IfOk result (λ v. v.items ≡ spec.joined (texts_of texts.now)) }
{
    match texts.split_first() {
        Some((first, following)) => join_all(alloc, first.as_slice(), following),
        None => Ok(Vec::new(alloc)),
    }
}

/// Whether a text is too long.
fn is_too_long(text: &[u8]) -> bool
    ensures { result ≡ nat_lt most_bytes (length text.now) }
{
    text.len() > MOST_BYTES
}

/// The text of a declaration in several files. No later text closes a comment, so after one that is open there is
/// nothing; but a text that is too long is so for all files.
pub(crate) fn text_of(alloc: Global, texts: &[Vec<u8>]) -> Result<Vec<u8>, AllocError>
    ensures { IfOk result (λ v. v.items ≡ spec.text_of (texts_of texts.now)) }
{
    let all = joined(alloc, texts)?;
    if is_too_long(all.as_slice()) {
        return Ok(all);
    }
    joined(alloc, up_to_open(texts))
}

/// How many lines a text has.
fn line_count(text: &[u8]) -> usize
    ensures { result ≡ spec.line_count text.now }
{
    1 + text.iter().filter(|b| **b == b'\n').count()
}

/// The lines of a file of a declaration.
#[derive(Clone, Copy)]
pub struct FileLines {
    /// How many there are.
    pub count: usize,
    /// How many bytes of the first one the whole text leaves out: those of a byte order mark.
    pub mark: usize,
}

/// The lines of a file of which the whole text has every byte.
fn lines_of_first(text: &[u8]) -> FileLines
    ensures { result ≡ spec.lines_of_first text.now }
{
    FileLines {
        count: line_count(text),
        mark: 0,
    }
}

/// The lines of a file of which the whole text leaves out the byte order mark.
fn lines_behind(text: &[u8]) -> FileLines
    ensures { result ≡ spec.lines_behind text.now }
{
    FileLines {
        count: line_count(text),
        mark: text.len() - after_mark(text).len(),
    }
}

/// The lines of a first file, and of those after it.
fn lines_with(
    alloc: Global,
    first: &[u8],
    following: &[Vec<u8>],
) -> Result<Vec<FileLines>, AllocError>
    ensures { IfOk result (λ v. v.items ≡ spec.lines_of_first first.now ∷ map spec.lines_behind (texts_of following.now)) }
{
    let mut lines = Vec::new(alloc);
    lines.push(lines_of_first(first))?;
    for text in following {
        lines.push(lines_behind(text.as_slice()))?;
    }
    Ok(lines)
}

/// The lines of each file, by their texts.
pub(crate) fn lines_of_files(alloc: Global, texts: &[Vec<u8>]) -> Result<Vec<FileLines>, AllocError>
    ensures { IfOk result (λ v. v.items ≡ spec.lines_of_files (texts_of texts.now)) }
{
    match texts.split_first() {
        Some((first, following)) => lines_with(alloc, first.as_slice(), following),
        None => Ok(Vec::new(alloc)),
    }
}

/// A line of a file of a declaration.
#[derive(Clone, Copy)]
pub(crate) struct FileLine {
    /// The file, counted from 0: those of block types, and then the declaration's own.
    pub file: usize,
    /// The line in it, counted from 1.
    pub line: usize,
    /// How many bytes at its beginning the whole text leaves out.
    pub mark: usize,
}

/// How many bytes the whole text leaves out at the beginning of this line of a file.
fn mark_in(own: FileLines, line: usize) -> usize
    ensures { result ≡ spec.mark_in own line }
{
    if line == 1 { own.mark } else { 0 }
}

/// The file that has this line of the whole text, if one does, for files with these lines.
pub(crate) fn line_in_file(lines: &[FileLines], whole: usize) -> Option<FileLine>
    ensures found { IfSome result (λ at. IsLineOf (counts lines.now) whole at.file at.line) }
    ensures mark { IfSome result (λ at. at.mark ≡ mark_at lines.now at.file at.line) }
    ensures none { IfNone result ((whole ≡ 0) ⊎ (sum (counts lines.now) < whole)) }
{
    if whole == 0 {
        return None;
    }
    let mut left = whole;
    for i in 0..lines.len() {
        let own = &lines[i];
        if left <= own.count {
            return Some(FileLine {
                file: i,
                line: left,
                mark: mark_in(*own, left),
            });
        }
        left -= own.count;
    }
    None
}

impl FileLine {
    /// The column in the file of a column of this line in the whole text.
    pub(crate) fn column(self, whole: usize) -> u128
        ensures { result ≡ whole + self.mark }
    {
        whole as u128 + self.mark as u128
    }
}

/// The name of a file of a declaration: of those of block types, or else its own.
pub(crate) fn file_name<'a>(types: &[&'a str], own: &'a str, file: usize) -> &'a str
    ensures { result.now ≡ spec.name_at (map (λ t. t.now) types.now) own.now file }
{
    if file < types.len() { types[file] } else { own }
}
