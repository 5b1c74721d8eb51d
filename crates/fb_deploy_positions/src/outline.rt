//! The outline of a deployment: its statements, and where its entries are.

ghost use Rattle.std.specs.Prelude.{◌≡◌, IfOk};
ghost use Rattle.fb_deploy_positions.specs.Entries as spec;
ghost use Rattle.fb_deploy_positions.specs.Entries.{IsNear};
ghost use Rattle.fb_deploy_positions.specs.Statements.{statements as all_statements};
ghost use Rattle.fb_deploy_positions.specs.Views.{statements_view};

use crate::entry::{array_of, bytes_at, entry_in};
use crate::reading::document_statements;
use crate::search::{Wanted, find, inline_element};
use crate::spans::{byte_span, start_of};
use crate::statement::Statement;
use fb_inputs::{DeployKey, DeployPosition, TableLocation};
use fb_read::token::Span;
use std::alloc::{AllocError, Global};

/// No position of a deployment has more positions around it than this.
const MOST_AROUND: usize = 5;

/// The statements of a deployment, by which its entries are found.
#[derive(Drop)]
pub struct Outline<'a> {
    text: &'a [u8],
    statements: Vec<Statement<'a>>,
    ghost complete: { statements_view statements.items ≡ all_statements text.now },
}

impl<'a> Outline<'a> {
    /// Reads the statements of a deployment.
    ///
    /// # Errors
    /// When memory runs out.
    pub fn read(alloc: Global, text: &'a [u8]) -> Result<Outline<'a>, AllocError>
        ensures { IfOk result (λ o. o.text.now ≡ text.now) }
    {
        let statements = document_statements(alloc, text)?;
        Ok(Outline { text, statements })
    }

    /// The text of the deployment.
    pub fn text(&self) -> &'a [u8]
        ensures { result.now ≡ self.now.text.now }
    {
        self.text
    }

    /// The bytes at a position, or at the nearest one around it at which there are any.
    ///
    /// # Errors
    /// When memory runs out.
    pub fn nearest(&self, alloc: Global, position: DeployPosition) -> Result<Span, AllocError>
        ensures { IfOk result (IsNear self.now.text.now position) }
    {
        let mut here = position;
        for _ in 0..MOST_AROUND {
            match self.span_at(alloc, here)? {
                Some(span) => return Ok(span),
                None => here = here.around(),
            }
        }
        Ok(start_of(self.text))
    }

    /// The bytes of the key with this name in a table, also of one that the table may not have.
    ///
    /// # Errors
    /// When memory runs out.
    pub fn key_span(
        &self,
        alloc: Global,
        table: TableLocation,
        name: &str,
    ) -> Result<Option<Span>, AllocError>
        ensures { IfOk result (λ o. o ≡ spec.named_key_span self.now.text.now table name.now) }
    {
        let Some(entry) = entry_in(alloc, self.statements(), table, name)? else {
            return Ok(None);
        };
        Ok(Some(entry.span(alloc, self.text)?))
    }

    /// The statements in order.
    fn statements(&self) -> &[Statement<'a>]
        ensures { statements_view result.now ≡ all_statements self.now.text.now }
    {
        self.statements.as_slice()
    }

    /// The bytes at a position, if there are any.
    fn span_at(&self, alloc: Global, position: DeployPosition) -> Result<Option<Span>, AllocError>
        ensures { IfOk result (λ o. o ≡ spec.span_at self.now.text.now position) }
    {
        match position {
            DeployPosition::Start => Ok(Some(start_of(self.text))),
            DeployPosition::Byte(at) => Ok(byte_span(self.text, at)),
            DeployPosition::Table(table) => Ok(self.table_span(table)),
            DeployPosition::Key(table, key) => self.key_span(alloc, table, key.text()),
            DeployPosition::Element(table, key, index) => {
                self.element_span(alloc, table, key, index)
            }
        }
    }

    /// The byte that begins an element of the array at a key of a table.
    fn element_span(
        &self,
        alloc: Global,
        table: TableLocation,
        key: DeployKey,
        index: usize,
    ) -> Result<Option<Span>, AllocError>
        ensures { IfOk result (λ o. o ≡ spec.element_span self.now.text.now table key index) }
    {
        let Some(entry) = entry_in(alloc, self.statements(), table, key.text())? else {
            return Ok(None);
        };
        entry.element_span(alloc, self.text, index)
    }

    /// The two brackets of the heading of a table, or the byte that begins an inline table.
    fn table_span(&self, table: TableLocation) -> Option<Span>
        ensures { result ≡ spec.table_span self.now.text.now table }
    {
        let (array, index) = array_of(table)?;
        if let Some(heading) = find(self.statements(), Wanted::Heading(array, index)) {
            return Some(bytes_at(self.text, heading.begin, 2));
        }
        let element = inline_element(self.statements(), array, index)?;
        Some(bytes_at(self.text, element, 1))
    }
}
