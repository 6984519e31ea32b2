//! A page of a history, as the staff have it: JSON (RFC 8259) of the entries after a number, each with its sum.

ghost use Rattle.std.specs.Prelude.{◌≡◌, IfErr, IfOk, map, string_bytes, take};
ghost use Rattle.rd_tables.specs.Connections.{IsOpen, LeavesOpen};
ghost use Rattle.rd_chain.specs.Held.{Keeps, lines};
ghost use Rattle.rd_history.specs.Pages.{listed, page_of as text_of_page, page_text, shown, summed};

use crate::history::History;
use rd_chain::{ChainFault, SummedLine};
use sqlite::Alter;
use std::alloc::{AllocError, Global};

/// A line with its sum as the last member of its object.
fn with_sum(alloc: Global, line: &[u8], sum: [u8; 32]) -> Result<Vec<u8>, AllocError>
    ensures { IfOk result (λ text. text.items ≡ summed line.now sum) }
{
    let digits = hex::encode(alloc, sum)?;
    let mut text = Vec::new(alloc);
    text.extend_from_slice(&line[..line.len().saturating_sub(1)])?;
    text.extend_from_slice(b",\"sum\":\"")?;
    text.extend_from_slice(digits.as_bytes())?;
    text.extend_from_slice(b"\"}")?;
    Ok(text)
}

/// The texts of lines that were read, each with its sum, with commas between them; `Sql` where one is not UTF-8, or
/// memory runs out.
fn entries(alloc: Global, lines: &[SummedLine]) -> Result<String, ChainFault>
    ensures texts { IfOk result (λ text. string_bytes text ≡ listed (map shown lines.now)) }
    ensures failed { IfErr result (λ fault. fault ≡ ChainFault.Sql) }
{
    let mut texts = Vec::new(alloc);
    for line in lines {
        let Ok(text) = with_sum(alloc, &line.line, line.sum) else {
            return Err(ChainFault::Sql);
        };
        let Ok(text) = String::from_utf8(text) else {
            return Err(ChainFault::Sql);
        };
        let Ok(()) = texts.push(text) else {
            return Err(ChainFault::Sql);
        };
    }
    match texts.as_slice().join(alloc, ",") {
        Ok(text) => Ok(text),
        Err(_) => Err(ChainFault::Sql),
    }
}

/// The text of a page.
fn page_of(alloc: Global, lines: &[SummedLine], last: u32) -> Result<String, ChainFault>
    ensures page { IfOk result (λ text. string_bytes text ≡ text_of_page (map shown lines.now) last) }
    ensures failed { IfErr result (λ fault. fault ≡ ChainFault.Sql) }
{
    let entries = entries(alloc, lines)?;
    match format!(in alloc; "{{\"entries\":[{entries}],\"last\":{last}}}") {
        Ok(text) => Ok(text),
        Err(_) => Err(ChainFault::Sql),
    }
}

impl<S: Alter> History<S> {
    /// The page after a number, of a history whose entries after `last` do not count yet. It changes nothing.
    ///
    /// It fails with `Sql` if the database fails, or if memory runs out.
    pub fn page(&mut self, alloc: Global, after: u32, last: u32) -> Result<String, ChainFault>
        ensures keeps { Keeps S.Store self.old self.new }
        ensures page { IsOpen S.Store self.new → IfOk result (λ text.
            string_bytes text ≡ page_text after (take last (lines S.Store self.old))) }
        ensures failed { IfErr result (λ fault. fault ≡ ChainFault.Sql) }
        ensures ends_open { LeavesOpen S.Store self.new result }
    {
        let last = last.min(self.last());
        let lines = self.lines_after(alloc, after)?;
        let count = lines.len().min(last.saturating_sub(after) as usize);
        page_of(alloc, &lines[..count], last)
    }
}
