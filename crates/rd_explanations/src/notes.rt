//! What a command notes while it runs, for an explanation.

ghost use Rattle.std.specs.Prelude.{◌≡◌, [], IfErr, OnOk, false, true};
ghost use Rattle.rd_explanations.specs.Notes.{AddsAtMost, IsQuiet};

use crate::line::Line;
use std::alloc::Global;

/// What a command has noted, line by line.
#[derive(Debug, Drop)]
pub struct Notes {
    /// Whether the words ask for an explanation.
    pub wanted: bool,
    /// The lines, in their order.
    pub lines: Vec<Line>,
}

impl Notes {
    /// No notes, and none are wanted yet. It takes no memory.
    pub fn new(alloc: Global) -> Notes
        ensures unwanted { result.wanted ≡ false }
        ensures empty { result.lines.items ≡ [] }
    {
        Notes {
            wanted: false,
            lines: Vec::new(alloc),
        }
    }

    /// Says whether they are wanted.
    pub fn want(&mut self, wanted: bool)
        ensures wanted { self.new.wanted ≡ wanted }
        ensures lines { self.new.lines ≡ self.old.lines }
    {
        self.wanted = wanted;
    }

    /// Adds a line, if notes are wanted. Where memory runs out, the line is left out.
    pub fn add(&mut self, line: Line)
        ensures wanted { self.new.wanted ≡ self.old.wanted }
        ensures added { AddsAtMost line self.old self.new }
        ensures quiet { IsQuiet self.old self.new }
    {
        if self.wanted {
            let _ = self.lines.push(line);
        }
    }
}
