//! Faults and lines of a list, as they are printed.

ghost use Rattle.std.specs.Prelude.{Some};
ghost use Rattle.rd_commands.specs.Listed.{line_text, number_text};
ghost use Rattle.rd_commands.specs.Printed.{joined};
ghost use Rattle.rd_volume.specs.Words.{words_left};

use rd_volume::{FaultWords, Found, Kind, fault_words};
use std::fmt;

/// The words of a file's faults, printed with a blank between each.
#[derive(Clone, Copy, Debug)]
pub(crate) struct Joined(pub(crate) FaultWords);

impl fmt::Display for Joined {
    ghost output = { λ shown. Some (joined (words_left shown.0)) };

    fn fmt<W: fmt::Write>(&self, f: &mut fmt::Formatter<W>) -> fmt::Result {
        let mut words = self.0;
        if let Some(first) = words.next() {
            f.write_str(first)?;
        }
        for word in words {
            write!(f, " {word}")?;
        }
        Ok(())
    }
}

/// A number, or nothing if there is none.
#[derive(Clone, Copy, Debug)]
struct Number(Option<u32>);

impl fmt::Display for Number {
    ghost output = { λ shown. Some (number_text shown.0) };

    fn fmt<W: fmt::Write>(&self, f: &mut fmt::Formatter<W>) -> fmt::Result {
        match self.0 {
            Some(number) => write!(f, "{number}"),
            None => Ok(()),
        }
    }
}

/// The line of a file of an image of a kind in a list: slot, user, type, size, faults and name,
/// with a tab between each, and a line feed. It leaves out the user if there is none, and the size
/// if the file is not sound.
#[derive(Clone, Copy, Debug)]
pub(crate) struct Line<'a>(pub(crate) Kind, pub(crate) &'a Found);

impl fmt::Display for Line<'_> {
    ghost output = { λ line. Some (line_text line.0 line.1.now) };

    fn fmt<W: fmt::Write>(&self, f: &mut fmt::Formatter<W>) -> fmt::Result {
        let file = self.1;
        let slot = file.slot;
        let user = Number(file.user.map(u32::from));
        let ty = file.ty.as_str();
        let size = Number(file.size);
        let faults = Joined(fault_words(self.0, file.faults));
        let name = file.name.as_str();
        write!(f, "{slot}\t{user}\t{ty}\t{size}\t{faults}\t{name}\n")
    }
}
