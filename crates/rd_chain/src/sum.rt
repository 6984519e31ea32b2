ghost use Rattle.std.specs.Prelude.{◌≡◌, ◌↔◌, ◌+◌, ◌<◌, ◌≤◌, [], IsTrue};
ghost use Rattle.rd_chain.specs.Chains as spec;
ghost use Rattle.rd_chain.specs.Inside.{end_of, next_end};
ghost use Rattle.rd_chain.specs.Rows.{MOST_LINES as Most};

use sha2::{Digest, Sha256};

/// The most lines that a chain has.
pub(crate) const MOST_LINES: u32 = 999_999_999;

/// The sum of a line after the sum of the line before, or after 32 zeros where it is the first: the SHA-256
/// (FIPS 180-4) of that sum and the line. It takes no memory.
pub fn next_sum(sum: &[u8; 32], line: &[u8]) -> [u8; 32]
    ensures { result ≡ spec.next_sum sum.now line.now }
{
    let mut hasher = Sha256::new();
    hasher.update(sum);
    hasher.update(line);
    hasher.finalize()
}

/// Law: two lists of lines of one length whose last sums are equal are the same, or else two different texts
/// with one SHA-256 can be named: each is a sum and a line of one of the lists. It does nothing.
pub fn one_chain()
    ensures { spec.OneChain }
{}

/// Where lines end: how many there are, which is the number of the last, and the sum of the last.
#[derive(Clone, Copy)]
pub(crate) struct End {
    pub(crate) number: u32,
    pub(crate) sum: [u8; 32],
}

impl End {
    /// Where no lines end.
    pub(crate) fn start() -> End
        ensures { result ≡ end_of [] }
    {
        End {
            number: 0,
            sum: [0; 32],
        }
    }

    /// Whether there is room for so many lines more.
    pub(crate) fn has_room(&self, count: usize) -> bool
        ensures { IsTrue result ↔ (self.now.number + count ≤ Most) }
    {
        match MOST_LINES.checked_sub(self.number) {
            Some(room) => count <= room as usize,
            None => false,
        }
    }

    /// Where they end with one line more.
    pub(crate) fn next(&self, line: &[u8]) -> End
        requires { self.now.number < Most }
        ensures { result ≡ next_end self.now line.now }
    {
        End {
            number: self.number + 1,
            sum: next_sum(&self.sum, line),
        }
    }
}
