//! What a crash may leave of files.

use crate::files::{Drives, Pair, are_settled};
use rand_pcg::Pcg32;
use std::alloc::{AllocError, Global};

/// How many parts of the changes since the last syncs are drawn.
const PARTS: usize = 2;

/// What a crash keeps of the changes since the last syncs.
#[derive(Clone, Copy, PartialEq, Eq)]
pub(crate) enum Kept {
    Nothing,
    All,
    /// A drawn part; parts are counted from 1.
    Part(usize),
}

impl Kept {
    /// What the output says of it.
    pub(crate) fn words(self, alloc: Global) -> Result<String, AllocError> {
        match self {
            Kept::Nothing => String::from_str(alloc, "nothing kept"),
            Kept::All => String::from_str(alloc, "all kept"),
            Kept::Part(number) => {
                let all = PARTS;
                Ok(format!(in alloc; "part {number} of {all} kept")?)
            }
        }
    }
}

/// What a crash leaves.
#[derive(Drop)]
pub(crate) struct Left {
    pub(crate) kept: Kept,
    pub(crate) pair: Pair,
}

/// Adds what a crash leaves, unless the same stands there already.
fn add(all: &mut Vec<Left>, kept: Kept, pair: Pair) -> Result<(), AllocError> {
    for left in all.iter() {
        if left.pair.is_same(&pair) {
            return Ok(());
        }
    }
    Ok(all.push(Left { kept, pair })?)
}

/// What a crash may leave of files now: with nothing kept, with all kept, and with some parts, each
/// only where it differs from those before it.
pub(crate) fn leavings(
    alloc: Global,
    files: &Drives,
    draws: &mut Pcg32,
) -> Result<Vec<Left>, AllocError> {
    let mut all = Vec::new(alloc);
    add(&mut all, Kept::Nothing, Pair::lost(files)?)?;
    if are_settled(files) {
        return Ok(all);
    }
    add(&mut all, Kept::All, Pair::kept(files)?)?;
    for number in 1..=PARTS {
        add(&mut all, Kept::Part(number), Pair::part(files, draws)?)?;
    }
    Ok(all)
}
