//! Changes of a file since its last sync, and the parts of them that a crash keeps.

use crate::bytes::{resize, write_over};
use rand_core::Rng;
use rand_pcg::Pcg32;
use std::alloc::{AllocError, Global};

/// How many bytes of a write a crash keeps, loses or harms together.
const PIECE: usize = 512;

/// A call that changed a file.
#[derive(Drop)]
pub(crate) enum Step {
    /// It wrote these bytes from an offset on.
    Write(usize, Vec<u8>),
    /// It cut or filled the file to a length.
    Length(usize),
}

/// Notes a write of bytes from an offset on.
pub(crate) fn note_write(
    alloc: Global,
    steps: &mut Vec<Step>,
    at: usize,
    bytes: &[u8],
) -> Result<(), AllocError> {
    Ok(steps.push(Step::Write(at, Vec::from_slice(alloc, bytes)?))?)
}

/// Notes a change of the length.
pub(crate) fn note_length(steps: &mut Vec<Step>, len: usize) -> Result<(), AllocError> {
    Ok(steps.push(Step::Length(len))?)
}

/// A draw with two outcomes.
fn is_drawn(draws: &mut Pcg32) -> bool {
    draws.next_u32() % 2 == 0
}

/// Makes a change in a file.
fn apply(file: &mut Vec<u8>, step: &Step) -> Result<(), AllocError> {
    match step {
        Step::Write(at, bytes) => write_over(file, *at, bytes.as_slice()),
        Step::Length(len) => resize(file, *len),
    }
}

/// Makes changes in a file.
pub(crate) fn apply_all(file: &mut Vec<u8>, steps: &[Step]) -> Result<(), AllocError> {
    for step in steps {
        apply(file, step)?;
    }
    Ok(())
}

/// Cuts a file to a length, or fills it with zeros, or neither, as a draw says.
fn resize_or_not(file: &mut Vec<u8>, len: usize, draws: &mut Pcg32) -> Result<(), AllocError> {
    if is_drawn(draws) {
        resize(file, len)?;
    }
    Ok(())
}

// Calls that a crash keeps whole.

/// Makes some of the changes in a file, each of them whole.
fn keep_calls(file: &mut Vec<u8>, steps: &[Step], draws: &mut Pcg32) -> Result<(), AllocError> {
    for step in steps {
        if is_drawn(draws) {
            apply(file, step)?;
        }
    }
    Ok(())
}

// The first calls.

/// Makes the front of a change in a file: of a write the first bytes, as many as a draw says, from none to all.
fn apply_front(file: &mut Vec<u8>, step: &Step, draws: &mut Pcg32) -> Result<(), AllocError> {
    match step {
        Step::Write(at, bytes) => {
            let count = draws.next_u32() as usize % (bytes.len() + 1);
            write_over(file, *at, &bytes[..count])
        }
        Step::Length(len) => resize_or_not(file, *len, draws),
    }
}

/// Makes the first changes in a file, as many as a draw says, and the front of the one after them.
fn keep_front(file: &mut Vec<u8>, steps: &[Step], draws: &mut Pcg32) -> Result<(), AllocError> {
    let count = draws.next_u32() as usize % (steps.len() + 1);
    apply_all(file, &steps[..count])?;
    match steps.get(count) {
        Some(step) => apply_front(file, step, draws),
        None => Ok(()),
    }
}

// All but a piece or two.

/// How many pieces changes write.
fn pieces_of(steps: &[Step]) -> usize {
    let mut count = 0usize;
    for step in steps {
        if let Step::Write(_, bytes) = step {
            let pieces = bytes.len().saturating_add(PIECE - 1) / PIECE;
            count = count.saturating_add(pieces);
        }
    }
    count
}

/// A draw of one of so many pieces.
fn drawn_piece(pieces: usize, draws: &mut Pcg32) -> usize {
    let drawn = draws.next_u32() as usize;
    if pieces == 0 { 0 } else { drawn % pieces }
}

/// Writes these bytes over those of a file from an offset on, without the two lost pieces. Pieces
/// are counted from the first change on; gives the number of the next one.
fn write_but(
    file: &mut Vec<u8>,
    at: usize,
    bytes: &[u8],
    first: usize,
    lost: (usize, usize),
) -> Result<usize, AllocError> {
    let mut place = at;
    let mut number = first;
    for piece in bytes.chunks(PIECE) {
        if number != lost.0 && number != lost.1 {
            write_over(file, place, piece)?;
        }
        place = place.saturating_add(PIECE);
        number = number.saturating_add(1);
    }
    Ok(number)
}

/// Makes a change in a file without the two lost pieces, and gives the number of the next piece.
fn apply_but(
    file: &mut Vec<u8>,
    step: &Step,
    first: usize,
    lost: (usize, usize),
) -> Result<usize, AllocError> {
    match step {
        Step::Write(at, bytes) => write_but(file, *at, bytes.as_slice(), first, lost),
        Step::Length(len) => {
            resize(file, *len)?;
            Ok(first)
        }
    }
}

/// Makes all changes in a file but one piece or two that are drawn.
fn keep_all_but(file: &mut Vec<u8>, steps: &[Step], draws: &mut Pcg32) -> Result<(), AllocError> {
    let pieces = pieces_of(steps);
    let one = drawn_piece(pieces, draws);
    let other = drawn_piece(pieces, draws);
    let mut number = 0usize;
    for step in steps {
        number = apply_but(file, step, number, (one, other))?;
    }
    Ok(())
}

// Each piece by a draw of its own.

/// What a crash leaves of a piece.
#[derive(Clone, Copy)]
enum Remains {
    Kept,
    Lost,
    /// It leaves other bytes there.
    Harmed,
}

/// Draws what remains of a piece. From an offset on a crash may leave any bytes.
fn remains_at(place: usize, any_from: usize, draws: &mut Pcg32) -> Remains {
    let drawn = draws.next_u32();
    if place >= any_from && drawn % 3 == 0 {
        Remains::Harmed
    } else if drawn % 2 == 0 {
        Remains::Kept
    } else {
        Remains::Lost
    }
}

/// Writes so many drawn bytes over those of a file from an offset on.
fn write_drawn(
    file: &mut Vec<u8>,
    at: usize,
    count: usize,
    draws: &mut Pcg32,
) -> Result<(), AllocError> {
    let alloc = *file.allocator();
    let mut bytes = vec![in alloc; 0u8; count]?;
    draws.fill_bytes(bytes.as_mut_slice());
    write_over(file, at, bytes.as_slice())
}

/// Writes the pieces of these bytes over those of a file from an offset on, each kept, lost or harmed, as is drawn.
fn write_pieces(
    file: &mut Vec<u8>,
    at: usize,
    bytes: &[u8],
    any_from: usize,
    draws: &mut Pcg32,
) -> Result<(), AllocError> {
    let mut place = at;
    for piece in bytes.chunks(PIECE) {
        match remains_at(place, any_from, draws) {
            Remains::Kept => write_over(file, place, piece)?,
            Remains::Lost => {}
            Remains::Harmed => write_drawn(file, place, piece.len(), draws)?,
        }
        place = place.saturating_add(PIECE);
    }
    Ok(())
}

/// Makes some pieces of a change in a file.
fn apply_pieces(
    file: &mut Vec<u8>,
    step: &Step,
    any_from: usize,
    draws: &mut Pcg32,
) -> Result<(), AllocError> {
    match step {
        Step::Write(at, bytes) => write_pieces(file, *at, bytes.as_slice(), any_from, draws),
        Step::Length(len) => resize_or_not(file, *len, draws),
    }
}

/// Makes some pieces of the changes in a file.
fn keep_pieces(
    file: &mut Vec<u8>,
    steps: &[Step],
    any_from: usize,
    draws: &mut Pcg32,
) -> Result<(), AllocError> {
    for step in steps {
        apply_pieces(file, step, any_from, draws)?;
    }
    Ok(())
}

/// Makes a part of the changes in a file. A draw says whether it is some calls, the first ones, all
/// but a piece or two, or some pieces. Of pieces from an offset on a crash may leave any bytes.
pub(crate) fn keep_part(
    file: &mut Vec<u8>,
    steps: &[Step],
    any_from: usize,
    draws: &mut Pcg32,
) -> Result<(), AllocError> {
    match draws.next_u32() % 4 {
        0 => keep_calls(file, steps, draws),
        1 => keep_front(file, steps, draws),
        2 => keep_all_but(file, steps, draws),
        _ => keep_pieces(file, steps, any_from, draws),
    }
}
