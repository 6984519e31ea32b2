//! Images of 1541 disks, written without the code that reads them. A call fails only when memory
//! runs out.

ghost use Rattle.std.specs.Prelude.{◌≡◌, ◌<◌, ◌≤◌, ◌+◌, ◌++◌, ◌∷◌, [], length, replicate, vec_len, IfOk, OnErr, OnOk};
ghost use Rattle.rd_geometry.specs.Blocks.{place_of_block, place_of_mark};
ghost use Rattle.rd_samples.specs.CbmEntries.{place_of_entry, with_entry};
ghost use Rattle.rd_samples.specs.Written.{written};

use crate::bytes::{numbered, padded, put, zeroed};
use rd_geometry::NoMemory;
use std::alloc::Global;

/// The number of bytes of an image: 683 blocks of 256.
const SIZE: usize = 683 * 256;

/// The block 18/0, which has the disk's name and its free blocks.
const FREE_MAP: u16 = 17 * 21;

/// The block 18/1, the first of the directory.
pub const DIRECTORY: u16 = 17 * 21 + 1;

/// The block 17/0, where most files of these images begin.
const FIRST: u16 = 16 * 21;

/// An entry of the directory to be written.
#[derive(Clone, Copy, Debug)]
pub struct NewCbmEntry<'a> {
    /// The byte of the type.
    pub type_byte: u8,
    /// The track and the sector of the first block.
    pub first: (u8, u8),
    /// The name: its first sixteen bytes count, padded with A0 hex.
    pub name: &'a [u8],
    /// The track and the sector of the first side sector.
    pub side: (u8, u8),
    /// The length of a record.
    pub record_length: u8,
    /// The size in blocks.
    pub size: u16,
}

/// An entry of a closed program `FILE`, at block 17/0, with no side sectors and no size.
pub const PROGRAM: NewCbmEntry<'static> = NewCbmEntry {
    type_byte: 0x82,
    first: (17, 0),
    name: b"FILE",
    side: (0, 0),
    record_length: 0,
    size: 0,
};

/// Writes bytes from the first byte of a block on. Blocks are counted from 0 in the order of
/// tracks and sectors. If the image is too short for the bytes, it writes none.
pub fn put_block(image: &mut [u8], block: u16, bytes: &[u8])
    ensures value { place_of_block block + length bytes.now ≤ length image.old
        → image.new ≡ written image.old (place_of_block block) bytes.now }
    ensures kept { length image.old < place_of_block block + length bytes.now
        → image.new ≡ image.old }
    ensures sized { length image.new ≡ length image.old }
{
    put(image, 256 * block as usize, bytes);
}

/// Writes an entry at a slot, 0 to 7, of a block of the directory. Bytes 0 and 1 and bytes 24 to
/// 29 of the slot stay. If the image is too short for the slot, it writes nothing.
pub fn put_cbm_entry(image: &mut [u8], block: u16, slot: u8, entry: &NewCbmEntry<'_>)
    requires { slot < 8 }
    ensures value { place_of_entry block slot + 32 ≤ length image.old
        → image.new ≡ with_entry image.old (place_of_entry block slot) entry.now }
    ensures kept { length image.old < place_of_entry block slot + 32 → image.new ≡ image.old }
    ensures sized { length image.new ≡ length image.old }
{
    let place = 256 * block as usize + 32 * slot as usize;
    if image.len() < place + 32 {
        return;
    }
    put(
        image,
        place + 2,
        &[entry.type_byte, entry.first.0, entry.first.1],
    );
    put(image, place + 5, &padded::<16>(entry.name, 0xa0));
    put(
        image,
        place + 21,
        &[entry.side.0, entry.side.1, entry.record_length],
    );
    put(
        image,
        place + 30,
        &[(entry.size % 256) as u8, (entry.size / 256) as u8],
    );
}

/// Adds the error bytes of a disk that was read without an error to its image: for each block a 1. If memory is
/// refused, the image is as it was.
pub fn add_marks(image: &mut Vec<u8>) -> Result<(), NoMemory>
    ensures added { OnOk result (image.new.items ≡ image.old.items ++ replicate 683 1) }
    ensures refused { OnErr result (image.new.items ≡ image.old.items) }
{
    image.extend_from_slice(&[1; 683])?;
    Ok(())
}

/// Writes the error byte of a block. Where the image ends before it, nothing is written.
pub fn put_mark(image: &mut [u8], block: u16, mark: u8)
    ensures value { place_of_mark block < length image.old
        → image.new ≡ written image.old (place_of_mark block) (mark ∷ []) }
    ensures kept { length image.old ≤ place_of_mark block → image.new ≡ image.old }
    ensures sized { length image.new ≡ length image.old }
{
    put(image, SIZE + block as usize, &[mark]);
}

/// The four bytes that count the free blocks of a track of an empty disk: how many, and a bit for
/// each.
fn free_blocks(track: u8) -> [u8; 4] {
    match track {
        0..=17 => [0x15, 0xff, 0xff, 0x1f],
        18 => [0x11, 0xfc, 0xff, 0x07],
        19..=24 => [0x13, 0xff, 0xff, 0x07],
        25..=30 => [0x12, 0xff, 0xff, 0x03],
        _ => [0x11, 0xff, 0xff, 0x01],
    }
}

/// Writes the free blocks of each track of an empty disk.
fn put_free_blocks(image: &mut [u8])
    ensures { length image.new ≡ length image.old }
{
    for track in 1..36 {
        put(
            image,
            256 * FREE_MAP as usize + 4 * track as usize,
            &free_blocks(track),
        );
    }
}

/// An image whose bytes are all 0.
fn zeros(alloc: Global) -> Result<Vec<u8>, NoMemory>
    ensures { IfOk result (λ image. vec_len image ≡ 174848) }
{
    Ok(vec![in alloc; 0; SIZE]?)
}

/// A formatted disk `MUSEUM` with no file. All bytes that the format does not need are 0.
pub fn formatted(alloc: Global) -> Result<Vec<u8>, NoMemory>
    ensures { IfOk result (λ image. vec_len image ≡ 174848) }
{
    let mut image = zeros(alloc)?;
    let place = 256 * FREE_MAP as usize;
    put_block(&mut image, FREE_MAP, &[18, 1, 0x41, 0]);
    put_free_blocks(&mut image);
    put(&mut image, place + 144, &padded::<18>(b"MUSEUM", 0xa0));
    put(&mut image, place + 162, b"RD");
    put_block(&mut image, DIRECTORY, &[0, 0xff]);
    Ok(image)
}

/// A disk with one program `HELLO` of two blocks: 254 times `A`, then `BCDE`.
pub fn one_program(alloc: Global) -> Result<Vec<u8>, NoMemory>
    ensures { IfOk result (λ image. vec_len image ≡ 174848) }
{
    let mut image = formatted(alloc)?;
    let file = NewCbmEntry {
        name: b"HELLO",
        size: 2,
        ..PROGRAM
    };
    put_cbm_entry(&mut image, DIRECTORY, 0, &file);
    put_block(&mut image, FIRST, &[b'A'; 256]);
    put_block(&mut image, FIRST, &[17, 10]);
    put_block(&mut image, FIRST + 10, b"\x00\x05BCDE");
    Ok(image)
}

/// A disk with one program `LOOP` of three blocks; the third links to the second.
pub fn looped(alloc: Global) -> Result<Vec<u8>, NoMemory>
    ensures { IfOk result (λ image. vec_len image ≡ 174848) }
{
    let mut image = formatted(alloc)?;
    let file = NewCbmEntry {
        name: b"LOOP",
        size: 3,
        ..PROGRAM
    };
    put_cbm_entry(&mut image, DIRECTORY, 0, &file);
    put_block(&mut image, FIRST, &[17, 1]);
    put_block(&mut image, FIRST + 1, &[17, 2]);
    put_block(&mut image, FIRST + 2, &[17, 1]);
    Ok(image)
}

/// A disk with three programs: `A` and `B` link to one block, `C` has a block of its own.
pub fn crossed(alloc: Global) -> Result<Vec<u8>, NoMemory>
    ensures { IfOk result (λ image. vec_len image ≡ 174848) }
{
    let mut image = formatted(alloc)?;
    let files = [
        NewCbmEntry {
            name: b"A",
            size: 2,
            ..PROGRAM
        },
        NewCbmEntry {
            name: b"B",
            first: (17, 1),
            size: 2,
            ..PROGRAM
        },
        NewCbmEntry {
            name: b"C",
            first: (17, 2),
            size: 1,
            ..PROGRAM
        },
    ];
    put_cbm_entry(&mut image, DIRECTORY, 0, &files[0]);
    put_cbm_entry(&mut image, DIRECTORY, 1, &files[1]);
    put_cbm_entry(&mut image, DIRECTORY, 2, &files[2]);
    put_block(&mut image, FIRST, &[17, 5]);
    put_block(&mut image, FIRST + 1, &[17, 5]);
    put_block(&mut image, FIRST + 5, b"\x00\x02Z");
    put_block(&mut image, FIRST + 2, b"\x00\x03XY");
    Ok(image)
}

/// A disk with a relative file `DATA`, a separator of the type `DEL`, and a program `LOST` that was
/// never closed.
pub fn mixed(alloc: Global) -> Result<Vec<u8>, NoMemory>
    ensures { IfOk result (λ image. vec_len image ≡ 174848) }
{
    let mut image = formatted(alloc)?;
    let data = NewCbmEntry {
        type_byte: 0x84,
        name: b"DATA",
        side: (17, 1),
        record_length: 10,
        size: 2,
        ..PROGRAM
    };
    let separator = NewCbmEntry {
        type_byte: 0x80,
        first: (0, 0),
        name: b"--------",
        ..PROGRAM
    };
    let lost = NewCbmEntry {
        type_byte: 0x02,
        first: (17, 2),
        name: b"LOST",
        ..PROGRAM
    };
    put_cbm_entry(&mut image, DIRECTORY, 0, &data);
    put_cbm_entry(&mut image, DIRECTORY, 1, &separator);
    put_cbm_entry(&mut image, DIRECTORY, 2, &lost);
    put_block(&mut image, FIRST, &[0, 11]);
    put_block(&mut image, FIRST + 1, &[0, 17]);
    Ok(image)
}

fn track_and_sector(block: u16) -> (u8, u8)
    requires { block < 683 }
{
    let (track, on, sectors) = match block {
        0..=356 => (1, block, 21),
        357..=489 => (18, block - 357, 19),
        490..=597 => (25, block - 490, 18),
        _ => (31, block - 598, 17),
    };
    ((track + on / sectors) as u8, (on % sectors) as u8)
}

/// Links each block but the last to the next, past the two blocks 18/0 and 18/1.
fn link_blocks(image: &mut [u8])
    ensures { length image.new ≡ length image.old }
{
    for block in 0..682 {
        if block != FREE_MAP && block != DIRECTORY {
            let next = if block + 1 == FREE_MAP {
                DIRECTORY + 1
            } else {
                block + 1
            };
            let (track, sector) = track_and_sector(next);
            put_block(image, block, &[track, sector]);
        }
    }
}

/// The blocks that files can have, in order: the block at a place of them.
fn block_at(place: u16) -> u16
    requires { place < 681 }
{
    if place < FREE_MAP { place } else { place + 2 }
}

/// Writes into each block that files can have, after its link, the bytes that distinguish it from
/// the others.
fn number_blocks(image: &mut [u8])
    ensures { length image.new ≡ length image.old }
{
    for place in 0..681 {
        let block = block_at(place);
        put(image, 256 * block as usize + 2, &numbered::<254>(block));
    }
}

/// Writes the bytes of the blocks that files can have, one block after the other.
fn join_blocks(bytes: &mut [u8])
    ensures { length bytes.new ≡ length bytes.old }
{
    for place in 0..681 {
        put(
            bytes,
            254 * place as usize,
            &numbered::<254>(block_at(place)),
        );
    }
}

/// The bytes of the program of a full disk.
pub fn full_file(alloc: Global) -> Result<Vec<u8>, NoMemory>
    ensures { IfOk result (λ bytes. vec_len bytes ≡ 172974) }
{
    let mut bytes = zeroed(alloc, 172_974)?;
    join_blocks(&mut bytes);
    Ok(bytes)
}

/// A disk with one program `LONG`, which has all 681 blocks that files can have, in order, and
/// bytes that distinguish each block from the others.
pub fn full(alloc: Global) -> Result<Vec<u8>, NoMemory>
    ensures { IfOk result (λ image. vec_len image ≡ 174848) }
{
    let mut image = formatted(alloc)?;
    let file = NewCbmEntry {
        name: b"LONG",
        first: (1, 0),
        size: 681,
        ..PROGRAM
    };
    put_cbm_entry(&mut image, DIRECTORY, 0, &file);
    link_blocks(&mut image);
    number_blocks(&mut image);
    put_block(&mut image, 682, &[0, 0xff]);
    Ok(image)
}
