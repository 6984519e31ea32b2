//! CP/M images, written without the code that reads them. A call fails only when memory runs out.

ghost use Rattle.std.specs.Prelude.{◌≡◌, ◌<◌, ◌≤◌, ◌+◌, length, vec_len, IfOk};
ghost use Rattle.rd_geometry.specs.Places.{place_of_cpm_unit};
ghost use Rattle.rd_samples.specs.CpmEntries.{entry_bytes, place_of_slot};
ghost use Rattle.rd_samples.specs.Written.{written};

use crate::bytes::{numbered, padded, put, zeroed};
use rd_geometry::NoMemory;
use std::alloc::Global;

/// The number of bytes of an image.
const SIZE: usize = 256_256;

/// The sectors of the first track after the two system tracks that hold the directory, counted
/// from 0, in the order of the slots.
const DIRECTORY_SECTORS: [u8; 16] = [0, 6, 12, 18, 24, 4, 10, 16, 22, 2, 8, 14, 20, 1, 7, 13];

/// An entry of the directory to be written.
#[derive(Clone, Copy, Debug)]
pub struct NewEntry<'a> {
    /// The byte of the user number.
    pub user: u8,
    /// The name: its first eight bytes count, padded with blanks.
    pub name: &'a [u8],
    /// The type: its first three bytes count, padded with blanks.
    pub extension: &'a [u8],
    /// The byte EX.
    pub ex: u8,
    /// The byte S2.
    pub s2: u8,
    /// The byte RC.
    pub rc: u8,
    /// The block numbers: the first sixteen count, padded with 0.
    pub pointers: &'a [u8],
}

/// An entry of the file `FILE` of user 0, of extent 0, with no records.
pub const FILE: NewEntry<'static> = NewEntry {
    user: 0,
    name: b"FILE",
    extension: b"",
    ex: 0,
    s2: 0,
    rc: 0,
    pointers: b"",
};

/// The byte of an image at which the entry of a slot begins.
fn place_of_slot(slot: u8) -> usize
    requires { slot < 64 }
    ensures { result ≡ place_of_slot slot }
{
    let sector = DIRECTORY_SECTORS[(slot / 4) as usize] as usize;
    128 * (2 * 26 + sector) + 32 * (slot % 4) as usize
}

/// The 32 bytes of an entry.
fn entry_bytes(entry: &NewEntry<'_>) -> [u8; 32]
    ensures { result ≡ entry_bytes entry.now }
{
    let mut bytes = [0; 32];
    put(&mut bytes, 0, &[entry.user]);
    put(&mut bytes, 1, &padded::<8>(entry.name, b' '));
    put(&mut bytes, 9, &padded::<3>(entry.extension, b' '));
    put(&mut bytes, 12, &[entry.ex, 0, entry.s2, entry.rc]);
    put(&mut bytes, 16, &padded::<16>(entry.pointers, 0));
    bytes
}

/// Writes an entry at a slot of the directory, 0 to 63. If the image is too short for it, it
/// writes nothing.
pub fn put_entry(image: &mut [u8], slot: u8, entry: &NewEntry<'_>)
    requires { slot < 64 }
    ensures value { place_of_slot slot + 32 ≤ length image.old
        → image.new ≡ written image.old (place_of_slot slot) (entry_bytes entry.now) }
    ensures kept { length image.old < place_of_slot slot + 32 → image.new ≡ image.old }
    ensures sized { length image.new ≡ length image.old }
{
    put(image, place_of_slot(slot), &entry_bytes(entry));
}

/// An image whose bytes are all alike.
pub fn filled(alloc: Global, byte: u8) -> Result<Vec<u8>, NoMemory>
    ensures { IfOk result (λ image. vec_len image ≡ 256256) }
{
    Ok(vec![in alloc; byte; SIZE]?)
}

/// A formatted disk with no file: every byte is E5 hex.
pub fn blank(alloc: Global) -> Result<Vec<u8>, NoMemory>
    ensures { IfOk result (λ image. vec_len image ≡ 256256) }
{
    filled(alloc, 0xe5)
}

/// A blank disk with the first 64 of these entries, from slot 0 on.
pub fn with_entries(alloc: Global, entries: &[NewEntry<'_>]) -> Result<Vec<u8>, NoMemory>
    ensures { IfOk result (λ image. vec_len image ≡ 256256) }
{
    let mut image = blank(alloc)?;
    for slot in 0..64 {
        if let Some(entry) = entries.get(slot as usize) {
            put_entry(&mut image, slot, entry);
        }
    }
    Ok(image)
}

/// A disk with one file, `HELLO.TXT` of user 0, of one record in block 2: a line of text, and
/// `1A` hex to the record's end. All other bytes are blanks.
pub fn hello(alloc: Global) -> Result<Vec<u8>, NoMemory>
    ensures { IfOk result (λ image. vec_len image ≡ 256256) }
{
    let mut image = filled(alloc, 0x20)?;
    let file = NewEntry {
        name: b"HELLO",
        extension: b"TXT",
        rc: 1,
        pointers: b"\x02",
        ..FILE
    };
    put_entry(&mut image, 0, &file);
    put(&mut image, 9_088, &[0x1a; 128]);
    put(&mut image, 9_088, b"HELLO FROM CP/M\r\n");
    Ok(image)
}

/// The sixteen blocks from 2 to 17.
const BLOCKS: [u8; 16] = [2, 3, 4, 5, 6, 7, 8, 9, 10, 11, 12, 13, 14, 15, 16, 17];

/// The byte of an image at which a sector begins, counted from 0 after the two system tracks: six sectors
/// on at each place of a track, going round at 26, and one more from place 13 on.
fn place_of_sector(n: u16) -> usize
    requires { n < 1950 }
    ensures { result ≡ place_of_cpm_unit n }
{
    let place = n as usize % 26;
    128 * (26 * (2 + n as usize / 26) + ((6 * place) % 26 + place / 13))
}

/// Writes into each record of the blocks 2 to 242 the bytes that distinguish it from the others.
fn number_records(image: &mut [u8])
    ensures { length image.new ≡ length image.old }
{
    for record in 0..1928 {
        put(
            image,
            place_of_sector(16 + record),
            &numbered::<128>(record),
        );
    }
}

/// The block numbers of an extent of a file that has all blocks in order.
fn blocks_of(extent: u8) -> [u8; 16] {
    let mut blocks = [0; 16];
    for place in 0..16u8 {
        let block = 2 + 16 * u16::from(extent) + u16::from(place);
        if let Ok(block) = u8::try_from(block) {
            if block <= 242 {
                blocks[place as usize] = block;
            }
        }
    }
    blocks
}

/// Writes sixteen extents of the file `FILE`, from 15 down to 0, at the slots from 0 on.
fn put_extents(image: &mut [u8])
    ensures { length image.new ≡ length image.old }
{
    for slot in 0..16u8 {
        let extent = 15 - slot;
        let rc = if extent == 15 { 8 } else { 128 };
        let entry = NewEntry {
            ex: extent,
            rc,
            pointers: &blocks_of(extent),
            ..FILE
        };
        put_entry(image, slot, &entry);
    }
}

/// A disk with one file `FILE` of 1,928 records, which has all blocks from 2 to 242 in order; its
/// sixteen extents are in the slots in descending order.
pub fn scattered(alloc: Global) -> Result<Vec<u8>, NoMemory>
    ensures { IfOk result (λ image. vec_len image ≡ 256256) }
{
    let mut disk = blank(alloc)?;
    put_extents(&mut disk);
    number_records(&mut disk);
    Ok(disk)
}

/// A disk with one file `FILE` of 128 records, in the blocks 2 to 17 of its first extent; the second is
/// empty.
pub fn two_extents(alloc: Global) -> Result<Vec<u8>, NoMemory>
    ensures { IfOk result (λ image. vec_len image ≡ 256256) }
{
    let full = NewEntry {
        rc: 128,
        pointers: &BLOCKS,
        ..FILE
    };
    let mut disk = with_entries(alloc, &[full, NewEntry { ex: 1, ..FILE }])?;
    number_records(&mut disk);
    Ok(disk)
}

/// Writes the bytes of the records of the blocks from 2 on, one after the other.
fn join_records(bytes: &mut [u8])
    ensures { length bytes.new ≡ length bytes.old }
{
    for record in 0..1928 {
        put(bytes, 128 * record as usize, &numbered::<128>(record));
    }
}

/// The bytes of the file of `scattered`, which begin with those of the file of `two_extents`.
pub fn scattered_file(alloc: Global) -> Result<Vec<u8>, NoMemory>
    ensures { IfOk result (λ bytes. vec_len bytes ≡ 246784) }
{
    let mut bytes = zeroed(alloc, 246_784)?;
    join_records(&mut bytes);
    Ok(bytes)
}
