ghost use Rattle.std.specs.Prelude.{◌≡◌, ◌↔◌, ◌+◌, ◌/◌, ◌%◌, ◌<◌, ◌≤◌, Some, length, IfSome, IsSome};
ghost use Rattle.rd_geometry.specs.Blocks as spec;
ghost use Rattle.rd_geometry.specs.Kinds.{IsCbm, size_of};
ghost use Rattle.rd_geometry.specs.Blocks.{CBM_BLOCKS, CBM_BLOCK_LENGTH, CBM_SIZE, index_of, mark_of, place_of_block, sectors_of};

use crate::geometry::Geometry;
use crate::image::Image;
use crate::kind::Kind;

/// A Commodore 1541 disk. Its units are its 683 blocks of 256 bytes, in the order of their tracks,
/// then of their sectors (1541 User's Guide; public D64 documentation). Its image may have an error byte
/// for each block, behind them all.
#[derive(Debug, Drop)]
pub struct CbmDisk<'a> {
    kind: Kind,
    bytes: &'a [u8],
    pub ghost cbm: { IsCbm kind },
    pub ghost sized: { length bytes.now ≡ size_of kind },
    pub ghost long: { CBM_SIZE ≤ length bytes.now },
}

/// How many sectors a track has; 0 if the disk has no such track.
pub(crate) fn sectors(track: u8) -> u8
    ensures { result ≡ sectors_of track }
{
    match track {
        1..=17 => 21,
        18..=24 => 19,
        25..=30 => 18,
        31..=35 => 17,
        _ => 0,
    }
}

/// How many blocks lie on the tracks before a track of the disk, 1 to 35.
pub(crate) fn blocks_before(track: u8) -> u16
    requires first { 1 ≤ track }
    requires last { track ≤ 35 }
    ensures count { result ≡ spec.blocks_before track 0 }
    ensures room { result + sectors_of track ≤ CBM_BLOCKS }
{
    let track = u16::from(track);
    match track {
        1..=17 => 21 * (track - 1),
        18..=24 => 357 + 19 * (track - 18),
        25..=30 => 490 + 18 * (track - 25),
        _ => 598 + 17 * (track - 31),
    }
}

/// The track and the sector of the block `rest` blocks after the first block of `track`, where
/// each track has `sectors` sectors.
fn counted_on(track: u8, sectors: u8, rest: u16) -> (u8, u8)
    requires some { 1 ≤ sectors }
    requires near { track + rest / sectors ≤ 35 }
    ensures track { result.0 ≡ track + rest / sectors }
    ensures sector { result.1 ≡ rest % sectors }
{
    let sectors = u16::from(sectors);
    (track + (rest / sectors) as u8, (rest % sectors) as u8)
}

/// The byte of an image at which a block begins.
pub(crate) fn place_of(n: u16) -> usize
    ensures { result ≡ place_of_block n }
{
    256 * n as usize
}

impl<'a> CbmDisk<'a> {
    ghost use Rattle.rd_geometry.specs.Images.{kind_of, bytes_of};
    ghost use Rattle.rd_geometry.specs.CbmDisks.{cbm_bytes, cbm_kind};

    /// The disk of an image, with error bytes or without, `None` where the image is of another kind.
    pub fn of(image: &Image<'a>) -> Option<CbmDisk<'a>>
        ensures some { IsSome result ↔ IsCbm (kind_of image.now) }
        ensures kind { IfSome result (λ disk. cbm_kind disk ≡ kind_of image.now) }
        ensures bytes { IfSome result (λ disk. cbm_bytes disk ≡ bytes_of image.now) }
    {
        match image.kind() {
            Kind::D64 | Kind::D64e => Some(CbmDisk {
                kind: image.kind(),
                bytes: image.bytes(),
            }),
            Kind::Cpm8 => None,
        }
    }

    /// The kind of the disk's image: `D64`, or `D64e` where it has error bytes.
    pub fn kind(&self) -> Kind
        ensures value { result ≡ cbm_kind self.now }
        ensures cbm { IsCbm result }
    {
        self.kind
    }

    /// The error byte of block `n` (public D64 documentation): 1, which means no error, for an image
    /// without error bytes.
    pub fn mark(&self, n: u16) -> u8
        requires { n < CBM_BLOCKS }
        ensures value { result ≡ mark_of (cbm_bytes self.now) n }
        ensures none { cbm_kind self.now ≡ Kind.D64 → result ≡ 1 }
    {
        match self.kind {
            Kind::D64e => self.bytes[683 * 256 + n as usize],
            Kind::D64 | Kind::Cpm8 => 1,
        }
    }

    /// The index, 0 to 682, of the block at a track, from 1, and a sector, from 0: how many blocks
    /// come before it. `None` where they name no block (public D64 documentation).
    #[tactic(auto, using(crate::proofs::Zones::index_there, crate::proofs::Zones::index_none, crate::proofs::Zones::index_below))]
    pub fn index(track: u8, sector: u8) -> Option<u16>
        ensures index { result ≡ index_of track sector }
        ensures below { IfSome result (λ n. n < CBM_BLOCKS) }
    {
        if sector < sectors(track) {
            Some(blocks_before(track) + u16::from(sector))
        } else {
            None
        }
    }

    /// The track, 1 to 35, and the sector, counted from 0, of the block with index `n`, 0 to 682
    /// (public D64 documentation).
    #[tactic(auto, using(crate::proofs::Zones::first_zone, crate::proofs::Zones::second_zone, crate::proofs::Zones::third_zone, crate::proofs::Zones::fourth_zone))]
    pub fn address(n: u16) -> (u8, u8)
        requires { n < CBM_BLOCKS }
        ensures { index_of result.0 result.1 ≡ Some n }
    {
        match n {
            0..=356 => counted_on(1, 21, n),
            357..=489 => counted_on(18, 19, n - 357),
            490..=597 => counted_on(25, 18, n - 490),
            _ => counted_on(31, 17, n - 598),
        }
    }
}

impl<'a> Geometry<'a> for CbmDisk<'a> {
    ghost use Rattle.rd_geometry.specs.CbmDisks.{cbm_bytes};

    ghost image_bytes = { cbm_bytes };

    ghost unit_count = { λ _. CBM_BLOCKS };

    ghost unit_length = { λ _. CBM_BLOCK_LENGTH };

    ghost place_of = { λ _. place_of_block };

    fn units(&self) -> u16 {
        683
    }

    fn unit_len(&self) -> usize {
        256
    }

    fn place(&self, n: u16) -> usize {
        place_of(n)
    }

    fn unit(&self, n: u16) -> &'a [u8] {
        let start = place_of(n);
        let _sized = &self;
        &self.bytes[start..start + 256]
    }

    ghost use Rattle.rd_geometry.specs.Laws.{block_inside, blocks_apart};

    ghost inside = { λ disk n below. block_inside n _ below disk.long };

    ghost apart = { λ disk. blocks_apart };
}
