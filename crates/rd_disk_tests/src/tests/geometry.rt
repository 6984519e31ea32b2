//! Kinds of image, their sizes, and the numbers of blocks.

use rd_geometry::{CbmDisk, Image, Items, KIND_WORDS, Kind, NoMemory, Text};
use rd_samples::table;
use std::alloc::Global;
use std::process::Abort;
use std::test::Fail;

/// Words, and the kinds that have them.
const WORDS: &[(&str, Option<Kind>)] = table![
    ("cpm8", Some(Kind::Cpm8));
    ("d64", Some(Kind::D64));
    ("d64e", Some(Kind::D64e));
    ("d64E", None);
    ("d64ee", None);
    ("", None);
    ("cpm", None);
    ("cpm88", None);
    ("CPM8", None);
    (" cpm8", None);
];

/// These words have these kinds, and these kinds these words.
fn assert_words(rt: &impl Abort, cases: &[(&str, Option<Kind>)]) {
    for (word, kind) in cases {
        assert_eq!(rt; Kind::from_word(*word), *kind, "of {word:?}");
        if let Some(kind) = kind {
            assert_eq!(rt; kind.word(), *word);
        }
    }
}

#[test]
fn kinds_have_words(rt: HostRuntime) {
    assert_words(&rt, WORDS);
    assert!(rt; KIND_WORDS == ["cpm8", "d64", "d64e"]);
    assert_eq!(rt; Kind::Cpm8.size(), 256_256);
    assert_eq!(rt; Kind::largest_size(), 256_256);
}

/// Lengths, and whether an image of the kind may have so many bytes.
const SIZES: &[(Kind, usize, bool)] = table![
    (Kind::Cpm8, 0, false);
    (Kind::Cpm8, 1, false);
    (Kind::Cpm8, 128, false);
    (Kind::Cpm8, 256_255, false);
    (Kind::Cpm8, 256_257, false);
    (Kind::Cpm8, 256_256, true);
    (Kind::D64, 174_848, true);
    (Kind::D64, 175_531, false);
    (Kind::D64e, 174_848, false);
    (Kind::D64e, 175_530, false);
    (Kind::D64e, 175_531, true);
];

/// Whether so many bytes are an image of a kind, or are refused with their number.
fn is_image(alloc: Global, kind: Kind, size: usize, fits: bool) -> Result<bool, NoMemory> {
    let bytes = vec![in alloc; 7; size]?;
    Ok(match Image::new(kind, bytes.as_slice()) {
        Ok(image) => fits && image.kind() == kind && image.bytes().len() == size,
        Err(wrong) => !fits && wrong.found == size,
    })
}

fn assert_sizes(rt: &impl Abort, alloc: Global, cases: &[(Kind, usize, bool)]) {
    for (kind, size, fits) in cases {
        assert_eq!(rt;
            is_image(alloc, *kind, *size, *fits),
            Ok(true),
            "of {size} bytes"
        );
    }
}

#[test]
fn images_have_the_size_of_their_kind(rt: HostRuntime) {
    assert_sizes(&rt, rt.alloc(), SIZES);
}

/// Tracks and sectors, and the block that they name.
const BLOCKS: &[(u8, u8, Option<u16>)] = table![
    (1, 0, Some(0));
    (17, 20, Some(356));
    (18, 0, Some(357));
    (18, 18, Some(375));
    (19, 0, Some(376));
    (24, 18, Some(489));
    (25, 0, Some(490));
    (30, 17, Some(597));
    (31, 0, Some(598));
    (35, 16, Some(682));
    (0, 0, None);
    (0, 255, None);
    (17, 21, None);
    (18, 19, None);
    (24, 19, None);
    (25, 18, None);
    (30, 18, None);
    (31, 17, None);
    (35, 17, None);
    (36, 0, None);
    (255, 255, None);
];

/// Whether a track and a sector name this block, which has that track and that sector.
fn name(track: u8, sector: u8, block: Option<u16>) -> bool {
    CbmDisk::index(track, sector) == block
        && match block {
            Some(block) => block < 683 && CbmDisk::address(block) == (track, sector),
            None => true,
        }
}

fn assert_blocks(rt: &impl Abort, cases: &[(u8, u8, Option<u16>)]) {
    for (track, sector, block) in cases {
        assert!(rt; name(*track, *sector, *block), "{track}/{sector}");
    }
}

#[test]
fn blocks_are_counted_by_track_then_sector(rt: HostRuntime) {
    assert_blocks(&rt, BLOCKS);
}

#[test]
fn lists_and_texts_give_back_what_they_hold(rt: HostRuntime) -> Result<(), Fail> {
    let items = Items::of([1, 2, 3].to_vec(rt.alloc())?);
    assert!(rt; items.as_slice() == [1, 2, 3].as_slice());
    assert!(rt; items.into_vec().as_slice() == [1, 2, 3].as_slice());
    let text = Text::of(String::from_str(rt.alloc(), "room")?);
    assert!(rt; text.as_str() == "room");
    assert!(rt; text.into_string().as_str() == "room");
    Ok(())
}
