//! What the program says and writes, where its input and its output are interrupted, cut short or fail.

mod doors;
mod edges;
mod folders;
mod sockets;

use rd_fakes::stream::{End, Narrow, Stumbling, Tape};
use rd_machines::Bare;
use rd_program::{Why, run};
use rd_samples::cpm::hello;
use rd_volume::NoMemory;
use std::alloc::Global;
use std::io::{Read, Write};
use std::test::Fail;

/// The words that write the only file of a CP/M disk.
const CAT: &[&str] = &["cat", "cpm8", "-", "0"];

/// The bytes of the file `HELLO.TXT`: a line of text, and 1A hex to the record's end.
fn hello_bytes(alloc: Global) -> Result<Vec<u8>, NoMemory> {
    let mut bytes = Vec::from_slice(alloc, b"HELLO FROM CP/M\r\n")?;
    bytes.resize(128, 0x1a)?;
    Ok(bytes)
}

// The call of the code under test has a function without a clause, so that no proof of a test carries what it says.

/// Runs words on a machine without files, and gives the status and what the program tells.
fn run_bare<R: Read, W: Write>(
    alloc: Global,
    words: &[&str],
    input: &mut R,
    output: &mut W,
) -> (u8, Vec<u8>) {
    let mut errors = Vec::new(alloc);
    let status = run(
        alloc,
        words,
        input,
        output,
        &mut errors,
        &mut Bare,
        &mut { Why::UNKNOWN },
    );
    (status, errors)
}

/// Whether a run ended so because of its input or its output.
fn is_device(status: u8, errors: &[u8]) -> bool {
    status == 3 && errors == b"desk: device\n".as_slice()
}

#[test]
fn tells_a_device_that_fails(rt: HostRuntime) -> Result<(), Fail> {
    let mut image = hello(rt.alloc())?;
    image.truncate(100_000);
    let mut input = Tape {
        bytes: image.as_slice(),
        is_interrupted: true,
        fails_at_end: true,
    };
    let mut output = Vec::new(rt.alloc());
    let (status, errors) = run_bare(rt.alloc(), CAT, &mut input, &mut output);
    assert!(rt; is_device(status, errors.as_slice()) && output.is_empty());
    Ok(())
}

#[test]
fn passes_over_interruptions(rt: HostRuntime) -> Result<(), Fail> {
    let image = hello(rt.alloc())?;
    let wanted = hello_bytes(rt.alloc())?;
    let mut input = Tape {
        bytes: image.as_slice(),
        is_interrupted: true,
        fails_at_end: false,
    };
    let mut output = Narrow {
        room: 128,
        flushes: 1,
        is_interrupted: true,
        ..Narrow::new(rt.alloc())
    };
    let (status, errors) = run_bare(rt.alloc(), CAT, &mut input, &mut output);
    assert!(rt; status == 0 && errors.is_empty() && output.taken == wanted);
    Ok(())
}

#[test]
fn writes_a_front_part_where_a_write_takes_no_byte(rt: HostRuntime) -> Result<(), Fail> {
    let image = hello(rt.alloc())?;
    let wanted = hello_bytes(rt.alloc())?;
    for room in [0, 1, 100, 127] {
        let mut output = Narrow {
            room,
            flushes: 1,
            end: End::TakesNone,
            ..Narrow::new(rt.alloc())
        };
        let (status, errors) = run_bare(rt.alloc(), CAT, &mut image.as_slice(), &mut output);
        assert!(rt; is_device(status, errors.as_slice()) && output.taken.len() == room);
        assert!(rt; wanted.starts_with(output.taken.as_slice()));
    }
    Ok(())
}

/// Runs whose output does not take the first write, and would take all others: words, and how that write ends.
const STUMBLES: [(&[&str], End); 8] = [
    (&["list", "cpm8", "-"], End::Fails),
    (&["list", "cpm8", "-"], End::TakesNone),
    (CAT, End::Fails),
    (CAT, End::TakesNone),
    (&["--help"], End::Fails),
    (&["list", "--help"], End::TakesNone),
    (&["--version"], End::Fails),
    (&["-V"], End::TakesNone),
];

#[test]
fn a_write_that_fails_ends_the_run(rt: HostRuntime) -> Result<(), Fail> {
    let image = hello(rt.alloc())?;
    for (n, (words, first)) in STUMBLES.iter().enumerate() {
        let mut output = Stumbling {
            first: Some(*first),
            taken: Vec::new(rt.alloc()),
        };
        let (status, errors) = run_bare(rt.alloc(), *words, &mut image.as_slice(), &mut output);
        assert!(rt;
            is_device(status, errors.as_slice()) && output.taken.is_empty(),
            "row {n}"
        );
    }
    Ok(())
}
