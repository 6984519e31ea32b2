//! Files of the real machine.

use super::folders::Folder;
use rd_host::Host;
use rd_program::{Files, Machine, MachineFault, WriteFault};
use std::alloc::Global;
use std::fs;
use std::test::Fail;

/// As what the machine reads a file.
#[derive(Clone, Copy, Debug)]
enum Read {
    Image,
    Sheet,
}

/// What the real machine gives of the file at a path.
fn given(rt: &HostRuntime, alloc: Global, read: Read, path: &str) -> Result<Vec<u8>, MachineFault> {
    let mut host = Host::new(rt);
    match read {
        Read::Image => host.read_file(alloc, path),
        Read::Sheet => host.read_sheet(alloc, path),
    }
}

/// What the real machine gives of a path: so many bytes, or a fault. Of an image it reads a byte more than the largest has.
const PATHS: [(Read, &str, Result<usize, MachineFault>); 6] = [
    (Read::Image, "/", Err(MachineFault::Failed)),
    (Read::Image, "/no-such-file", Err(MachineFault::Failed)),
    (Read::Image, "/dev/zero", Ok(256_257)),
    (Read::Sheet, "/", Err(MachineFault::Failed)),
    (Read::Sheet, "/no-such-file", Err(MachineFault::Failed)),
    (Read::Sheet, "/dev/null", Ok(0)),
];

#[test]
fn the_machine_reads_no_folder_and_no_more_than_an_image(rt: HostRuntime) {
    for (read, path, wanted) in PATHS {
        let given = given(&rt, rt.alloc(), read, path);
        assert!(rt; given.map(|bytes| bytes.len()) == wanted, "{read:?} {path}");
    }
}

/// Whether the machine gives all bytes of a file, so many commas.
fn is_read(rt: &HostRuntime, read: Read, count: usize) -> Result<bool, Fail> {
    let folder = Folder::new(rt)?;
    let path = folder.path("file")?;
    let bytes = vec![in rt.alloc(); b','; count]?;
    fs::write(rt, path.as_str(), bytes.as_slice())?;
    let given = given(rt, rt.alloc(), read, path.as_str());
    Ok(given == Ok(bytes))
}

#[test]
fn the_machine_makes_no_store_where_none_is(rt: HostRuntime) -> Result<(), Fail> {
    let folder = Folder::new(&rt)?;
    let path = folder.path("store")?;
    let log = folder.path("store-wal")?;
    let mut host = Host::new(&rt);
    fs::write(&rt, path.as_str(), b"a text that is no database")?;
    assert!(rt; host.connect(path.as_str(), false, false).is_err());
    assert!(rt; !host.is_missing(path.as_str()));
    assert!(rt; !fs::exists(&rt, log.as_str())?);
    fs::remove_file(&rt, path.as_str())?;
    assert!(rt; host.connect(path.as_str(), false, false).is_err());
    assert!(rt; host.is_missing(path.as_str()));
    assert!(rt; !fs::exists(&rt, path.as_str())?);
    assert!(rt; !host.is_missing("/no-such-folder/museum.sqlite"));
    assert!(rt; !host.is_missing(""));
    Ok(())
}

#[test]
fn the_machine_makes_files_over_nothing_and_in_folders_alone(rt: HostRuntime) -> Result<(), Fail> {
    let folder = Folder::new(&rt)?;
    let path = folder.path("new")?;
    let parent = folder.path("")?;
    let mut host = Host::new(&rt);
    let written = host.write_new(rt.alloc(), "", "new", b"one");
    assert!(rt; written == Err(WriteFault::Failed));
    let written = host.write_new(rt.alloc(), parent.as_str(), "new", b"one");
    assert!(rt; written == Ok(()));
    let written = host.write_new(rt.alloc(), parent.as_str(), "new", b"two");
    assert!(rt; written == Err(WriteFault::Exists));
    let bytes = host.read_file(rt.alloc(), path.as_str());
    assert!(rt; bytes.is_ok_and(|bytes| bytes.as_slice() == b"one".as_slice()));
    assert!(rt; host.is_ordinary(path.as_str()));
    assert!(rt; !host.is_ordinary(parent.as_str()));
    assert!(rt; !host.is_ordinary("/dev/zero"));
    Ok(())
}

#[test]
fn the_machine_reads_a_file(rt: HostRuntime) -> Result<(), Fail> {
    assert!(rt; is_read(&rt, Read::Image, 5)?);
    assert!(rt; is_read(&rt, Read::Sheet, 300_000)?);
    Ok(())
}
