//! Paths at which the real machine is to make a Unix socket.

use super::folders::Folder;
use rd_host::Host;
use rd_http::TimeLimits;
use rd_program::{Machine, MachineFault, Place};
use std::fs;
use std::os::unix::fs::{MetadataExt, PermissionsExt, symlink};
use std::os::unix::net::UnixListener;
use std::test::Fail;

/// Whether a machine can listen at a path. It is over at once.
fn listened(rt: &HostRuntime, path: &str) -> Result<(), MachineFault> {
    let mut host = Host::new(rt);
    let listened = host
        .listen(Place::Socket(path), TimeLimits::usual())
        .map(|_| ());
    listened
}

/// Leaves a socket at a path, at which nobody answers.
fn leave_socket(rt: &HostRuntime, path: &str) -> Result<(), Fail> {
    let _left = UnixListener::bind(rt, path)?;
    Ok(())
}

/// Which file is at a path.
fn number_at(rt: &HostRuntime, path: &str) -> Result<(u64, u64), Fail> {
    let found = fs::symlink_metadata(rt, path)?;
    Ok((found.dev(), found.ino()))
}

#[test]
fn a_socket_is_for_owner_and_group_and_goes_with_its_desk(rt: HostRuntime) -> Result<(), Fail> {
    let folder = Folder::new(&rt)?;
    let path = folder.path("door")?;
    {
        let mut host = Host::new(&rt);
        let is_open = host
            .listen(Place::Socket(path.as_str()), TimeLimits::usual())
            .is_ok();
        assert!(rt; is_open);
        let found = fs::symlink_metadata(&rt, path.as_str())?;
        assert!(rt; found.permissions().mode() & 0o777 == 0o660);
    }
    assert!(rt; !fs::exists(&rt, path.as_str())?);
    Ok(())
}

#[test]
fn what_has_taken_the_place_of_a_socket_stays(rt: HostRuntime) -> Result<(), Fail> {
    let folder = Folder::new(&rt)?;
    let path = folder.path("door")?;
    {
        let mut host = Host::new(&rt);
        let is_open = host
            .listen(Place::Socket(path.as_str()), TimeLimits::usual())
            .is_ok();
        assert!(rt; is_open);
        fs::remove_file(&rt, path.as_str())?;
        leave_socket(&rt, path.as_str())?;
    }
    assert!(rt; fs::exists(&rt, path.as_str())?);
    Ok(())
}

#[test]
fn a_socket_that_was_left_gives_way(rt: HostRuntime) -> Result<(), Fail> {
    let folder = Folder::new(&rt)?;
    let path = folder.path("door")?;
    leave_socket(&rt, path.as_str())?;
    assert!(rt; fs::exists(&rt, path.as_str())?, "it was left");
    assert_eq!(rt; listened(&rt, path.as_str()), Ok(()));
    Ok(())
}

/// What does not give way, by its name.
const STAYING: [&str; 5] = ["desk", "listener", "link", "file", "folder"];

/// Makes a socket that was left, a link to it, a file and a folder.
fn make_others(rt: &HostRuntime, folder: &Folder<'_>) -> Result<(), Fail> {
    let left = folder.path("left")?;
    leave_socket(rt, left.as_str())?;
    symlink(rt, left.as_str(), folder.path("link")?.as_str())?;
    fs::write(rt, folder.path("file")?.as_str(), b"BYTES")?;
    fs::create_dir(rt, folder.path("folder")?.as_str())?;
    Ok(())
}

/// Whether nobody can listen at a path, and what is there stays.
fn stays(rt: &HostRuntime, path: &str) -> Result<bool, Fail> {
    let number = number_at(rt, path)?;
    let is_refused = listened(rt, path) == Err(MachineFault::Failed);
    Ok(is_refused && number_at(rt, path)? == number)
}

#[test]
fn nothing_else_gives_way(rt: HostRuntime) -> Result<(), Fail> {
    let folder = Folder::new(&rt)?;
    make_others(&rt, &folder)?;
    let _listener = UnixListener::bind(&rt, folder.path("listener")?.as_str())?;
    let desk = folder.path("desk")?;
    let mut host = Host::new(&rt);
    let is_open = host
        .listen(Place::Socket(desk.as_str()), TimeLimits::usual())
        .is_ok();
    assert!(rt; is_open);
    for name in STAYING {
        assert!(rt; stays(&rt, folder.path(name)?.as_str())?, "{name}");
    }
    assert!(rt;
        fs::exists(&rt, folder.path("left")?.as_str())?,
        "the link's socket"
    );
    Ok(())
}

#[test]
fn a_path_has_a_folder_and_1_to_107_bytes(rt: HostRuntime) -> Result<(), Fail> {
    let folder = Folder::new(&rt)?;
    let longest = folder.path_of(107)?;
    assert_eq!(rt; longest.len(), 107);
    assert_eq!(rt; listened(&rt, longest.as_str()), Ok(()));
    for path in [
        folder.path_of(108)?,
        folder.path("none/door")?,
        folder.path("")?,
    ] {
        assert_eq!(rt;
            listened(&rt, path.as_str()),
            Err(MachineFault::Failed),
            "{path}"
        );
    }
    assert_eq!(rt; listened(&rt, ""), Err(MachineFault::Failed));
    Ok(())
}
