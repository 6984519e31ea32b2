//! Desk keys.

use rd_samples::keys::{ROOM_KEY, STAFF_KEY};

/// A desk key as its holder knows it; the public has none.
pub(super) type Key = Option<&'static str>;

pub(super) const PUBLIC: Key = None;

pub(super) const ROOM: Key = Some(ROOM_KEY);

pub(super) const STAFF: Key = Some(STAFF_KEY);

/// A key that is in no table.
pub(super) const NOBODY: Key = Some("nobody");
