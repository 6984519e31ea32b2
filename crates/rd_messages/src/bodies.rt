//! What the bodies of commands say. Each is a text of JSON (RFC 8259) in UTF-8: one object, with
//! the keys that its command names and no others. If a key comes more than once, the last of its
//! values counts. A text with arrays and objects nested more than 127 deep says nothing.

mod audiences;
mod dates;
mod deed;
mod key;
mod objects;
mod rule;
mod select;

pub(crate) use dates::day_of;
pub(crate) use deed::deed_body;
pub(crate) use key::key_body;
pub(crate) use rule::rule_body;
