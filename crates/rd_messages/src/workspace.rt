use crate::kept_router::KeptRouter;
use crate::limits::{LONGEST_HEAD, MOST_FIELDS};
use httparse::spans::{EMPTY_HEADER_SPAN, HeaderSpan};

/// What visits use one after the other, so that none makes it anew: room for the head of a request and for its fields,
/// and the router of paths. No visit reads what an earlier one left in the room.
#[derive(Drop)]
pub struct Workspace {
    pub(crate) head: [u8; LONGEST_HEAD],
    pub(crate) spans: [HeaderSpan; MOST_FIELDS],
    pub(crate) router: KeptRouter,
}

impl Workspace {
    /// A workspace that no visit has used yet. It takes no memory.
    pub fn new() -> Workspace {
        Workspace {
            head: [0; LONGEST_HEAD],
            spans: [EMPTY_HEADER_SPAN; MOST_FIELDS],
            router: KeptRouter::new(),
        }
    }
}
