//! The runs: what each starts from, what it does, and what it must change.

use crate::bases::Base;
use crate::commands::{Command, Sample};
use crate::drive::Sort;
use crate::files::USUAL_FRAMES;
use rd_policy::Audience;
use rd_samples::rules::{CLOSED, NewRule, TAKEDOWN};
use std::alloc::{AllocError, Global};

/// What a run does.
#[derive(Clone, Copy)]
pub(crate) enum Action {
    /// Makes a desk.
    Create,
    /// Makes a desk each of whose pages ends in a sum.
    CreateWithSums,
    /// Makes a desk: a copy of one that stands in other files.
    Copy,
    /// The same where a desk stands.
    CopyToDesk,
    /// Asks for a desk where one stands.
    CreateSecond,
    /// Brings a desk to the newest version.
    Migrate,
    /// Opens a desk, and gives it commands of the staff in turn. Each is a change.
    Ask(&'static [Command]),
    /// The same, but all of them count as one change.
    AskAsOne(&'static [Command]),
    /// Imports a sheet of so many rows. Each is a change.
    Import(usize),
    /// Puts a key of the staff by a command that asks for none.
    PutStaffKey,
}

impl Action {
    /// How many changes it reports as done, one after the other.
    pub(crate) fn changes(self) -> usize {
        match self {
            Action::Import(rows) => rows,
            Action::Ask(commands) => commands.len(),
            Action::CreateSecond | Action::CopyToDesk => 0,
            Action::Create
            | Action::CreateWithSums
            | Action::Copy
            | Action::Migrate
            | Action::AskAsOne(_)
            | Action::PutStaffKey => 1,
        }
    }

    /// Whether it asks for sums in a database that is new.
    pub(crate) fn asks_sums(self) -> bool {
        matches!(self, Action::CreateWithSums)
    }

    /// The action that makes only its first changes, where each of them is a command or a row.
    pub(crate) fn first(self, changes: usize) -> Action {
        match self {
            Action::Import(_) => Action::Import(changes),
            Action::Ask(commands) => {
                let count = changes.min(commands.len());
                Action::Ask(&commands[..count])
            }
            action => action,
        }
    }
}

/// Where a file stops.
#[derive(Clone, Copy)]
pub(crate) enum Stops {
    /// Each file after 0, 1, 2 and more of its calls, and then none.
    Each,
    /// So many of these, drawn by the seed.
    Drawn(u32),
}

impl Stops {
    /// How many they are, of so many that there are.
    pub(crate) fn count(self, all: u64) -> u64 {
        match self {
            Stops::Each => all,
            Stops::Drawn(count) => u64::from(count),
        }
    }

    /// What the output says of it.
    pub(crate) fn words(self, alloc: Global) -> Result<String, AllocError> {
        match self {
            Stops::Each => String::from_str(alloc, "a stop at each"),
            Stops::Drawn(count) => format!(in alloc; "{count} stops drawn"),
        }
    }
}

/// What must come in a run.
#[derive(Clone, Copy, PartialEq, Eq)]
pub(crate) enum Wanted {
    /// After each stop the desk before a change, or the one after it.
    Right,
    /// After some stop another one, since the run is made so.
    Wrong,
}

#[derive(Clone, Copy)]
pub(crate) struct Run {
    pub(crate) name: &'static str,
    /// The sorts of files on which it is played.
    pub(crate) sorts: &'static [Sort],
    pub(crate) base: Base,
    /// The database from which it copies a desk, if it copies one.
    pub(crate) source: Base,
    pub(crate) action: Action,
    pub(crate) stops: Stops,
    /// How many pages the log holds when a commit copies it into the database before it writes.
    pub(crate) frames: usize,
    /// Whether it closes the files in the end, so that the log is copied into the database.
    pub(crate) is_closed: bool,
    /// How often the change syncs that syncs least, where it makes several.
    pub(crate) least_syncs: Option<u64>,
    /// What is asked of the database in SQL, once its desk has the newest version.
    pub(crate) question: &'static str,
    /// The version of the desk before the run, and the rows that then answer the question; or why no
    /// desk opens.
    pub(crate) before: &'static str,
    /// The same after the run.
    pub(crate) after: &'static str,
    pub(crate) wanted: Wanted,
}

impl Run {
    /// Whether the tables hold after it, at the newest version, what they hold before it.
    pub(crate) fn has_same_tables(&self) -> bool {
        self.before == self.after || matches!(self.action, Action::Migrate)
    }
}

/// Files on which each commit syncs twice.
const TWICE: &[Sort] = &[Sort::AnyBytes];

/// Files on which a commit may sync once.
const ONCE: &[Sort] = &[Sort::OldOrNew];

/// Files of both sorts.
const BOTH: &[Sort] = &[Sort::AnyBytes, Sort::OldOrNew];

/// A run that makes a desk, from which the other runs have what they do not say. A commit copies
/// what stands in the log before it writes, and the files are closed in the end.
const MADE: Run = Run {
    name: "a desk is made",
    sorts: BOTH,
    base: Base::Empty,
    source: Base::Empty,
    action: Action::Create,
    stops: Stops::Each,
    frames: 1,
    is_closed: true,
    least_syncs: None,
    question: "SELECT audience FROM badge",
    before: "empty\n",
    after: "version 2\n2\n",
    wanted: Wanted::Right,
};

/// An image with error bytes is put.
const IMAGE_PUT: Run = Run {
    name: "an image with error bytes is put",
    base: Base::Image,
    action: Action::Ask(&[Command::PutImage(14, Sample::LoopedWithMarks)]),
    question: "SELECT 'image' FROM image WHERE acc = 14 UNION ALL SELECT name FROM found WHERE acc = 14 UNION ALL SELECT length(bytes) FROM marks WHERE acc = 14",
    before: "version 2\n",
    after: "version 2\nimage\nLOOP\n683\n",
    ..MADE
};

/// A deed is put.
const DEED_PUT: Run = Run {
    name: "a deed is put",
    sorts: TWICE,
    base: Base::Desk,
    action: Action::Ask(&[THIRD_DEED]),
    question: "SELECT num, donor, signed FROM deed WHERE num > 7 ORDER BY num",
    before: "version 2\n8|B. Donor|18321\n",
    after: "version 2\n8|B. Donor|18321\n9|C. Donor|18628\n",
    ..MADE
};

/// A desk is copied: an image, a takedown of it, and keys.
const COPIED: Run = Run {
    name: "a desk is copied",
    source: Base::Takedown,
    action: Action::Copy,
    question: "SELECT rank FROM rule UNION ALL SELECT acc FROM found UNION ALL SELECT num FROM deed UNION ALL SELECT audience FROM badge WHERE audience = 1",
    before: "empty\n",
    after: "version 2\n1\n10\n20\n12\n7\n8\n1\n",
    ..MADE
};

/// The command for a third deed.
const THIRD_DEED: Command = Command::PutDeed {
    num: 9,
    donor: "C. Donor",
    signed: 18_628,
};

/// The command for a fourth deed.
const FOURTH_DEED: Command = Command::PutDeed {
    num: 10,
    donor: "D. Donor",
    signed: 18_629,
};

/// The command that gives the key `hello` another audience.
const KEY_CHANGED: Command = Command::PutKey("hello", Audience::Staff);

/// The rule of rank 10 of deed 7, without an end.
const CLOSED_WITHOUT_END: NewRule = NewRule {
    until: None,
    ..CLOSED
};

/// Ten images are imported. The log stays as it is, as where the process ends before it closes the
/// files.
const IMPORTED: Run = Run {
    name: "ten images are imported",
    sorts: TWICE,
    base: Base::Desk,
    action: Action::Import(10),
    frames: USUAL_FRAMES,
    is_closed: false,
    least_syncs: Some(2),
    question: "SELECT acc FROM found ORDER BY acc",
    before: "version 2\n",
    after: "version 2\n21\n22\n23\n24\n25\n26\n27\n28\n29\n30\n",
    ..MADE
};

/// A key of the staff is put by a command that asks for none.
const STAFF_KEY_PUT: Run = Run {
    name: "a key of the staff is put without another",
    action: Action::PutStaffKey,
    question: "SELECT audience FROM badge ORDER BY audience",
    before: "version 2\n1\n2\n",
    after: "version 2\n1\n2\n2\n",
    ..DEED_PUT
};

/// The runs of the first program, which stop at each call; the copies, which do so too, stand in
/// `MORE_RUNS`. The draws of a run hang on its place here, so a new one stands at the end.
pub(crate) const RUNS: &[Run] = &[
    MADE,
    Run {
        name: "a desk is made where tables were dropped",
        sorts: TWICE,
        base: Base::Bare,
        ..MADE
    },
    Run {
        name: "no desk is made where one stands",
        sorts: TWICE,
        base: Base::Image,
        action: Action::CreateSecond,
        question: "SELECT rank FROM rule ORDER BY rank",
        before: "version 2\n10\n20\n",
        after: "version 2\n10\n20\n",
        ..MADE
    },
    IMAGE_PUT,
    Run {
        name: "an image that stands is put again",
        sorts: TWICE,
        base: Base::Image,
        action: Action::Ask(&[Command::PutImage(12, Sample::Program)]),
        question: "SELECT acc FROM found",
        before: "version 2\n12\n",
        after: "version 2\n12\n",
        ..IMAGE_PUT
    },
    Run {
        name: "a takedown is put",
        base: Base::Image,
        action: Action::Ask(&[Command::PutRule(TAKEDOWN)]),
        question: "SELECT scope, rank, audiences, number, effect FROM rule WHERE band = 0",
        before: "version 2\n",
        after: "version 2\n12|1|3|0|0\n",
        ..IMAGE_PUT
    },
    Run {
        name: "a rule is put in place of another",
        action: Action::Ask(&[Command::PutRule(CLOSED_WITHOUT_END)]),
        question: "SELECT rank, day_until FROM rule ORDER BY rank",
        before: "version 2\n10|21915\n20|NULL\n",
        after: "version 2\n10|NULL\n20|NULL\n",
        ..DEED_PUT
    },
    Run {
        name: "a rule is dropped",
        action: Action::Ask(&[Command::DropRule(CLOSED)]),
        question: "SELECT rank FROM rule ORDER BY rank",
        before: "version 2\n10\n20\n",
        after: "version 2\n20\n",
        ..DEED_PUT
    },
    Run {
        name: "a key gets another audience",
        action: Action::Ask(&[KEY_CHANGED]),
        question: "SELECT audience FROM badge ORDER BY audience",
        before: "version 2\n1\n2\n",
        after: "version 2\n2\n2\n",
        ..DEED_PUT
    },
    Run {
        name: "a key is dropped",
        base: Base::Image,
        action: Action::Ask(&[Command::DropKey("hello")]),
        question: "SELECT audience FROM badge ORDER BY audience",
        before: "version 2\n1\n2\n",
        after: "version 2\n2\n",
        ..IMAGE_PUT
    },
    DEED_PUT,
    Run {
        name: "a deed is put behind a torn log",
        base: Base::Torn,
        ..DEED_PUT
    },
    Run {
        name: "a deed is put in place of another",
        action: Action::Ask(&[Command::PutDeed {
            num: 8,
            donor: "C. Donor",
            signed: 18_628,
        }]),
        after: "version 2\n8|C. Donor|18628\n",
        ..DEED_PUT
    },
    Run {
        name: "an image is checked",
        sorts: TWICE,
        base: Base::Logged,
        action: Action::Ask(&[Command::Check(12)]),
        question: "SELECT acc, day, outcome FROM checked",
        before: "version 2\n",
        after: "version 2\n12|21915|0\n",
        ..IMAGE_PUT
    },
    Run {
        name: "an image is checked again on its day",
        sorts: TWICE,
        base: Base::Checked,
        action: Action::Ask(&[Command::Check(12)]),
        question: "SELECT acc, day, outcome FROM checked",
        before: "version 2\n12|21915|0\n",
        after: "version 2\n12|21915|0\n",
        ..IMAGE_PUT
    },
    Run {
        name: "tables are brought to version 2",
        base: Base::First,
        action: Action::Migrate,
        question: "SELECT image.acc, kind, name FROM image JOIN found ON found.acc = image.acc ORDER BY image.acc",
        before: "version 1\n12|1|HELLO\n13|1|LOOP\n15|0|HELLO.TXT\n",
        after: "version 2\n12|1|HELLO\n13|1|LOOP\n15|0|HELLO.TXT\n",
        ..MADE
    },
    Run {
        name: "commands are given one after the other",
        sorts: ONCE,
        action: Action::Ask(&[
            THIRD_DEED,
            FOURTH_DEED,
            KEY_CHANGED,
            Command::PutImage(13, Sample::Looped),
        ]),
        frames: USUAL_FRAMES,
        least_syncs: Some(1),
        question: "SELECT num FROM deed WHERE num > 8 UNION ALL SELECT audience FROM badge WHERE audience = 1 UNION ALL SELECT acc FROM found",
        before: "version 2\n1\n",
        after: "version 2\n9\n10\n13\n",
        ..DEED_PUT
    },
    IMPORTED,
    Run {
        name: "two images are imported, and the log is copied before the second",
        sorts: ONCE,
        action: Action::Import(2),
        frames: 30,
        is_closed: true,
        least_syncs: Some(6),
        after: "version 2\n21\n22\n",
        ..IMPORTED
    },
    Run {
        name: "control: two commands are taken as one change",
        action: Action::AskAsOne(&[THIRD_DEED, FOURTH_DEED]),
        after: "version 2\n8|B. Donor|18321\n9|C. Donor|18628\n10|D. Donor|18629\n",
        wanted: Wanted::Wrong,
        ..DEED_PUT
    },
    Run {
        name: "control: a deed is put",
        sorts: &[Sort::Forgetful],
        wanted: Wanted::Wrong,
        ..DEED_PUT
    },
    Run {
        name: "a takedown is dropped",
        sorts: BOTH,
        base: Base::Takedown,
        action: Action::Ask(&[Command::DropRule(TAKEDOWN)]),
        question: "SELECT scope, rank FROM rule ORDER BY band, rank",
        before: "version 2\n12|1\n7|10\n7|20\n",
        after: "version 2\n7|10\n7|20\n",
        ..DEED_PUT
    },
    Run {
        name: "a key of the staff is dropped",
        sorts: BOTH,
        base: Base::Takedown,
        action: Action::Ask(&[Command::DropKey("other")]),
        question: "SELECT audience FROM badge ORDER BY audience",
        before: "version 2\n1\n2\n2\n",
        after: "version 2\n1\n2\n",
        ..DEED_PUT
    },
    Run {
        name: "a key is put that is new",
        sorts: BOTH,
        action: Action::Ask(&[Command::PutKey("guest", Audience::Room)]),
        question: "SELECT audience FROM badge ORDER BY audience",
        before: "version 2\n1\n2\n",
        after: "version 2\n1\n1\n2\n",
        ..DEED_PUT
    },
    Run {
        name: "a CP/M image is put",
        sorts: BOTH,
        action: Action::Ask(&[Command::PutImage(15, Sample::Record)]),
        question: "SELECT kind, length(bytes), name FROM image JOIN found ON found.acc = image.acc",
        before: "version 2\n",
        after: "version 2\n0|256256|HELLO.TXT\n",
        ..DEED_PUT
    },
    Run {
        name: "commands are given one after the other, and each copies the log of the one before",
        sorts: TWICE,
        action: Action::Ask(&[
            THIRD_DEED,
            FOURTH_DEED,
            KEY_CHANGED,
            Command::PutImage(13, Sample::Looped),
        ]),
        least_syncs: Some(6),
        question: "SELECT num FROM deed WHERE num > 8 UNION ALL SELECT audience FROM badge WHERE audience = 1 UNION ALL SELECT acc FROM found",
        before: "version 2\n1\n",
        after: "version 2\n9\n10\n13\n",
        ..DEED_PUT
    },
    Run {
        name: "a desk with sums is made",
        action: Action::CreateWithSums,
        ..MADE
    },
    Run {
        name: "a takedown is put where pages have sums",
        sorts: TWICE,
        base: Base::Summed,
        action: Action::Ask(&[Command::PutRule(TAKEDOWN)]),
        question: "SELECT scope, rank FROM rule WHERE band = 0",
        before: "version 2\n",
        after: "version 2\n12|1\n",
        ..MADE
    },
    STAFF_KEY_PUT,
    Run {
        name: "a key of the staff is put without another where pages have sums",
        base: Base::Summed,
        ..STAFF_KEY_PUT
    },
];

/// The runs of the second program: the one with too many calls for a stop at each, and the copies. Here, too, a new one
/// stands at the end.
pub(crate) const MORE_RUNS: &[Run] = &[
    Run {
        name: "forty images are imported",
        action: Action::Import(40),
        stops: Stops::Drawn(100),
        is_closed: true,
        question: "SELECT count(*), min(acc), max(acc) FROM found",
        before: "version 2\n0|NULL|NULL\n",
        after: "version 2\n40|21|60\n",
        ..IMPORTED
    },
    COPIED,
    Run {
        name: "a desk is copied to where tables were dropped",
        base: Base::Bare,
        ..COPIED
    },
    Run {
        name: "no desk is copied to where one stands",
        sorts: TWICE,
        base: Base::Desk,
        source: Base::Takedown,
        action: Action::CopyToDesk,
        question: "SELECT rank FROM rule ORDER BY rank",
        before: "version 2\n10\n20\n",
        after: "version 2\n10\n20\n",
        ..MADE
    },
];
