//! When a visit begins, and how long its stream may wait.

use super::notes::{Hand, Manner, Notes, Visitors};
use super::{serve, served};
use crate::tests::desks::new_desk;
use rd_http::{Served, TimeLimits};
use rd_samples::days::AFTER;
use rd_samples::table;
use std::alloc::Global;
use std::test::Fail;
use std::time::Duration;

/// A request of 43 bytes; its reply has 103.
const ASKED: &[u8] = b"GET /images HTTP/1.1\r\nHost: the desk is\r\n\r\n";

/// A visitor who comes half a minute after the one before, and takes this long for a read and a write of so many bytes.
fn visitor(read_time: u64, most_taken: usize, stays: bool) -> Manner {
    Manner {
        idle: 30_000,
        seconds: AFTER,
        read_time,
        write_time: 15_000,
        most_taken,
        writes: usize::MAX,
        stays,
    }
}

const IN_TIME: &str = "30000 read 12000
31000 read 11000
32000 read 10000
33000 read 9000
34000 read 8000
35000 write 20000
50000 write 20000
65000 write 20000
80000 write 5000
95000 end
95000 read 200
126000 read 12000
127000 read 11000
128000 read 10000
129000 read 9000
130000 read 8000
131000 write 20000
146000 write 20000
161000 write 20000
176000 write 5000
191000 end
191000 read 200
";

const SLOW_REQUEST: &str = "30000 read 12000
34000 read 8000
38000 read 4000
42000 end
42000 read 200
";

const SLOW_REPLY: &str = "30000 read 12000
31000 read 11000
32000 read 10000
33000 read 9000
34000 read 8000
35000 write 20000
50000 write 20000
65000 write 20000
80000 write 5000
95000 end
95000 read 200
";

const STAYS: &str = "30000 read 12000
30199 read 11801
30398 read 11602
30597 read 11403
30796 read 11204
30995 write 20000
45995 end
45995 read 200
46194 read 1
";

/// A call: its name; how many milliseconds a read of the visitors takes, how many bytes a write, and whether they stay; how
/// many there are, and how many reads and writes fail; and what the streams are asked.
type Call = (
    &'static str,
    (u64, usize, bool),
    (u32, u32, u32),
    &'static str,
);

const CALLS: &[Call] = table![
    ("two visitors, the second after a while", (1_000, 30, false), (2, 0, 0), IN_TIME);
    ("a request that takes too long", (4_000, 30, false), (1, 1, 0), SLOW_REQUEST);
    ("a reply that takes too long", (1_000, 20, false), (1, 0, 1), SLOW_REPLY);
    ("a visitor who sends a byte each 199 milliseconds, and stays", (199, 1_000, true), (1, 0, 0), STAYS);
];

/// Twelve seconds for a request, twenty for a write and fifty for a reply: none of them is as usual.
fn limits() -> TimeLimits {
    TimeLimits {
        request: Duration::from_secs(12),
        write: Duration::from_secs(20),
        reply: Duration::from_secs(50),
    }
}

/// How a run of so many visits goes at a new desk, through one door: how many there were, how many reads and writes failed,
/// and how it ended.
fn run(alloc: Global, notes: &Notes, manner: Manner, count: u32) -> Result<Served, Fail> {
    let mut desk = new_desk(alloc)?;
    let visitors = [(ASKED, manner), (ASKED, manner)];
    let listener = Visitors::new(notes, &visitors);
    Ok(serve(alloc, listener, Hand(notes), limits(), &mut desk, count))
}

#[test]
fn a_stream_waits_for_what_is_left(rt: HostRuntime) -> Result<(), Fail> {
    for (label, (read_time, most_taken, stays), (visits, reads, writes), asked) in CALLS {
        let notes = Notes::new(rt.alloc(), AFTER);
        let manner = visitor(*read_time, *most_taken, *stays);
        let went = run(rt.alloc(), &notes, manner, *visits)?;
        assert_eq!(rt; went, served(*visits, *reads, *writes), "{label}");
        let noted = notes.asked();
        assert_eq!(rt; noted.as_str(), *asked, "{label}");
    }
    Ok(())
}

/// Before the visitor comes the clock shows a moment that has no day.
#[test]
fn the_moment_of_a_visit_is_that_after_the_visitor_has_come(rt: HostRuntime) -> Result<(), Fail> {
    let notes = Notes::new(rt.alloc(), i64::MIN);
    let manner = visitor(0, 1_000, false);
    assert_eq!(rt; run(rt.alloc(), &notes, manner, 1)?, served(1, 0, 0));
    let out = notes.out();
    assert!(rt; out.as_slice().starts_with(b"HTTP/1.1 200 OK\r\n"));
    Ok(())
}
