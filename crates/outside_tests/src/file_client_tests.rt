//! A file that is fetched piece by piece.
use cy_bits::NoMemory;
use file_client::{Fetch, FetchEvent, FetchOut};
use std::process::Abort;

static FULL: [u8; 256] = [7; 256];

static MORE: [u8; 45] = [9; 45];

const LATE: FetchEvent<'static> = FetchEvent::Late;

const GAVE_UP: FetchOut = FetchOut::GaveUp { offset: 256 };

const REFUSED: FetchOut = FetchOut::Refused { code: 2 };

const TOO_LONG: FetchOut = FetchOut::TooLong { length: 301 };

/// Events, each with the answer that is wanted.
type Steps<'a> = &'a [(FetchEvent<'a>, FetchOut)];

fn reply(tid: u8, bytes: &[u8]) -> FetchEvent<'_> {
    FetchEvent::Reply {
        tid,
        code: 0,
        bytes,
    }
}

fn refusal(tid: u8) -> FetchEvent<'static> {
    FetchEvent::Reply {
        tid,
        code: 2,
        bytes: b"",
    }
}

fn ask(tid: u8, offset: u64) -> FetchOut {
    FetchOut::Ask { tid, offset }
}

/// Goes through the steps, the last of which is answered by an end, and then has that end, this transfer-ID, so many
/// bytes, and these as the last of them.
fn goes(rt: &impl Abort, mut fetch: Fetch, steps: Steps<'_>, tid: u8, offset: u64, last: &[u8]) {
    let mut end = None;
    for (ev, want) in steps {
        let out = match *ev {
            FetchEvent::Reply { tid, code, bytes } => {
                assert!(rt; bytes.len() <= 256);
                fetch.event(FetchEvent::Reply { tid, code, bytes })
            }
            FetchEvent::Late => fetch.event(FetchEvent::Late),
        };
        assert_eq!(rt; out, *want);
        end = Some(out);
    }
    assert_eq!(rt; fetch.end(), end);
    assert_eq!(rt; fetch.tid(), tid);
    assert_eq!(rt; fetch.offset(), offset);
    assert_eq!(rt; fetch.bytes().len() as u64, offset);
    assert!(rt; fetch.bytes().ends_with(last));
}

#[test]
fn fetches_a_file(rt: HostRuntime) -> Result<(), NoMemory> {
    let open = || Fetch::open(rt.alloc(), 300);
    let whole = [
        (reply(0, &FULL), ask(1, 256)),
        (reply(1, b"abc"), FetchOut::Done),
        (LATE, FetchOut::Done),
    ];
    goes(&rt, open()?, &whole, 1, 259, b"\x07abc");
    let old = [
        (LATE, ask(1, 0)),
        (reply(0, b"old"), FetchOut::Wait),
        (reply(1, b""), FetchOut::Done),
    ];
    goes(&rt, open()?, &old, 1, 0, b"");
    let refused = [(refusal(0), REFUSED), (reply(0, b"abc"), REFUSED)];
    goes(&rt, open()?, &refused, 0, 0, b"");
    let late = [
        (LATE, ask(1, 0)),
        (reply(1, &FULL), ask(2, 256)),
        (LATE, ask(3, 256)),
        (LATE, ask(4, 256)),
        (LATE, ask(5, 256)),
        (LATE, ask(6, 256)),
        (reply(2, b"abc"), FetchOut::Wait),
        (LATE, ask(7, 256)),
        (LATE, ask(8, 256)),
        (LATE, ask(9, 256)),
        (LATE, GAVE_UP),
        (reply(9, b"abc"), GAVE_UP),
    ];
    goes(&rt, open()?, &late, 9, 256, b"\x07");
    let long = [(reply(0, &FULL), ask(1, 256)), (reply(1, &MORE), TOO_LONG)];
    goes(&rt, open()?, &long, 1, 256, b"\x07");
    Ok(())
}
