//! The outside fails at one call, whichever that is.
use crate::runs::{Done, HEARS, Run, SERVES, come_of};
use node_run::Status;
use std::alloc::Global;
use std::process::Abort;
use std::str::from_utf8;
use std::test::Fail;

/// A run of files. Each line of its log comes at a moment of its own: the first at 5.000001 s.
const FILES: Run<'static> = Run {
    log: b"(5.000001) can0 1365957B#00000000000000A0\n\
        (5.000002) can0 1365957B#0000187240\n\
        (5.000003) can0 1366157B#0000000000022FA1\n\
        (5.000004) can0 1366157B#61350141\n\
        (5.000005) can0 1365557B#0161E2\n\
        (5.000006) can0 1366157B#00000000000162E3\n",
    ..SERVES
};

/// Which part of the outside fails.
#[derive(Clone, Copy, PartialEq, Eq)]
enum Part {
    Input,
    Output,
    Tree,
}

#[test]
fn a_call_that_fails_leaves_a_beginning(rt: HostRuntime) -> Result<(), Fail> {
    let rows = [
        (HEARS, Part::Input),
        (HEARS, Part::Output),
        (FILES, Part::Input),
        (FILES, Part::Output),
        (FILES, Part::Tree),
    ];
    for (run, part) in rows {
        fail_each(&rt, rt.alloc(), &run, part)?;
    }
    Ok(())
}

/// The run, of which this part's calls with these numbers fail.
fn failing<'a>(run: &Run<'a>, part: Part, calls: &'a [u64]) -> Run<'a> {
    match part {
        Part::Input => Run {
            input: calls,
            ..*run
        },
        Part::Output => Run { out: calls, ..*run },
        Part::Tree => Run {
            tree: calls,
            ..*run
        },
    }
}

/// Lets each call of a part fail in turn, until there is none.
fn fail_each(rt: &impl Abort, alloc: Global, run: &Run<'_>, part: Part) -> Result<(), Fail> {
    let whole = come_of(alloc, run)?;
    assert!(rt; matches!(whole.status, Status::Ok) && whole.report.delivered > 1);
    for call in 0..100 {
        let calls = [call];
        let failed = come_of(alloc, &failing(run, part, &calls))?;
        if failed.faults == 0 {
            assert!(rt; matches!(failed.status, Status::Ok) && call > 2);
            assert_eq!(rt; failed.written.as_slice(), whole.written.as_slice());
            return Ok(());
        }
        match part {
            Part::Input => assert!(rt; matches!(failed.status, Status::ReadFault)),
            Part::Output => assert!(rt; matches!(failed.status, Status::WriteFault)),
            Part::Tree => assert!(rt; matches!(failed.status, Status::Ok)),
        }
        if part == Part::Tree {
            differ_in_one_reply(rt, alloc, &failed, &whole)?;
        } else {
            assert!(rt;
                whole
                    .written
                    .as_slice()
                    .starts_with(failed.written.as_slice())
            );
            assert!(rt; failed.report.failed.is_empty());
        }
    }
    panic!(rt; "a call is left")
}

/// The lines of a run are those of another, but for the frames of one reply: on the request whose
/// last frame stands on the line that is told.
fn differ_in_one_reply(
    rt: &impl Abort,
    alloc: Global,
    failed: &Done,
    whole: &Done,
) -> Result<(), Fail> {
    assert_eq!(rt; failed.report.failed.len(), 1);
    let line = failed.report.failed.as_slice()[0];
    let reply = format!(in alloc; "tx 5.00000{line} ")?;
    let mut left = from_utf8(whole.written.as_slice())?.lines();
    let mut differs = false;
    for text in from_utf8(failed.written.as_slice())?.lines() {
        let same = left.next().ok_or("a line more")?;
        if text != same {
            assert!(rt; text.starts_with(reply.as_str()) && same.starts_with(reply.as_str()));
            differs = true;
        }
    }
    assert!(rt; left.next().is_none() && differs);
    Ok(())
}
