//! How the commands end where the log is refused, or the input or the output fails.
use cy_outside::{MemSink, MemSource};
use frame_log::LogWhy;
use node_reach::{Ended, allocate, fetch, monitor};

/// A heartbeat of node 42.
const HEARTBEAT: &[u8] = b"(0.000000) can0 107D552A#01000000000000E0\n";

/// A log, the reads and the writes that fail, and how the commands end.
#[derive(Drop)]
struct Cause<'a> {
    log: &'a [u8],
    reads: &'a [u64],
    writes: &'a [u64],
    ended: Ended,
}

const fn refused<'a>(log: &'a [u8], line: u64, why: LogWhy) -> Cause<'a> {
    Cause {
        log,
        reads: &[],
        writes: &[],
        ended: Ended::Log { line, why },
    }
}

#[test]
fn nothing_more_is_said(rt: HostRuntime) {
    let read_fault = Cause {
        log: HEARTBEAT,
        reads: &[1],
        writes: &[],
        ended: Ended::ReadFault,
    };
    let write_fault = Cause {
        log: HEARTBEAT,
        reads: &[],
        writes: &[0],
        ended: Ended::WriteFault,
    };
    let causes = [
        refused(
            b"(0.000000) can0 107D552A#01000000000000E0\nbad\n",
            2,
            LogWhy::BadLine,
        ),
        refused(
            b"(0.000000) can3 107D552A#01000000000000E0\n",
            1,
            LogWhy::UnknownBus,
        ),
        read_fault,
        write_fault,
    ];
    for cause in causes {
        let mut input = MemSource::new(cause.log, cause.reads);
        let mut out = MemSink::new(rt.alloc(), cause.writes);
        assert_eq!(rt; monitor(rt.alloc(), 1, &mut input, &mut out), cause.ended);
        assert!(rt; out.written.is_empty());
        let mut input = MemSource::new(cause.log, cause.reads);
        let mut out = MemSink::new(rt.alloc(), cause.writes);
        assert_eq!(rt; allocate(rt.alloc(), 1, &mut input, &mut out), cause.ended);
        assert!(rt; out.written.is_empty());
        let mut input = MemSource::new(cause.log, cause.reads);
        let mut out = MemSink::new(rt.alloc(), cause.writes);
        let ended = fetch(rt.alloc(), 1, 42, b"a", &mut input, &mut out);
        assert_eq!(rt; ended, cause.ended);
        assert!(rt; !out.written.as_slice().ends_with(b"open 0\n"));
    }
}
