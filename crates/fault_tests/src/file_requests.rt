//! A node that serves files, and what its requests come to.
use crate::runs::{Run, SERVES, come_of};
use node_run::Status;
use std::alloc::Global;
use std::process::Abort;
use std::test::Fail;

/// Which calls of the tree fail, the log, all text that is written, the lines of the requests in
/// which the tree failed, and how many calls of the tree there are.
struct Row {
    tree: &'static [u64],
    log: &'static [u8],
    written: &'static [u8],
    failed: &'static [u64],
    asked: u64,
}

/// A tree that fails in a request, in one of two frames too, and the request behind it.
const FAILING: [Row; 3] = [
    Row {
        tree: &[0],
        log: b"(5.000000) can0 1366157B#00000000000161E0\n\
            (5.000001) can0 1366157B#00000000000161E1\n",
        written: b"rx 5.000000 can0 req 408 123 4 0 1 1 00000000000161 {offset: 0, path: {path: #61}}\n\
            tx 5.000000 can0 12663DAA 05000000E0\n\
            rx 5.000001 can0 req 408 123 4 1 2 2 00000000000161 {offset: 0, path: {path: #61}}\n\
            tx 5.000001 can0 12663DAA 00000300616263E1\n\
            end records 2 delivered 2 badcrc 0 nosession 0 sent 2 held 300 bound 3600\n",
        failed: &[1],
        asked: 2,
    },
    Row {
        tree: &[0],
        log: b"(5.000000) can0 1366157B#0000000000022FA0\n\
            (5.000001) can0 1366157B#61350140\n\
            (5.000002) can0 1366157B#00000000000161E1\n",
        written: b"rx 5.000000 can0 req 408 123 4 0 1 2 0000000000022F61 \
            {offset: 0, path: {path: #2F61}}\n\
            tx 5.000001 can0 12663DAA 05000000E0\n\
            rx 5.000002 can0 req 408 123 4 1 3 3 00000000000161 {offset: 0, path: {path: #61}}\n\
            tx 5.000002 can0 12663DAA 00000300616263E1\n\
            end records 3 delivered 2 badcrc 0 nosession 0 sent 2 held 300 bound 3600\n",
        failed: &[2],
        asked: 2,
    },
    Row {
        tree: &[0, 2],
        log: b"(5.000000) can0 1365957B#00000000000000A0\n\
            (5.000000) can0 1365957B#0000187240\n\
            (5.000001) can0 1365957B#00000000000000A1\n\
            (5.000001) can0 1365957B#0000187241\n\
            (5.000002) can0 1365557B#0161E2\n\
            (5.000003) can0 1365557B#0161E3\n",
        written: b"rx 5.000000 can0 req 406 123 4 0 1 2 000000000000000000 \
            {entry_index: 0, directory_path: {path: #}}\n\
            tx 5.000000 can0 1265BDAA 0000000000E0\n\
            rx 5.000001 can0 req 406 123 4 1 3 4 000000000000000000 \
            {entry_index: 0, directory_path: {path: #}}\n\
            tx 5.000001 can0 1265BDAA 000000000161E1\n\
            rx 5.000002 can0 req 405 123 4 2 5 5 0161 {path: {path: #61}}\n\
            tx 5.000002 can0 12657DAA 05000000000000A2\n\
            tx 5.000002 can0 12657DAA 0000000000006802\n\
            tx 5.000002 can0 12657DAA C262\n\
            rx 5.000003 can0 req 405 123 4 3 6 6 0161 {path: {path: #61}}\n\
            tx 5.000003 can0 12657DAA 00000300000000A3\n\
            tx 5.000003 can0 12657DAA 0000000000050003\n\
            tx 5.000003 can0 12657DAA 5363\n\
            end records 6 delivered 4 badcrc 0 nosession 0 sent 8 held 600 bound 3600\n",
        failed: &[2, 5],
        asked: 4,
    },
];

#[test]
fn a_tree_that_fails_in_a_request_is_told(rt: HostRuntime) -> Result<(), Fail> {
    for row in &FAILING {
        come_to(&rt, rt.alloc(), row)?;
    }
    Ok(())
}

/// Paths that would leave the folder, that have an empty name, and one of a byte that no name has:
/// the tree, which would fail, isn't called.
const LEAVING: [Row; 1] = [Row {
    tree: &[0],
    log: b"(5.000000) can0 1366157B#0000000000042EA0\n\
        (5.000000) can0 1366157B#2E2F610AB340\n\
        (5.000001) can0 1366157B#00000000000961A1\n\
        (5.000001) can0 1366157B#2F2E2E2F2E2E2F01\n\
        (5.000001) can0 1366157B#78BF6D61\n\
        (5.000002) can0 1366157B#0000000000032FA2\n\
        (5.000002) can0 1366157B#2F61430642\n\
        (5.000003) can0 1366157B#00000000000461A3\n\
        (5.000003) can0 1366157B#2F2F62B79243\n\
        (5.000004) can0 1366157B#0000000000012EE4\n\
        (5.000005) can0 1366157B#0000000000017FE5\n",
    written: b"rx 5.000000 can0 req 408 123 4 0 1 2 0000000000042E2E2F61 \
        {offset: 0, path: {path: #2E2E2F61}}\n\
        tx 5.000000 can0 12663DAA 16000000E0\n\
        rx 5.000001 can0 req 408 123 4 1 3 5 000000000009612F2E2E2F2E2E2F78 \
        {offset: 0, path: {path: #612F2E2E2F2E2E2F78}}\n\
        tx 5.000001 can0 12663DAA 16000000E1\n\
        rx 5.000002 can0 req 408 123 4 2 6 7 0000000000032F2F61 \
        {offset: 0, path: {path: #2F2F61}}\n\
        tx 5.000002 can0 12663DAA 16000000E2\n\
        rx 5.000003 can0 req 408 123 4 3 8 9 000000000004612F2F62 \
        {offset: 0, path: {path: #612F2F62}}\n\
        tx 5.000003 can0 12663DAA 16000000E3\n\
        rx 5.000004 can0 req 408 123 4 4 10 10 0000000000012E {offset: 0, path: {path: #2E}}\n\
        tx 5.000004 can0 12663DAA 16000000E4\n\
        rx 5.000005 can0 req 408 123 4 5 11 11 0000000000017F {offset: 0, path: {path: #7F}}\n\
        tx 5.000005 can0 12663DAA 16000000E5\n\
        end records 11 delivered 6 badcrc 0 nosession 0 sent 6 held 300 bound 3600\n",
    failed: &[],
    asked: 0,
}];

#[test]
fn no_path_leaves_the_folder(rt: HostRuntime) -> Result<(), Fail> {
    for row in &LEAVING {
        come_to(&rt, rt.alloc(), row)?;
    }
    Ok(())
}

/// The row's run ends well, with all that the row says.
fn come_to(rt: &impl Abort, alloc: Global, row: &Row) -> Result<(), Fail> {
    let run = Run {
        log: row.log,
        tree: row.tree,
        ..SERVES
    };
    let done = come_of(alloc, &run)?;
    assert!(rt; matches!(done.status, Status::Ok));
    assert_eq!(rt; done.written.as_slice(), row.written);
    assert_eq!(rt; done.report.failed.as_slice(), row.failed);
    assert_eq!(rt; done.asked, row.asked);
    Ok(())
}
