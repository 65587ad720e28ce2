//! Sources, sinks and trees, real and in memory.
use cy_bits::List;
use cy_outside::*;
use std::alloc::Global;
use std::fs;
use std::test::Fail;

#[test]
fn a_real_source_and_a_real_sink_pass_bytes_on(rt: HostRuntime) -> Result<(), Fail> {
    let mut source = RealSource::new(b"hello".as_slice());
    let mut sink = RealSink::new(Vec::new(rt.alloc()));
    let mut buf = [b'-'; 8];
    assert_eq!(rt; source.read(&mut buf)?, 5);
    assert_eq!(rt; buf, *b"hello---");
    assert_eq!(rt; source.read(&mut buf)?, 0);
    put_all(&mut sink, &buf)?;
    assert_eq!(rt; sink.writer.as_slice(), b"hello---".as_slice());
    assert_eq!(rt; (source.faults, sink.faults), (0, 0));
    Ok(())
}

#[test]
fn a_real_tree_reads_the_systems_files(rt: HostRuntime) -> Result<(), Fail> {
    fs::create_dir_all(&rt, "a-tree/notes/old")?;
    fs::write(&rt, "a-tree/hello.txt", "hello\n")?;
    fs::write(&rt, "a-tree/notes/list.txt", "first\nsecond\n")?;
    let mut tree = RealTree::new(&rt);
    assert!(rt; tells_sizes(&mut tree)?);
    assert!(rt; tells_bytes(&mut tree)?);
    assert!(rt; tells_entries(rt.alloc(), &mut tree)?);
    assert!(rt; fails_at_no_path(rt.alloc(), &mut tree));
    assert_eq!(rt; tree.faults, 3);
    fs::remove_dir_all(&rt, "a-tree")?;
    Ok(())
}

/// Whether it tells of the test's files how large they are.
fn tells_sizes<T: Tree>(tree: &mut T) -> Result<bool, TreeError> {
    Ok(
        tree.size("a-tree/hello.txt")? == Size::File(6)
            && tree.size("a-tree/notes")? == Size::Folder
            && tree.size("a-tree/none")? == Size::Absent,
    )
}

/// Whether it tells their bytes.
fn tells_bytes<T: Tree>(tree: &mut T) -> Result<bool, TreeError> {
    let mut buf = [b'-'; 4];
    Ok(
        tree.read_at("a-tree/hello.txt", 4, &mut buf)? == Got::Bytes(2)
            && buf == *b"o\n--"
            && tree.read_at("a-tree/hello.txt", 6, &mut buf)? == Got::Bytes(0)
            && tree.read_at("a-tree/hello.txt/none", 0, &mut buf)? == Got::Absent
            && tree.read_at("a-tree/notes", 0, &mut buf)? == Got::Folder,
    )
}

/// Whether it tells what stands in their folder.
fn tells_entries<T: Tree>(alloc: Global, tree: &mut T) -> Result<bool, TreeError> {
    let is_file = matches!(tree.list(alloc, "a-tree/hello.txt")?, Listing::NotFolder);
    let is_absent = matches!(tree.list(alloc, "a-tree/none")?, Listing::Absent);
    let is_listed = match tree.list(alloc, "a-tree/notes")? {
        Listing::Entries(entries) => named(&entries) == (2, true, true),
        _ => false,
    };
    Ok(is_file && is_absent && is_listed)
}

/// Whether each of its calls fails where there can be no such path.
fn fails_at_no_path<T: Tree>(alloc: Global, tree: &mut T) -> bool {
    let mut buf = [b'-'; 4];
    tree.size("a\0b") == Err(TreeError::Failed)
        && tree.read_at("a\0b", 0, &mut buf) == Err(TreeError::Failed)
        && matches!(tree.list(alloc, "a\0b"), Err(TreeError::Failed))
}

#[test]
fn a_source_in_memory_fails_where_it_is_told_to(rt: HostRuntime) -> Result<(), Fail> {
    let mut source = MemSource::new(b"hello", &[1]);
    let mut buf = [b'-'; 4];
    assert_eq!(rt; source.read(&mut buf)?, 4);
    assert_eq!(rt; source.read(&mut buf), Err(Failed));
    assert_eq!(rt; source.read(&mut buf)?, 1);
    assert_eq!(rt; buf, *b"oell");
    assert_eq!(rt; source.calls.faults, 1);
    Ok(())
}

#[test]
fn a_sink_in_memory_fails_where_it_is_told_to(rt: HostRuntime) -> Result<(), Fail> {
    let mut sink = MemSink::new(rt.alloc(), &[1]);
    put_all(&mut sink, b"one ")?;
    assert_eq!(rt; put_all(&mut sink, b"two "), Err(Failed));
    put_all(&mut sink, b"three")?;
    assert_eq!(rt; sink.written.as_slice(), b"one three".as_slice());
    assert_eq!(rt; sink.calls.faults, 1);
    Ok(())
}

#[test]
fn a_tree_in_memory_fails_where_it_is_told_to(rt: HostRuntime) -> Result<(), Fail> {
    let files = files(rt.alloc())?;
    let mut tree = MemTree::new(files, &[3]).ok_or("apart")?;
    let mut buf = [b'-'; 4];
    match tree.list(rt.alloc(), "notes")? {
        Listing::Entries(entries) => assert_eq!(rt; named(&entries), (2, true, true)),
        _ => assert!(rt; false),
    }
    assert_eq!(rt; tree.size("notes")?, Size::Folder);
    assert_eq!(rt;
        tree.read_at("notes/list.txt", 11, &mut buf)?,
        Got::Bytes(2)
    );
    assert_eq!(rt; tree.size("notes/list.txt"), Err(TreeError::Failed));
    assert_eq!(rt; tree.size("notes/list.txt")?, Size::File(13));
    assert_eq!(rt; tree.calls.faults, 1);
    let front = read_file(rt.alloc(), &mut tree, "notes/list.txt", 5)?.ok_or("a file")?;
    assert_eq!(rt; front.as_slice(), b"first".as_slice());
    assert!(rt; read_file(rt.alloc(), &mut tree, "notes", 5)?.is_none());
    Ok(())
}

/// A file, and two in a folder.
fn files(alloc: Global) -> Result<List<File>, Fail> {
    let mut files = List::empty(alloc);
    files.push(File::new(alloc, "hello.txt", b"hello\n")?)?;
    files.push(File::new(alloc, "notes/list.txt", b"first\nsecond\n")?)?;
    files.push(File::new(alloc, "notes/old/x", b"x")?)?;
    Ok(files)
}

/// The number of entries, and whether they have the file `list.txt` and the folder `old`.
fn named(entries: &List<Entry>) -> (usize, bool, bool) {
    let has = |name: &str, folder: bool| {
        entries.as_slice().iter().any(|entry| entry.name.as_str() == name && entry.folder == folder)
    };
    (entries.len(), has("list.txt", false), has("old", true))
}
