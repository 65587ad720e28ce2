//! The files below a folder of a tree: what is replied of them.
use cy_bits::{Bytes, List, NoMemory, Text};
use cy_outside::{Entry, File, Got, Listing, MemTree, Size, Tree, TreeError};
use file_service::Served;
use std::alloc::Global;
use std::test::Fail;

/// The files of the tests; `big` has 600 bytes, and is made.
const FILES: [(&str, &[u8]); 8] = [
    ("srv/a", b"abc"),
    ("srv/d/e", b"e"),
    ("srv/d/f/g", b""),
    ("srv/A", b""),
    ("srv/b\x7f", b""),
    ("srv/ ~", b"!"),
    ("srv/..hidden", b"h"),
    ("secret", b"s"),
];

/// A tree of the files, of which the calls with these numbers fail.
fn tree<'a>(alloc: Global, failing: &'a [u64]) -> Result<MemTree<'a>, Fail> {
    let mut files = List::empty(alloc);
    for (path, bytes) in FILES {
        files.push(File::new(alloc, path, bytes)?)?;
    }
    files.push(File::new(alloc, "srv/big", [b'x'; 600].as_slice())?)?;
    for len in [255, 256] {
        files.push(long(alloc, len)?)?;
    }
    Ok(MemTree::new(files, failing).ok_or("apart")?)
}

/// A file in `srv/long` whose name has so many bytes.
fn long(alloc: Global, len: usize) -> Result<File, NoMemory> {
    let mut path = String::from_str(alloc, "srv/long/")?;
    for _ in 0..len {
        path.push('n')?;
    }
    Ok(File {
        path: Text::new(path),
        bytes: Bytes::new(Vec::new(alloc)),
    })
}

/// What is served.
const SERVED: Served<'static> = Served { root: "srv" };

/// The greatest offset that can be asked for.
const LAST: u64 = (1 << 40) - 1;

#[test]
fn lists(rt: HostRuntime) -> Result<(), Fail> {
    let alloc = rt.alloc();
    let rows: [(&[u8], u32, &str); 17] = [
        (b"", 0, " ~"),
        (b"", 1, "..hidden"),
        (b"/", 2, "A"),
        (b"", 3, "a"),
        (b"", 4, "big"),
        (b"", 5, "d"),
        (b"", 6, "long"),
        (b"", 7, ""),
        (b"", u32::MAX, ""),
        (b"d", 0, "e"),
        (b"/d", 1, "f"),
        (b"d", 2, ""),
        (b"long", 1, ""),
        (b"a", 0, ""),
        (b"none", 0, ""),
        (b"..", 0, ""),
        (b"d/", 0, ""),
    ];
    let mut tree = tree(alloc, &[])?;
    for (path, index, name) in rows {
        let done = SERVED.list(alloc, &mut tree, path, index)?;
        assert_eq!(rt; done.name.as_str(), name);
        assert!(rt; !done.failed);
    }
    let longest = SERVED.list(alloc, &mut tree, b"long", 0)?;
    assert_eq!(rt; longest.name.as_str().len(), 255);
    Ok(())
}

#[test]
fn a_tree_that_fails(rt: HostRuntime) -> Result<(), Fail> {
    let alloc = rt.alloc();
    for call in 0..5 {
        let failing = [call];
        let mut tree = tree(alloc, &failing)?;
        let mut buf = [0; 256];
        let a = SERVED.read(alloc, &mut tree, b"a", 0, &mut buf)?;
        assert_eq!(rt; a.code, if call == 0 { 5 } else { 0 });
        assert_eq!(rt; a.count, if call == 0 { 0 } else { 3 });
        let none = SERVED.read(alloc, &mut tree, b"none", 0, &mut buf)?;
        assert_eq!(rt; none.code, if call == 1 { 5 } else { 2 });
        let info = SERVED.info(alloc, &mut tree, b"d")?;
        assert_eq!(rt; info.error.value, if call == 2 { 5 } else { 0 });
        assert_eq!(rt; info.is_readable, call != 2);
        let list = SERVED.list(alloc, &mut tree, b"", 3)?;
        assert_eq!(rt; list.name.as_str(), if call == 3 { "" } else { "a" });
        assert_eq!(rt; list.failed, call == 3);
        assert_eq!(rt; tree.calls.faults, u64::from(call < 4));
    }
    Ok(())
}

/// A folder whose entries change from listing to listing, and which lists a name twice.
#[derive(Drop)]
struct Changing {
    listings: u64,
}

impl Tree for Changing {
    ghost use Rattle.std.specs.Prelude.{None, ◌-◌, ◌^◌};

    ghost files = { λ _. None };

    ghost faults = { λ _. 0 };

    ghost calls = { λ _. 2 ^ 64 - 1 };

    fn list(&mut self, alloc: Global, _path: &str) -> Result<Listing, TreeError> {
        let mut entries = List::empty(alloc);
        let names = if self.listings == 0 {
            ["c", "a", "c"]
        } else {
            ["b", "a", "a"]
        };
        self.listings = 1;
        for name in names {
            let Ok(name) = Text::from_str(alloc, name) else {
                return Err(TreeError::NoMemory);
            };
            let Ok(()) = entries.push(Entry {
                name,
                folder: false,
            }) else {
                return Err(TreeError::NoMemory);
            };
        }
        Ok(Listing::Entries(entries))
    }

    fn read_at(&mut self, _path: &str, _offset: u64, _buf: &mut [u8]) -> Result<Got, TreeError> {
        Ok(Got::Absent)
    }

    fn size(&mut self, _path: &str) -> Result<Size, TreeError> {
        Ok(Size::File(u64::MAX))
    }
}

#[test]
fn a_folder_that_changes(rt: HostRuntime) -> Result<(), Fail> {
    let alloc = rt.alloc();
    let mut tree = Changing { listings: 0 };
    for (index, name) in [(0, "a"), (1, "b"), (2, "")] {
        let done = SERVED.list(alloc, &mut tree, b"", index)?;
        assert_eq!(rt; done.name.as_str(), name);
    }
    assert_eq!(rt; SERVED.info(alloc, &mut tree, b"a")?.size, LAST);
    Ok(())
}
