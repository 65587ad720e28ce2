//! Which files of a folder are compiled, and how a folder is refused.
use cy_bits::{List, Text};
use cy_outside::{Entry, File, Got, Listing, MemTree, Size, Tree, TreeError};
use dsdl_files::{DsdlFile, FolderError, LIMITS, Limits, read_folder, read_within};
use std::alloc::Global;
use std::test::Fail;

/// The files of the tests, of 1, 2, 3, 1, 2, 0, 1 and 1 bytes.
const FILES: [(&str, &[u8]); 8] = [
    ("root/a/X.1.0.dsdl", b"x"),
    ("root/a-b/X.1.0.dsdl", b"xx"),
    ("root/a/b/Y.1.0.dsdl", b"yyy"),
    ("root/notes.txt", b"n"),
    ("root/x.dsdl/Z.1.0.dsdl", b"zz"),
    ("root/Top.1.0.dsdl", b""),
    ("rootless/V.1.0.dsdl", b"v"),
    ("other/notes.txt", b"n"),
];

/// What `root` holds.
const ALL: &str =
    "Top.1.0.dsdl 0, a-b/X.1.0.dsdl 2, a/X.1.0.dsdl 1, a/b/Y.1.0.dsdl 3, x.dsdl/Z.1.0.dsdl 2, ";

#[test]
fn folders(rt: HostRuntime) -> Result<(), Fail> {
    let alloc = rt.alloc();
    let rows = [
        ("root", ALL),
        ("root/a", "X.1.0.dsdl 1, b/Y.1.0.dsdl 3, "),
        ("root/x.dsdl", "Z.1.0.dsdl 2, "),
        ("other", ""),
        ("none", "NotFolder"),
        ("root/notes.txt", "NotFolder"),
        ("roo", "NotFolder"),
    ];
    for (root, expected) in rows {
        let mut tree = tree(alloc, &[])?;
        let answer = read_folder(alloc, &mut tree, root);
        assert_eq!(rt; shown(alloc, &answer)?.as_str(), expected);
    }
    Ok(())
}

#[test]
fn limits(rt: HostRuntime) -> Result<(), Fail> {
    let alloc = rt.alloc();
    let rows = [
        ((10, 5, 3), ALL),
        ((4, 5, 3), "TooBig ."),
        ((5, 5, 3), "TooBig a"),
        ((7, 5, 3), "TooBig a-b"),
        ((8, 5, 3), "TooBig a/b"),
        ((9, 0, 0), "TooBig x.dsdl"),
        ((10, 4, 3), "TooBig x.dsdl/Z.1.0.dsdl"),
        ((10, 0, 3), "TooBig Top.1.0.dsdl"),
        ((10, 5, 2), "TooBig a/b/Y.1.0.dsdl"),
        ((10, 2, 1), "TooBig a-b/X.1.0.dsdl"),
        ((10, 2, 2), "TooBig a/X.1.0.dsdl"),
    ];
    for ((entries, files, bytes), expected) in rows {
        let mut tree = tree(alloc, &[])?;
        let limits = Limits {
            entries,
            files,
            bytes,
        };
        let answer = read_within(alloc, &mut tree, "root", limits);
        assert_eq!(rt; shown(alloc, &answer)?.as_str(), expected);
    }
    Ok(())
}

/// Five listings, and one read of each of the five files.
#[test]
fn a_fault_at_each_call(rt: HostRuntime) -> Result<(), Fail> {
    let alloc = rt.alloc();
    for call in 0..11u64 {
        let failing = [call];
        let mut tree = tree(alloc, &failing)?;
        let answer = read_folder(alloc, &mut tree, "root");
        let expected = if call < 10 { "Failed" } else { ALL };
        assert_eq!(rt; shown(alloc, &answer)?.as_str(), expected);
        assert_eq!(rt; tree.calls.faults, u64::from(call < 10));
    }
    Ok(())
}

#[test]
fn a_tree_that_changes(rt: HostRuntime) -> Result<(), Fail> {
    let alloc = rt.alloc();
    let rows = [(4, "a.dsdl 0, b.dsdl 0, c.dsdl 0, "), (3, "TooBig .")];
    for (entries, expected) in rows {
        let limits = Limits { entries, ..LIMITS };
        let answer = read_within(alloc, &mut Changing, "root", limits);
        assert_eq!(rt; shown(alloc, &answer)?.as_str(), expected);
    }
    Ok(())
}

/// Lists in `root` a folder and three files, one of them twice and then as a folder. When they are
/// asked for, a file is gone, another is a folder, and the folder is gone.
#[derive(Drop)]
struct Changing;

impl Tree for Changing {
    ghost use Rattle.std.specs.Prelude.{None, ◌-◌, ◌^◌};

    ghost files = { λ _. None };

    ghost faults = { λ _. 0 };

    ghost calls = { λ _. 2 ^ 64 - 1 };

    fn list(&mut self, alloc: Global, path: &str) -> Result<Listing, TreeError> {
        if path != "root" {
            return Ok(Listing::Absent);
        }
        let mut entries = List::empty(alloc);
        for (name, folder) in [
            ("c.dsdl", false),
            ("a.dsdl", false),
            ("d", true),
            ("a.dsdl", false),
            ("b.dsdl", false),
            ("a.dsdl", true),
        ] {
            let Ok(name) = Text::from_str(alloc, name) else {
                return Err(TreeError::NoMemory);
            };
            let Ok(()) = entries.push(Entry { name, folder }) else {
                return Err(TreeError::NoMemory);
            };
        }
        Ok(Listing::Entries(entries))
    }

    fn read_at(&mut self, path: &str, _offset: u64, _buf: &mut [u8]) -> Result<Got, TreeError> {
        match path {
            "root/a.dsdl" => Ok(Got::Bytes(0)),
            "root/b.dsdl" => Ok(Got::Folder),
            _ => Ok(Got::Absent),
        }
    }

    fn size(&mut self, _path: &str) -> Result<Size, TreeError> {
        Ok(Size::Absent)
    }
}

/// A tree of the files above, of which the calls with these numbers fail.
fn tree<'a>(alloc: Global, failing: &'a [u64]) -> Result<MemTree<'a>, Fail> {
    let mut files = List::empty(alloc);
    for (path, bytes) in FILES {
        files.push(File::new(alloc, path, bytes)?)?;
    }
    Ok(MemTree::new(files, failing).ok_or("apart")?)
}

/// The path and the number of bytes of each file, or the refusal.
fn shown(alloc: Global, answer: &Result<List<DsdlFile>, FolderError>) -> Result<String, Fail> {
    let mut text = String::new(alloc);
    match answer {
        Ok(files) => {
            for file in files.as_slice() {
                text.push_str(file.path.as_str())?;
                text.push_str(&format!(in alloc; " {}, ", file.text.len())?)?;
            }
        }
        Err(FolderError::NotFolder) => text.push_str("NotFolder")?,
        Err(FolderError::TooBig { path }) => {
            text.push_str("TooBig ")?;
            text.push_str(path.as_str())?;
        }
        Err(FolderError::Failed) => text.push_str("Failed")?,
        Err(FolderError::NoMemory) => text.push_str("NoMemory")?,
    }
    Ok(text)
}
