//! The most fields and paddings that the types of a namespace may have together, counted through
//! nested types: 2^24.
use cy_bits::{Bytes, NoMemory, Text};
use dsdl_files::DsdlFile;
use dsdl_resolve::{DsdlError, resolve};
use std::alloc::Global;
use std::test::Fail;

/// Fields of types of other levels, which make the fields of the files together 2^24.
const REST: &str = "Level16.1.0 a\nLevel14.1.0 b\nLevel12.1.0 c\nLevel10.1.0 d\nLevel8.1.0 e\n\
    Level6.1.0 f\nLevel5.1.0 g\nLevel4.1.0 h\nLevel1.1.0 i\nLevel0.1.0 j\n";

/// A file of these lines.
fn file(alloc: Global, path: &str, text: &str) -> Result<DsdlFile, NoMemory> {
    Ok(DsdlFile {
        path: Text::from_str(alloc, path)?,
        text: Bytes::from_slice(alloc, text.as_bytes())?,
    })
}

/// A type of each level from 0 to 17, with two fields of the level below: of level n it has
/// 3 * 2^n - 2 fields, and all of them have 786,393.
fn levels(alloc: Global, files: &mut Vec<DsdlFile>) -> Result<(), NoMemory> {
    files.push(file(alloc, "a/Level0.1.0.dsdl", "bool b\n@sealed")?)?;
    for level in 1u32..18 {
        let mut path = String::new(alloc);
        write!(path, "a/Level{level}.1.0.dsdl")?;
        let below = level - 1;
        let mut text = String::new(alloc);
        write!(text, "Level{below}.1.0 x\nLevel{below}.1.0 y\n@sealed")?;
        files.push(file(alloc, path.as_str(), text.as_str())?)?;
    }
    Ok(())
}

/// Forty types with a field of level 17, so with 15,728,600 fields.
fn holders(alloc: Global, files: &mut Vec<DsdlFile>) -> Result<(), NoMemory> {
    for number in 0u32..40 {
        let mut path = String::new(alloc);
        write!(path, "a/Holder{number}.1.0.dsdl")?;
        files.push(file(alloc, path.as_str(), "Level17.1.0 x\n@sealed")?)?;
    }
    Ok(())
}

/// How many types a namespace of 2^24 fields has that has these lines too; none for want of memory.
fn types_with(alloc: Global, lines: &str) -> Result<Option<usize>, Fail> {
    let mut files = Vec::new(alloc);
    let mut text = String::new(alloc);
    text.push_str(REST)?;
    text.push_str(lines)?;
    levels(alloc, &mut files)?;
    holders(alloc, &mut files)?;
    files.push(file(alloc, "a/Rest.1.0.dsdl", text.as_str())?)?;
    match resolve(alloc, files.as_slice()) {
        Ok(names) => Ok(Some(names.definitions.len())),
        Err(DsdlError::NoMemory) => Ok(None),
        Err(DsdlError::At { .. }) => Err("a file that is refused")?,
    }
}

#[test]
fn fields_of_a_namespace(rt: HostRuntime) -> Result<(), Fail> {
    assert_eq!(rt; types_with(rt.alloc(), "@sealed")?, Some(59));
    for more in ["bool k\n@sealed", "void1\n@sealed", "bool[3] k\n@sealed"] {
        assert_eq!(rt; types_with(rt.alloc(), more)?, None, "{more}");
    }
    Ok(())
}
