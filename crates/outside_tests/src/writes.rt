//! Values that are written and read by a layout.
use crate::samples::numbers_layout;
use cy_bits::{List, NoMemory};
use dsdl_types::{Shape, Value};
use layout::{Layout, LayoutError};
use serdes::laws::through_bytes;
use serdes::{ReadError, WriteError, read, write};
use std::alloc::Global;

/// Appends bytes in hex.
fn push_hex(text: &mut String, bytes: &[u8]) -> Result<(), NoMemory> {
    for byte in bytes {
        write!(text, "{byte:02X}")?;
    }
    Ok(())
}

/// The bytes of a value, or the path to what doesn't fit.
fn written(alloc: Global, layout: &Layout, value: &Value) -> Result<String, NoMemory> {
    let mut out = vec![in alloc; 0xAAu8; layout.extent_bytes()]?;
    let mut text = String::new(alloc);
    match write(alloc, layout, value, &mut out) {
        Ok(len) => push_hex(&mut text, &out[..len])?,
        Err(WriteError::Misfit { path }) => write!(text, "misfit at {}", path.as_str())?,
        Err(WriteError::NoMemory) => return Err(NoMemory),
    }
    Ok(text)
}

/// A structure of two numbers.
fn two(alloc: Global, a: i128, b: i128) -> Result<Value, NoMemory> {
    Ok(Value::Struct(List::new(vec![in alloc; Value::Num(a), Value::Num(b)]?)))
}

/// Whether two numbers are written so.
fn is_written(alloc: Global, a: i128, b: i128, want: &str) -> Result<bool, LayoutError> {
    let layout = numbers_layout(alloc)?;
    Ok(written(alloc, &layout, &two(alloc, a, b)?)?.as_str() == want)
}

#[test]
fn writings(rt: HostRuntime) -> Result<(), LayoutError> {
    let alloc = rt.alloc();
    assert!(rt; is_written(alloc, 300, 300, "FF2C")?);
    assert!(rt; is_written(alloc, -1, -1, "00FF")?);
    assert!(rt; is_written(alloc, 1, 1 << 64, "misfit at b")?);
    Ok(())
}

/// Whether a truth value in place of the structure is refused as a whole.
fn is_misfit(alloc: Global) -> Result<bool, LayoutError> {
    let layout = numbers_layout(alloc)?;
    Ok(written(alloc, &layout, &Value::Bool(true))?.as_str() == "misfit at .")
}

#[test]
fn misfits(rt: HostRuntime) -> Result<(), LayoutError> {
    assert!(rt; is_misfit(rt.alloc())?);
    Ok(())
}

/// Whether two bytes are read as a structure.
fn is_read(alloc: Global) -> Result<bool, LayoutError> {
    let layout = numbers_layout(alloc)?;
    match read(alloc, &layout, &[1, 2]) {
        Ok(value) => Ok(matches!(value, Value::Struct(_))),
        Err(ReadError::Bad { .. }) => Ok(false),
        Err(ReadError::NoMemory) => Err(LayoutError::NoMemory),
    }
}

#[test]
fn readings(rt: HostRuntime) -> Result<(), LayoutError> {
    assert!(rt; is_read(rt.alloc())?);
    Ok(())
}

/// A value that is written and read again, or none where it doesn't fit.
fn again(alloc: Global, layout: &Layout, value: &Value) -> Result<Option<Value>, NoMemory> {
    let mut out = vec![in alloc; 0u8; layout.extent_bytes()]?;
    match through_bytes(alloc, layout, value, &mut out) {
        Ok(value) => Ok(Some(value)),
        Err(WriteError::Misfit { .. }) => Ok(None),
        Err(WriteError::NoMemory) => Err(NoMemory),
    }
}

/// Whether a structure of two numbers is written and read again.
fn is_read_again(alloc: Global) -> Result<bool, LayoutError> {
    let layout = numbers_layout(alloc)?;
    let value = two(alloc, 300, 300)?;
    Ok(matches!(again(alloc, &layout, &value)?, Some(Value::Struct(_))))
}

#[test]
fn read_again(rt: HostRuntime) -> Result<(), LayoutError> {
    assert!(rt; is_read_again(rt.alloc())?);
    Ok(())
}
