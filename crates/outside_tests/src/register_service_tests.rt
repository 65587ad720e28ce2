//! Registers behind a guard of the caller's own.
ghost use Rattle.std.specs.Prelude.{◌≡◌, ◌≤◌, length, IfOk, false};
ghost use Rattle.std_types.specs.RegisterValues.{FitsRegisterValue};
ghost use Rattle.register_service.specs.Kept.{AreGuarded, AreRegisters};
ghost use Rattle.register_service.specs.Within.{is_allowed};

use cy_bits::{List, NoMemory, Text};
use register_service::{OpenError, Registers, is_allowed, limits_of};
use std::alloc::Global;
use std::process::Abort;
use std::test::Fail;
use std_types::register_value::RegisterValue;
use std_types::registers::{Limits, Register};

/// A value, in short.
#[derive(Clone, Copy)]
enum Short {
    Empty,
    Naturals(&'static [u16]),
    Integer(i16),
}

/// A value that is asked for, and the one that is answered.
type Steps = [(Short, Short); 4];

/// Registers of one `x`, as (whether it is mutable, its value, what is asked of it).
const ROWS: [(bool, Short, Steps); 2] = [
    // within its limits, of its variant, or read
    (
        true,
        Short::Naturals(&[5]),
        [
            (Short::Naturals(&[101]), Short::Naturals(&[5])),
            (Short::Naturals(&[100]), Short::Naturals(&[100])),
            (Short::Integer(1), Short::Naturals(&[100])),
            (Short::Empty, Short::Naturals(&[100])),
        ],
    ),
    // no number below the limits
    (
        true,
        Short::Integer(5),
        [
            (Short::Integer(-1), Short::Integer(5)),
            (Short::Naturals(&[1]), Short::Integer(5)),
            (Short::Integer(0), Short::Integer(0)),
            (Short::Empty, Short::Integer(0)),
        ],
    ),
];

/// The value itself.
fn value_of(rt: &impl Abort, alloc: Global, short: Short) -> Result<RegisterValue, NoMemory>
    ensures { IfOk result (λ v. FitsRegisterValue v) }
{
    match short {
        Short::Empty => Ok(RegisterValue::Empty),
        Short::Naturals(numbers) => {
            assert!(rt; numbers.len() <= 128);
            naturals(alloc, numbers)
        }
        Short::Integer(number) => integer(alloc, number),
    }
}

fn integer(alloc: Global, number: i16) -> Result<RegisterValue, NoMemory>
    ensures { IfOk result (λ v. FitsRegisterValue v) }
{
    let mut numbers = Vec::new(alloc);
    numbers.push(number)?;
    Ok(RegisterValue::Integer16(List::new(numbers)))
}

fn naturals(alloc: Global, numbers: &[u16]) -> Result<RegisterValue, NoMemory>
    requires { length numbers.now ≤ 128 }
    ensures { IfOk result (λ v. FitsRegisterValue v) }
{
    let numbers = Vec::from_slice(alloc, numbers)?;
    Ok(RegisterValue::Natural16(List::new(numbers)))
}

/// Whether a value is this one.
fn is(value: &RegisterValue, short: Short) -> bool {
    match short {
        Short::Empty => matches!(value, RegisterValue::Empty),
        Short::Naturals(numbers) => {
            matches!(value, RegisterValue::Natural16(items) if items.as_slice() == numbers)
        }
        Short::Integer(number) => {
            let alone = [number];
            matches!(value, RegisterValue::Integer16(items) if items.as_slice() == alone.as_slice())
        }
    }
}

/// A list of one register `x`, with limits from 0 to 100.
fn one(alloc: Global, mutable: bool, value: RegisterValue) -> Result<List<Register>, NoMemory>
    requires { FitsRegisterValue value }
    ensures { IfOk result (λ l. AreRegisters l) }
{
    let name = Text::from_str(alloc, "x")?;
    let limits = Some(Limits { low: 0, high: 100 });
    let register = Register {
        name,
        mutable,
        value,
        limits,
    };
    Ok(List::new(vec![in alloc; register]?))
}

/// Asks for each value in turn.
fn asks<G: Fn(u16, &RegisterValue) -> bool + Drop>(
    rt: &impl Abort,
    alloc: Global,
    registers: &mut Registers<G>,
    mutable: bool,
    steps: Steps,
) -> Result<(), NoMemory>
    requires { AreGuarded G.Fn registers.old }
    ensures { AreGuarded G.Fn registers.new }
{
    for (asked, want) in steps {
        let reply = registers.access(b"x", value_of(rt, alloc, asked)?)?;
        assert!(rt; is(&reply.value, want));
        assert_eq!(rt; reply.mutable, mutable);
        assert!(rt; !reply.persistent);
        assert_eq!(rt; reply.timestamp.microsecond, 0);
    }
    Ok(())
}

/// Asks of an unknown name, lists the names, and copies the registers.
fn tells<G: Fn(u16, &RegisterValue) -> bool + Drop>(
    rt: &impl Abort,
    alloc: Global,
    registers: &mut Registers<G>,
    held: Short,
) -> Result<(), NoMemory>
    requires { AreGuarded G.Fn registers.old }
{
    let reply = registers.access(b"y", naturals(alloc, &[1])?)?;
    assert!(rt; is(&reply.value, Short::Empty));
    assert!(rt; !reply.mutable);
    assert_eq!(rt; registers.list(0), Some(b"x".as_slice()));
    assert_eq!(rt; registers.list(1), None);
    let list = registers.copy()?;
    assert_eq!(rt; list.len(), 1);
    match list.get(0) {
        Some(register) => assert!(rt; is(&register.value, held)),
        None => assert!(rt; false),
    }
    Ok(())
}

/// Opens one register within its limits, and goes through a row.
#[tactic(auto, using(register_service::proofs::Told::by_limits))]
fn goes(rt: &impl Abort, alloc: Global, row: (bool, Short, Steps)) -> Result<(), Fail> {
    let (mutable, held, steps) = row;
    let list = one(alloc, mutable, value_of(rt, alloc, held)?)?;
    let limits = limits_of(alloc, list.as_slice())?;
    let guard = move |number: u16, value: &RegisterValue| -> bool
        ensures { result ≡ is_allowed limits number value.now }
    { is_allowed(limits.as_slice(), number, value) };
    let mut registers = Registers::open(alloc, list, guard)?;
    asks(rt, alloc, &mut registers, mutable, steps)?;
    tells(rt, alloc, &mut registers, steps[3].1)?;
    Ok(())
}

#[test]
fn reads_and_writes(rt: HostRuntime) -> Result<(), Fail> {
    for row in ROWS {
        goes(&rt, rt.alloc(), row)?;
    }
    Ok(())
}

#[test]
fn a_value_outside_is_refused(rt: HostRuntime) -> Result<(), NoMemory> {
    let alloc = rt.alloc();
    let list = one(alloc, true, naturals(alloc, &[101])?)?;
    let guard = |_number: u16, _value: &RegisterValue| -> bool
        ensures { result ≡ false }
    { false };
    match Registers::open(alloc, list, guard) {
        Ok(_registers) => assert!(rt; false),
        Err(error) => assert_eq!(rt; error, OpenError::Outside { index: 0 }),
    }
    Ok(())
}
