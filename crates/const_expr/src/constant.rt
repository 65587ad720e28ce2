ghost use Rattle.std.specs.Prelude.{◌≡◌, IfOk};

use bit_length::LengthSet;
use cy_bits::{List, NoMemory, Text, TryCopy};
use cy_ratio::Ratio;
use dsdl_names::TypeId;
use std::alloc::Global;

/// The constant that an expression is worth (Cyphal Specification, section 3.3).
#[derive(Drop)]
#[cycle(constant)]
pub enum Const {
    /// A number, which is a fraction in lowest terms (Cyphal Specification, section 3.3.1).
    Number(Ratio),
    /// A truth value.
    Truth(bool),
    /// A string, without its quotes.
    Str(Text),
    /// A set of numbers, of truth values or of strings: its members, ascending and each once.
    Set(List<Const>),
    /// A set of lengths in bits, which is a set of whole numbers of any size.
    Lengths(LengthSet),
    /// A type.
    Named(TypeId),
}

impl TryCopy for Const {
    #[cycle(copy_const)]
    fn copy(&self, alloc: Global) -> Result<Const, NoMemory> {
        match self {
            Const::Number(number) => Ok(Const::Number(*number)),
            Const::Truth(truth) => Ok(Const::Truth(*truth)),
            Const::Str(text) => Ok(Const::Str(text.copy(alloc)?)),
            Const::Set(members) => Ok(Const::Set(copy_all(alloc, members)?)),
            Const::Lengths(lengths) => Ok(Const::Lengths(TryCopy::copy(lengths, alloc)?)),
            Const::Named(id) => Ok(Const::Named(id.copy(alloc)?)),
        }
    }
}

/// Equal constants.
#[cycle(copy_const)]
fn copy_all(alloc: Global, constants: &List<Const>) -> Result<List<Const>, NoMemory>
    ensures { IfOk result (λ r. r ≡ constants.now) }
{
    let mut copies = Vec::new(alloc);
    for constant in constants.as_slice() {
        copies.push(constant.copy(alloc)?)?;
    }
    Ok(List::new(copies))
}
