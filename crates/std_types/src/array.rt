//! The standard types of primitives and arrays.
use crate::Standard;
use crate::held::{
    byte_array_value, bytes, float_array_value, floats, number_array_value, numbers, part,
    structure, truth_array_value, truths,
};
use cy_bits::{Bytes, List, NoMemory};
use dsdl_types::Value;
use std::alloc::Global;

/// `uavcan.primitive.Empty.1.0` (Cyphal Specification, section 5.3.6).
#[derive(Clone, Copy)]
pub struct Empty {}

/// `uavcan.primitive.String.1.0` (Cyphal Specification, section 5.3.6).
#[derive(Drop)]
pub struct PrimitiveString {
    /// The bytes of a text, at most 256.
    pub value: Bytes,
}

/// `uavcan.primitive.Unstructured.1.0` (Cyphal Specification, section 5.3.6).
#[derive(Drop)]
pub struct Unstructured {
    /// The bytes, at most 256.
    pub value: Bytes,
}

/// `uavcan.primitive.array.Bit.1.0` (Cyphal Specification, section 5.3.6).
#[derive(Drop)]
pub struct Bit {
    /// The truth values, at most 2,048.
    pub value: List<bool>,
}

/// `uavcan.primitive.array.Integer64.1.0` (Cyphal Specification, section 5.3.6).
#[derive(Drop)]
pub struct Integer64 {
    /// The numbers, at most 32.
    pub value: List<i64>,
}

/// `uavcan.primitive.array.Integer32.1.0` (Cyphal Specification, section 5.3.6).
#[derive(Drop)]
pub struct Integer32 {
    /// The numbers, at most 64.
    pub value: List<i32>,
}

/// `uavcan.primitive.array.Integer16.1.0` (Cyphal Specification, section 5.3.6).
#[derive(Drop)]
pub struct Integer16 {
    /// The numbers, at most 128.
    pub value: List<i16>,
}

/// `uavcan.primitive.array.Integer8.1.0` (Cyphal Specification, section 5.3.6).
#[derive(Drop)]
pub struct Integer8 {
    /// The numbers, at most 256.
    pub value: List<i8>,
}

/// `uavcan.primitive.array.Natural64.1.0` (Cyphal Specification, section 5.3.6).
#[derive(Drop)]
pub struct Natural64 {
    /// The numbers, at most 32.
    pub value: List<u64>,
}

/// `uavcan.primitive.array.Natural32.1.0` (Cyphal Specification, section 5.3.6).
#[derive(Drop)]
pub struct Natural32 {
    /// The numbers, at most 64.
    pub value: List<u32>,
}

/// `uavcan.primitive.array.Natural16.1.0` (Cyphal Specification, section 5.3.6).
#[derive(Drop)]
pub struct Natural16 {
    /// The numbers, at most 128.
    pub value: List<u16>,
}

/// `uavcan.primitive.array.Natural8.1.0` (Cyphal Specification, section 5.3.6).
#[derive(Drop)]
pub struct Natural8 {
    /// The numbers, at most 256.
    pub value: List<u8>,
}

/// `uavcan.primitive.array.Real64.1.0` (Cyphal Specification, section 5.3.6).
#[derive(Drop)]
pub struct Real64 {
    /// The raw bits of the numbers, at most 32.
    pub value: List<u64>,
}

/// `uavcan.primitive.array.Real32.1.0` (Cyphal Specification, section 5.3.6).
#[derive(Drop)]
pub struct Real32 {
    /// The raw bits of the numbers, at most 64.
    pub value: List<u32>,
}

/// `uavcan.primitive.array.Real16.1.0` (Cyphal Specification, section 5.3.6).
#[derive(Drop)]
pub struct Real16 {
    /// The raw bits of the numbers, at most 128.
    pub value: List<u16>,
}

impl Standard for Empty {
    ghost use Rattle.std_types.specs.Arrays.{empty_value, empty_of, FitsEmpty};
    ghost use Rattle.std_types.specs.ArrayLaws.{empty_back, empty_forth};
    ghost use Rattle.std_types.specs.Schemas.{empty};

    ghost schema = { empty };

    ghost fits = { FitsEmpty };

    ghost value = { empty_value };

    ghost made_of = { empty_of };

    ghost back = { empty_back };

    ghost forth = { empty_forth };

    fn to_value(&self, alloc: Global) -> Result<Value, NoMemory> {
        Ok(structure(Vec::new(alloc)))
    }

    fn of_value(_alloc: Global, _from: &Value) -> Result<Empty, NoMemory> {
        Ok(Empty {})
    }
}

impl Standard for PrimitiveString {
    ghost use Rattle.std_types.specs.Arrays.{string_value, string_of, FitsPrimitiveString};
    ghost use Rattle.std_types.specs.ArrayLaws.{string_back, string_forth};
    ghost use Rattle.std_types.specs.Schemas.{string};

    ghost schema = { string };

    ghost fits = { FitsPrimitiveString };

    ghost value = { string_value };

    ghost made_of = { string_of };

    ghost back = { string_back };

    ghost forth = { string_forth };

    fn to_value(&self, alloc: Global) -> Result<Value, NoMemory> {
        byte_array_value(alloc, &self.value)
    }

    fn of_value(alloc: Global, from: &Value) -> Result<PrimitiveString, NoMemory> {
        Ok(PrimitiveString {
            value: bytes(alloc, part(from, 0))?,
        })
    }
}

impl Standard for Unstructured {
    ghost use Rattle.std_types.specs.Arrays.{unstructured_value, unstructured_of, FitsUnstructured};
    ghost use Rattle.std_types.specs.ArrayLaws.{unstructured_back, unstructured_forth};
    ghost use Rattle.std_types.specs.Schemas.{unstructured};

    ghost schema = { unstructured };

    ghost fits = { FitsUnstructured };

    ghost value = { unstructured_value };

    ghost made_of = { unstructured_of };

    ghost back = { unstructured_back };

    ghost forth = { unstructured_forth };

    fn to_value(&self, alloc: Global) -> Result<Value, NoMemory> {
        byte_array_value(alloc, &self.value)
    }

    fn of_value(alloc: Global, from: &Value) -> Result<Unstructured, NoMemory> {
        Ok(Unstructured {
            value: bytes(alloc, part(from, 0))?,
        })
    }
}

impl Standard for Bit {
    ghost use Rattle.std_types.specs.Arrays.{bit_value, bit_of, FitsBit};
    ghost use Rattle.std_types.specs.ArrayLaws.{bit_back, bit_forth};
    ghost use Rattle.std_types.specs.Schemas.{bit};

    ghost schema = { bit };

    ghost fits = { FitsBit };

    ghost value = { bit_value };

    ghost made_of = { bit_of };

    ghost back = { bit_back };

    ghost forth = { bit_forth };

    fn to_value(&self, alloc: Global) -> Result<Value, NoMemory> {
        truth_array_value(alloc, &self.value)
    }

    fn of_value(alloc: Global, from: &Value) -> Result<Bit, NoMemory> {
        Ok(Bit {
            value: truths(alloc, part(from, 0))?,
        })
    }
}

impl Standard for Integer64 {
    ghost use Rattle.std_types.specs.Arrays.{integer64_value, integer64_of, FitsInteger64};
    ghost use Rattle.std_types.specs.ArrayLaws.{integer64_back, integer64_forth};
    ghost use Rattle.std_types.specs.Schemas.{integer64};

    ghost schema = { integer64 };

    ghost fits = { FitsInteger64 };

    ghost value = { integer64_value };

    ghost made_of = { integer64_of };

    ghost back = { integer64_back };

    ghost forth = { integer64_forth };

    fn to_value(&self, alloc: Global) -> Result<Value, NoMemory> {
        number_array_value(alloc, &self.value)
    }

    fn of_value(alloc: Global, from: &Value) -> Result<Integer64, NoMemory> {
        Ok(Integer64 {
            value: numbers(alloc, part(from, 0))?,
        })
    }
}

impl Standard for Integer32 {
    ghost use Rattle.std_types.specs.Arrays.{integer32_value, integer32_of, FitsInteger32};
    ghost use Rattle.std_types.specs.ArrayLaws.{integer32_back, integer32_forth};
    ghost use Rattle.std_types.specs.Schemas.{integer32};

    ghost schema = { integer32 };

    ghost fits = { FitsInteger32 };

    ghost value = { integer32_value };

    ghost made_of = { integer32_of };

    ghost back = { integer32_back };

    ghost forth = { integer32_forth };

    fn to_value(&self, alloc: Global) -> Result<Value, NoMemory> {
        number_array_value(alloc, &self.value)
    }

    fn of_value(alloc: Global, from: &Value) -> Result<Integer32, NoMemory> {
        Ok(Integer32 {
            value: numbers(alloc, part(from, 0))?,
        })
    }
}

impl Standard for Integer16 {
    ghost use Rattle.std_types.specs.Arrays.{integer16_value, integer16_of, FitsInteger16};
    ghost use Rattle.std_types.specs.ArrayLaws.{integer16_back, integer16_forth};
    ghost use Rattle.std_types.specs.Schemas.{integer16};

    ghost schema = { integer16 };

    ghost fits = { FitsInteger16 };

    ghost value = { integer16_value };

    ghost made_of = { integer16_of };

    ghost back = { integer16_back };

    ghost forth = { integer16_forth };

    fn to_value(&self, alloc: Global) -> Result<Value, NoMemory> {
        number_array_value(alloc, &self.value)
    }

    fn of_value(alloc: Global, from: &Value) -> Result<Integer16, NoMemory> {
        Ok(Integer16 {
            value: numbers(alloc, part(from, 0))?,
        })
    }
}

impl Standard for Integer8 {
    ghost use Rattle.std_types.specs.Arrays.{integer8_value, integer8_of, FitsInteger8};
    ghost use Rattle.std_types.specs.ArrayLaws.{integer8_back, integer8_forth};
    ghost use Rattle.std_types.specs.Schemas.{integer8};

    ghost schema = { integer8 };

    ghost fits = { FitsInteger8 };

    ghost value = { integer8_value };

    ghost made_of = { integer8_of };

    ghost back = { integer8_back };

    ghost forth = { integer8_forth };

    fn to_value(&self, alloc: Global) -> Result<Value, NoMemory> {
        number_array_value(alloc, &self.value)
    }

    fn of_value(alloc: Global, from: &Value) -> Result<Integer8, NoMemory> {
        Ok(Integer8 {
            value: numbers(alloc, part(from, 0))?,
        })
    }
}

impl Standard for Natural64 {
    ghost use Rattle.std_types.specs.Arrays.{natural64_value, natural64_of, FitsNatural64};
    ghost use Rattle.std_types.specs.ArrayLaws.{natural64_back, natural64_forth};
    ghost use Rattle.std_types.specs.Schemas.{natural64};

    ghost schema = { natural64 };

    ghost fits = { FitsNatural64 };

    ghost value = { natural64_value };

    ghost made_of = { natural64_of };

    ghost back = { natural64_back };

    ghost forth = { natural64_forth };

    fn to_value(&self, alloc: Global) -> Result<Value, NoMemory> {
        number_array_value(alloc, &self.value)
    }

    fn of_value(alloc: Global, from: &Value) -> Result<Natural64, NoMemory> {
        Ok(Natural64 {
            value: numbers(alloc, part(from, 0))?,
        })
    }
}

impl Standard for Natural32 {
    ghost use Rattle.std_types.specs.Arrays.{natural32_value, natural32_of, FitsNatural32};
    ghost use Rattle.std_types.specs.ArrayLaws.{natural32_back, natural32_forth};
    ghost use Rattle.std_types.specs.Schemas.{natural32};

    ghost schema = { natural32 };

    ghost fits = { FitsNatural32 };

    ghost value = { natural32_value };

    ghost made_of = { natural32_of };

    ghost back = { natural32_back };

    ghost forth = { natural32_forth };

    fn to_value(&self, alloc: Global) -> Result<Value, NoMemory> {
        number_array_value(alloc, &self.value)
    }

    fn of_value(alloc: Global, from: &Value) -> Result<Natural32, NoMemory> {
        Ok(Natural32 {
            value: numbers(alloc, part(from, 0))?,
        })
    }
}

impl Standard for Natural16 {
    ghost use Rattle.std_types.specs.Arrays.{natural16_value, natural16_of, FitsNatural16};
    ghost use Rattle.std_types.specs.ArrayLaws.{natural16_back, natural16_forth};
    ghost use Rattle.std_types.specs.Schemas.{natural16};

    ghost schema = { natural16 };

    ghost fits = { FitsNatural16 };

    ghost value = { natural16_value };

    ghost made_of = { natural16_of };

    ghost back = { natural16_back };

    ghost forth = { natural16_forth };

    fn to_value(&self, alloc: Global) -> Result<Value, NoMemory> {
        number_array_value(alloc, &self.value)
    }

    fn of_value(alloc: Global, from: &Value) -> Result<Natural16, NoMemory> {
        Ok(Natural16 {
            value: numbers(alloc, part(from, 0))?,
        })
    }
}

impl Standard for Natural8 {
    ghost use Rattle.std_types.specs.Arrays.{natural8_value, natural8_of, FitsNatural8};
    ghost use Rattle.std_types.specs.ArrayLaws.{natural8_back, natural8_forth};
    ghost use Rattle.std_types.specs.Schemas.{natural8};

    ghost schema = { natural8 };

    ghost fits = { FitsNatural8 };

    ghost value = { natural8_value };

    ghost made_of = { natural8_of };

    ghost back = { natural8_back };

    ghost forth = { natural8_forth };

    fn to_value(&self, alloc: Global) -> Result<Value, NoMemory> {
        number_array_value(alloc, &self.value)
    }

    fn of_value(alloc: Global, from: &Value) -> Result<Natural8, NoMemory> {
        Ok(Natural8 {
            value: numbers(alloc, part(from, 0))?,
        })
    }
}

impl Standard for Real64 {
    ghost use Rattle.std_types.specs.Arrays.{real64_value, real64_of, FitsReal64};
    ghost use Rattle.std_types.specs.ArrayLaws.{real64_back, real64_forth};
    ghost use Rattle.std_types.specs.Schemas.{real64};

    ghost schema = { real64 };

    ghost fits = { FitsReal64 };

    ghost value = { real64_value };

    ghost made_of = { real64_of };

    ghost back = { real64_back };

    ghost forth = { real64_forth };

    fn to_value(&self, alloc: Global) -> Result<Value, NoMemory> {
        float_array_value(alloc, &self.value)
    }

    fn of_value(alloc: Global, from: &Value) -> Result<Real64, NoMemory> {
        Ok(Real64 {
            value: floats(alloc, part(from, 0))?,
        })
    }
}

impl Standard for Real32 {
    ghost use Rattle.std_types.specs.Arrays.{real32_value, real32_of, FitsReal32};
    ghost use Rattle.std_types.specs.ArrayLaws.{real32_back, real32_forth};
    ghost use Rattle.std_types.specs.Schemas.{real32};

    ghost schema = { real32 };

    ghost fits = { FitsReal32 };

    ghost value = { real32_value };

    ghost made_of = { real32_of };

    ghost back = { real32_back };

    ghost forth = { real32_forth };

    fn to_value(&self, alloc: Global) -> Result<Value, NoMemory> {
        float_array_value(alloc, &self.value)
    }

    fn of_value(alloc: Global, from: &Value) -> Result<Real32, NoMemory> {
        Ok(Real32 {
            value: floats(alloc, part(from, 0))?,
        })
    }
}

impl Standard for Real16 {
    ghost use Rattle.std_types.specs.Arrays.{real16_value, real16_of, FitsReal16};
    ghost use Rattle.std_types.specs.ArrayLaws.{real16_back, real16_forth};
    ghost use Rattle.std_types.specs.Schemas.{real16};

    ghost schema = { real16 };

    ghost fits = { FitsReal16 };

    ghost value = { real16_value };

    ghost made_of = { real16_of };

    ghost back = { real16_back };

    ghost forth = { real16_forth };

    fn to_value(&self, alloc: Global) -> Result<Value, NoMemory> {
        float_array_value(alloc, &self.value)
    }

    fn of_value(alloc: Global, from: &Value) -> Result<Real16, NoMemory> {
        Ok(Real16 {
            value: floats(alloc, part(from, 0))?,
        })
    }
}
