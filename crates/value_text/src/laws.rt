//! Laws of the text of a value.
ghost use Rattle.std.specs.Prelude.{◌≡◌};
ghost use Rattle.dsdl_types.specs.Fits.{Fits};
ghost use Rattle.dsdl_types.specs.Rules.{IsSchema};
ghost use Rattle.dsdl_types.specs.Schemas.{Sch};
ghost use Rattle.dsdl_types.specs.Values.{Val};
ghost use Rattle.value_text.specs.Texts.{value_text};

/// No two values of a schema have one text.
pub fn one_value()
    ensures { (s : Sch) → IsSchema s → (v w : Val) → Fits s v → Fits s w
        → value_text s v ≡ value_text s w → v ≡ w }
{}
