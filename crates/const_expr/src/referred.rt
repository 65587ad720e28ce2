//! The types that references mean (Cyphal Specification, section 3.4.5).
ghost use Rattle.std.specs.Prelude.{IfOk};
ghost use Rattle.const_expr.specs.Refusals.{Gives};
ghost use Rattle.const_expr.specs.Constants.{IsConst};
ghost use Rattle.const_expr.specs.Member.{referred};

use crate::constant::Const;
use crate::member::unknown;
use crate::scope::Scope;
use crate::why::Why;
use dsdl_names::TypeId;
use dsdl_parse::Reference;
use std::alloc::Global;

/// The type that a reference means, whether the namespace has it or not.
pub fn referred(alloc: Global, scope: &Scope, reference: &Reference) -> Result<Const, Why>
    ensures value { Gives result (referred scope.now reference.now) }
    ensures kept { IfOk result IsConst }
{
    let Some(name) = scope.own.beside(alloc, reference.names.as_slice())? else {
        return unknown(alloc, "");
    };
    Ok(Const::Named(TypeId {
        name,
        major: reference.major,
        minor: reference.minor,
    }))
}
