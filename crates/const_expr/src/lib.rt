//! The constants that expressions of DSDL definitions are worth (Cyphal Specification,
//! section 3.3).
#![tactic(auto)]

mod arithmetic;
mod binary;
mod bits;
mod compare;
mod constant;
mod constants;
mod error;
mod gathered;
mod listed;
mod literal;
mod member;
mod operand;
mod operator;
mod order;
mod places;
mod ranked;
mod referred;
mod residues;
mod scope;
mod set;
mod shifted;
mod text;
mod type_member;
mod unary;
mod value;
mod whole;
mod why;

pub use constant::Const;
pub use constants::Constants;
pub use error::ExprError;
pub use places::{TypePlaces, add_place, find, no_places};
pub use scope::{NamedConst, Scope, TypeConsts};
pub use text::print_text;
pub use value::eval;
