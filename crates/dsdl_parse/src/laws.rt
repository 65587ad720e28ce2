ghost use Rattle.dsdl_parse.specs.Laws.{HaveOneTree};
ghost use Rattle.dsdl_parse.specs.Ast.{IsParsedOneWay};
ghost use Rattle.dsdl_parse.specs.Spelling.{AreWellSpelled};

use dsdl_lex::one_reading;

/// Words are one expression at most, at any bound on its nesting.
#[tactic(auto, using(crate::proofs::WholeReads::one_tree))]
pub fn one_tree()
    ensures { HaveOneTree }
{}

/// A text has either one list of statements or one first line that is none; a line is one statement
/// at most.
pub fn one_parsing()
    ensures { IsParsedOneWay }
{
    one_reading();
}

/// The names of attributes and directives are names, and types are spelled as the grammar says.
#[tactic(auto, using(crate::proofs::Spelled::are_spelled))]
pub fn well_spelled()
    ensures { AreWellSpelled }
{}
