//! What a file defines keeps the rules of schemas.
ghost use Rattle.dsdl_resolve.specs.Soundness.{DefinitionsKeepRules, NamespacesKeepRules};

use dsdl_parse::well_spelled;

/// The definition of a file keeps the rules, where those of the types that it refers to do.
pub fn definitions_keep_rules()
    ensures { DefinitionsKeepRules }
{}

/// Each definition of a compiled namespace keeps the rules.
pub fn namespaces_keep_rules()
    ensures { NamespacesKeepRules }
{
    definitions_keep_rules();
    well_spelled();
}
