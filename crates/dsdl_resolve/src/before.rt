use crate::attributes::Attributes;
use crate::standing::Standing;
use crate::totals::Totals;

/// What is known before a statement.
#[derive(Drop)]
pub struct Before {
    /// Which statements stand in the file and in the section.
    pub standing: Standing,
    /// The names of the section's attributes.
    pub names: Attributes,
    /// The numbers of the section's fields.
    pub totals: Totals,
}
