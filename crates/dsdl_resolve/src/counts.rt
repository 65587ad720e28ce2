/// How large a type that is no array is, counted through nested types.
#[derive(Clone, Copy, Debug, Drop)]
pub struct Counts {
    /// The most nodes of its values.
    pub nodes: u64,
    /// How deep arrays and composites nest in it.
    pub nesting: u32,
    /// Its fields and paddings.
    pub fields: u32,
}
