//! The headings of the groups of commands, in the order in which the table has them.

/// Commands that read a log, or make one.
pub const LOG: &str = "a log";

/// Commands that take part in a network as a node, over a log.
pub const NODE: &str = "a node";

/// Commands that read a plan alone.
pub const PLAN: &str = "a plan";

/// Commands on DSDL types.
pub const TYPES: &str = "types";

/// Commands on values of a type.
pub const VALUES: &str = "values";
