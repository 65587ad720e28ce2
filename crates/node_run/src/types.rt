//! The types of a folder: loaded, laid out, and compared.

pub mod compared;
pub mod layouts;
pub mod named;
pub mod namespace;
