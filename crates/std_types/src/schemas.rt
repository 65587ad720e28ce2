//! The schemas of the standard types.
pub mod arrays;
pub mod file;
pub mod node;
pub mod register;
mod words;
