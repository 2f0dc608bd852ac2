//! The commands, a file each: a function to the bytes that are to be written, and one that has them written.

pub(crate) mod classify;
pub(crate) mod trial;
