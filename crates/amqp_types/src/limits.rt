//! Limits on what is read and kept.

/// How much of a value may be read. Both limits bound the memory of a call, and `depth` its stack.
#[derive(Clone, Copy, Debug, PartialEq, Eq)]
pub struct Limits {
    /// How many lists, maps, arrays and described values may be nested in one another.
    pub depth: usize,
    /// How many values there may be: the outermost one, and each item, key, value, descriptor and
    /// described value inside it.
    pub nodes: usize,
}
