//! Faults of the arguments of C.

/// Why arguments make no command.
#[derive(Clone, Copy, Debug, PartialEq, Eq)]
pub enum ArgumentFault {
    /// Out of memory.
    Memory,
    /// The bytes of a name are no UTF-8.
    NotUtf8,
    /// Lengths do not fit the bytes or units that they measure.
    BadLengths,
    /// A number stands for none of the choices.
    BadChoice,
}
