//! Why an input is not shown.

/// Why an input is not shown to its end.
#[derive(Clone, Copy)]
pub enum DumpFault {
    /// Memory ran out.
    Memory,
    /// The writer failed, or took nothing.
    Write,
}
