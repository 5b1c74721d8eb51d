//! The fault of a writer.

/// The writer returned an error, or took no byte.
#[derive(Clone, Copy, Debug)]
pub struct WriteFault {
    /// The number of bytes that the writer took in this call, up to the greatest `u128`.
    pub written: u128,
}
