//! What a check of a certificate says.

/// What a check of a certificate says.
#[derive(Clone, Copy, PartialEq, Eq, Debug)]
pub enum Verdict {
    /// The certificate is valid.
    Yes,
    /// It isn't.
    No {
        /// The number of the first clause that fails, 1 to 6.
        clause: u8,
        /// The segment of the first place where it fails.
        segment: u16,
        /// The rung of that place.
        rung: u8,
        /// The place of a label in its chain.
        label: u32,
    },
}
