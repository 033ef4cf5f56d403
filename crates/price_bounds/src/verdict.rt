//! What a check of a certificate by prices says.

/// What a check of a certificate by prices says.
#[derive(Clone, Copy, PartialEq, Eq, Debug)]
pub enum PriceVerdict {
    /// The list has the score, and no list is above the bound.
    Yes,
    /// P1: the segments or the rungs are another film's.
    OtherFilm,
    /// P2: the rung of this segment of the list, the first such, isn't the film's.
    BadRung {
        /// The segment.
        segment: u16,
    },
    /// P2: this window, the first such, is out of range, or doesn't come after the one before.
    BadWindow {
        /// Its number, from 0.
        window: u16,
    },
    /// P3: the bound of the windows is greater.
    BoundAbove {
        /// The bound of the windows.
        bound: i128,
    },
    /// P4: the list has another value.
    OtherScore {
        /// Its value.
        score: i128,
    },
}
