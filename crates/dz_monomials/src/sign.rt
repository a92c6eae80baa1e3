//! Signs.

/// The sign with which the second side of a sum is taken.
#[derive(Clone, Copy)]
pub enum Sign {
    Plus,
    Minus,
}
