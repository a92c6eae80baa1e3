// The one error of a source and of a sink.
use thiserror::Error;

/// A source or a sink did not do what it was asked, and has counted this as a fault.
#[derive(Clone, Copy, Debug, PartialEq, Eq, Error)]
#[error("the outside failed")]
pub struct Failed;
