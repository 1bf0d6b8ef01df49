use thiserror::Error;

/// A sink took nothing, or a source gave nothing, and the fault was counted.
#[derive(Clone, Copy, Debug, PartialEq, Eq, Error)]
#[error("stopped")]
pub struct Stopped;
