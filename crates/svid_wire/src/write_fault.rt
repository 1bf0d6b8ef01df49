use thiserror::Error;

/// A sink stopped after it took the first `written` bytes.
#[derive(Clone, Copy, Debug, PartialEq, Eq, Error)]
#[error("the sink stopped after {written} bytes")]
pub struct WriteFault {
    pub written: usize,
}
