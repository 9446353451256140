//! How a result compares with the recorded one.

/// What the program says where memory ran out.
pub(crate) const OUT_OF_MEMORY: &str = "out of memory\n";

/// What a run ended with, and what it wrote.
#[derive(Drop)]
pub(crate) struct RunResult {
    pub(crate) status: u8,
    pub(crate) out: Vec<u8>,
    pub(crate) err: Vec<u8>,
}

impl RunResult {
    /// Whether the run has no result, since memory ran out: what is on standard output is a beginning of the
    /// recorded lines.
    pub(crate) fn is_out_of_memory(&self, recorded: &RunResult) -> bool {
        self.status == 3
            && self.err.as_slice() == OUT_OF_MEMORY.as_bytes()
            && recorded.out.starts_with(&self.out)
    }

    /// Whether the result is the recorded one, byte by byte.
    pub(crate) fn is(&self, recorded: &RunResult) -> bool {
        self.status == recorded.status && self.out == recorded.out && self.err == recorded.err
    }
}
