//! What is to be written to the two outputs.
use std::alloc::Global;
use std::io;
use std::io::Write;

/// What is to be written to the two outputs.
#[derive(Drop)]
pub struct Streams {
    pub out: Vec<u8>,
    pub err: Vec<u8>,
}

/// One of the two outputs.
#[derive(Clone, Copy, PartialEq, Eq)]
pub enum Stream {
    Out,
    Err,
}

impl Streams {
    /// Nothing yet.
    pub fn new(alloc: Global) -> Streams {
        Streams {
            out: Vec::new(alloc),
            err: Vec::new(alloc),
        }
    }

    /// Forgets what is to be written.
    pub fn clear(&mut self) {
        self.out.clear();
        self.err.clear();
    }

    /// Writes it to the outputs, and forgets it.
    pub fn put<O: Write, E: Write>(&mut self, out: &mut O, err: &mut E) -> io::Result<()> {
        if !self.out.is_empty() {
            out.write_all(&self.out)?;
        }
        if !self.err.is_empty() {
            err.write_all(&self.err)?;
        }
        self.clear();
        Ok(())
    }

    /// One of them.
    pub(crate) fn stream(&mut self, stream: Stream) -> &mut Vec<u8> {
        match stream {
            Stream::Out => &mut self.out,
            Stream::Err => &mut self.err,
        }
    }
}
