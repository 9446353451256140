//! The line on a terminal that says how far a run is. `.ci/runs` tests it on one.
ghost use Rattle.std.specs.Prelude.{◌≡◌, ◌+◌, ◌++◌, ◌≤◌, ◌↔◌, IsTrue, IsNone, IfSome, OnOk, false};
ghost use Rattle.std.specs.Io.KnownBytes.{Appends, Keeps};
ghost use Rattle.std.specs.Time.{instant_nanos};
ghost use Rattle.patterns_program.specs.Progress.{erasure_if};

use crate::tally::{ProgressText, Tally};
use pattern_files::sources::System;
use std::io;
use std::time::{Duration, Instant};

/// How many bytes of patterns are done from one reading of the clock to the next.
pub(crate) const STEP: usize = 8192;

/// An output. The line, which may be below what has been written to it, is erased before more is.
#[derive(Drop)]
pub(crate) struct Output<'a, W> {
    stream: &'a mut W,
    /// Whether the line was shown, where this is a terminal, and nothing was written here since.
    has_line: bool,
}

impl<'a, W: io::Write> Output<'a, W> {
    fn over(stream: &'a mut W) -> Self {
        let has_line = false;
        Output { stream, has_line }
    }

    /// Erases the line, and writes the bytes.
    fn put(&mut self, bytes: &[u8]) -> io::Result<()>
        ensures written { OnOk result (Appends (W.contents self.old.stream.now) (W.contents self.new.stream.now)
            (erasure_if self.old.has_line ++ bytes.now)) }
        ensures gone { OnOk result (self.new.has_line ≡ false) }
    {
        if self.has_line {
            self.stream.write_all(b"\r\x1b[K")?;
            self.has_line = false;
        }
        self.stream.write_all(bytes)
    }
}

impl<W: io::Write> io::Write for Output<'_, W> {
    fn write(&mut self, bytes: &[u8]) -> io::Result<usize> {
        self.put(bytes).map(|()| bytes.len())
    }

    fn flush(&mut self) -> io::Result<()> {
        self.stream.flush()
    }
}

/// When the line of a run that begins at a time is due first: after a second.
fn first_due(begin: Instant) -> Option<Instant>
    ensures later { IfSome result (λ time. instant_nanos time ≡ instant_nanos begin + 1_000_000_000) }
{
    begin.checked_add(Duration::from_secs(1))
}

/// Whether the line is due at a time. If so, it is due again after a tenth of a second. Without a time it never is.
fn strikes(due: &mut Option<Instant>, now: Instant) -> bool
    ensures due { IfSome due.entry.now (λ time. IsTrue result ↔ (instant_nanos time ≤ instant_nanos now)) }
    ensures never { IsNone due.entry.now → result ≡ false }
    ensures later { IsTrue result → IfSome due.new (λ time. instant_nanos time ≡ instant_nanos now + 100_000_000) }
    ensures waits { result ≡ false → due.new ≡ due.old }
{
    let is_due = due.is_some_and(|time| now.checked_duration_since(time).is_some());
    if is_due {
        *due = now.checked_add(Duration::from_millis(100));
    }
    is_due
}

/// The outputs of a run over files, and the line that says how far it is.
#[derive(Drop)]
pub(crate) struct Screen<'a, S, O, E> {
    pub(crate) out: Output<'a, O>,
    pub(crate) err: Output<'a, E>,
    system: &'a S,
    /// When the run began, if the line may be shown.
    begin: Option<Instant>,
    /// When the line is shown next: never, if none.
    due: Option<Instant>,
    bytes_in_step: usize,
}

impl<'a, S: System, O: io::Write, E: io::Write> Screen<'a, S, O, E> {
    /// The outputs of a run that begins now. No line is shown if it is quiet or the error output is no terminal.
    pub(crate) fn new(system: &'a S, is_quiet: bool, out: &'a mut O, err: &'a mut E) -> Self
        ensures quiet { IsTrue is_quiet → IsNone result.due }
    {
        let is_shown = !is_quiet && system.terminals().err;
        let begin = Instant::now(system).ok().filter(|_| is_shown);
        Screen {
            out: Output::over(out),
            err: Output::over(err),
            system,
            begin,
            due: begin.and_then(first_due),
            bytes_in_step: 0,
        }
    }

    /// Goes on after so many bytes, and shows the line, in the place of the one before, if it is due.
    pub(crate) fn go_on(&mut self, bytes: usize, tally: &Tally) -> io::Result<()>
        ensures silent { IsNone self.old.due → Keeps (E.contents self.old.err.stream.now) (E.contents self.new.err.stream.now) }
        ensures never { IsNone self.old.due → IsNone self.new.due }
    {
        self.bytes_in_step = (self.bytes_in_step % STEP).saturating_add(bytes);
        if self.bytes_in_step >= STEP
            && let Ok(now) = Instant::now(self.system)
            && strikes(&mut self.due, now)
        {
            self.out.stream.flush()?;
            self.out.has_line = self.system.terminals().out;
            self.err.has_line = true;
            let elapsed = self
                .begin
                .and_then(|begin| now.checked_duration_since(begin))
                .unwrap_or(Duration::ZERO);
            let text = ProgressText { tally, elapsed };
            write!(self.err.stream, "\x1b[?7l\r{text}\x1b[K\x1b[?7h")?;
            self.err.stream.flush()?;
        }
        Ok(())
    }
}
