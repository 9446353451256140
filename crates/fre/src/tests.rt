//! What the program writes, and what it does where a write fails.
use fre_program::program::fre_run;
use std::alloc::{AllocError, Global};
use std::io;
use std::io::{ErrorKind, Write};

/// Takes what is written. One write or flush fails, the one with this number. It remembers whether a flush follows the
/// last write.
#[derive(Drop)]
pub(crate) struct FailingWriter {
    pub(crate) text: Vec<u8>,
    refused: Option<usize>,
    kind: ErrorKind,
    has_failed: bool,
    is_flushed: bool,
}

impl FailingWriter {
    fn new(alloc: Global, refused: Option<usize>) -> FailingWriter {
        FailingWriter {
            text: Vec::new(alloc),
            refused,
            kind: ErrorKind::StorageFull,
            has_failed: false,
            is_flushed: true,
        }
    }

    /// Counts down to the write that fails.
    fn count(&mut self) -> io::Result<()> {
        let Some(left) = self.refused else {
            return Ok(());
        };
        self.refused = left.checked_sub(1);
        if left == 0 {
            self.has_failed = true;
            return Err(io::Error::from(self.kind));
        }
        Ok(())
    }
}

impl Write for FailingWriter {
    fn write(&mut self, bytes: &[u8]) -> io::Result<usize> {
        self.count()?;
        self.is_flushed = false;
        self.text.extend_from_slice(bytes)?;
        Ok(bytes.len())
    }

    fn flush(&mut self) -> io::Result<()> {
        self.count()?;
        self.is_flushed = true;
        Ok(())
    }
}

/// The result of a run, and what its two outputs got.
#[derive(Drop)]
pub(crate) struct Run {
    status: u8,
    pub(crate) out: FailingWriter,
    err: FailingWriter,
}

fn owned(alloc: Global, words: &[&str]) -> Result<Vec<String>, AllocError> {
    let mut owned = Vec::new(alloc);
    for word in words {
        owned.push(String::from_str(alloc, word)?)?;
    }
    Ok(owned)
}

pub(crate) fn run_failing(
    alloc: Global,
    words: &[&str],
    refused_out: Option<usize>,
    refused_err: Option<usize>,
) -> Result<Run, AllocError> {
    let out = FailingWriter::new(alloc, refused_out);
    let err = FailingWriter::new(alloc, refused_err);
    run_on(alloc, words, out, err)
}

fn run_on(
    alloc: Global,
    words: &[&str],
    mut out: FailingWriter,
    mut err: FailingWriter,
) -> Result<Run, AllocError> {
    let words = owned(alloc, words)?;
    let status = fre_run(alloc, &words, &mut out, &mut err);
    Ok(Run { status, out, err })
}

const ACCEPTED: &str = "Concat
  Group
    Alt
      Literal 61 casei=false
      Literal 62 casei=false
  Repeat 0 18446744073709551615 greedy=true
    Literal 63 casei=false
marks groups=1 backrefs=- named=- numeric=false calls=false self=false out_of_range=none ignored=false
text 28617c6229632a
";

const NAMED: &str = "Concat
  Group
    Literal 78 casei=false
  Backref 1 casei=false
marks groups=1 backrefs=1 named=6e:1 numeric=false calls=false self=false out_of_range=none ignored=false
text none
";

const REFUSED: &str =
    "Parsing error at position 2: Opening parenthesis without closing parenthesis\n";

const EMPTY: &str = "Empty
marks groups=0 backrefs=- named=- numeric=false calls=false self=false out_of_range=none ignored=false
text -
";

const LEFT_OVER: &str =
    "Parsing error at position 1: General parsing error: end of string not reached\n";

const USAGE: &str = "usage: fre FLAGS PATTERN\n";

/// Words, and the status, the output and the error of a run on them.
static RESULTS: [(&[&str], u8, &str, &str); 12] = [
    (&["u", "(a|b)c*"], 0, ACCEPTED, ""),
    (&["u", r"(?<n>x)\k<n>"], 0, NAMED, ""),
    (&["u", ""], 0, EMPTY, ""),
    (&["-", "a("], 1, "", REFUSED),
    (&["u", "a)b"], 1, "", LEFT_OVER),
    (
        &["u", r"\k<-2>\k<b>"],
        1,
        "",
        "Parsing error at position 2: Invalid back reference\n",
    ),
    (&["z", "a"], 2, "", USAGE),
    (&["uz", "a("], 2, "", USAGE),
    (&["-u", "a"], 2, "", USAGE),
    (&["", "a"], 2, "", USAGE),
    (&["u"], 2, "", USAGE),
    (&["u", "a", "b"], 2, "", USAGE),
];

#[test]
fn results(rt: HostRuntime) -> Result<(), AllocError> {
    for (words, status, out, err) in RESULTS.iter() {
        assert!(rt;
            is_result(rt.alloc(), words, *status, out, err)?,
            "{words:?}"
        );
    }
    Ok(())
}

pub(crate) fn is_result(
    alloc: Global,
    words: &[&str],
    status: u8,
    out: &str,
    err: &str,
) -> Result<bool, AllocError> {
    let run = run_failing(alloc, words, None, None)?;
    Ok(
        run.status == status
            && run.out.is_flushed
            && run.out.text.as_slice() == out.as_bytes()
            && run.err.text.as_slice() == err.as_bytes(),
    )
}

const CANNOT_WRITE: &[u8] = b"cannot write\n";

/// Words; whether writes to standard error fail, or those to standard output; and the status, the output and the error
/// of a run in which no write fails.
static WRITES: [(&[&str], bool, u8, &str, &str); 3] = [
    (&["u", "(a|b)c*"], false, 0, ACCEPTED, ""),
    (&["-", "a("], true, 1, "", REFUSED),
    (&["z", "a"], true, 2, "", USAGE),
];

/// Whether the run whose write failed says so, and has written a beginning; none where no write failed, and then it
/// ended well.
fn reports_write(run: &Run, status: u8, out: &str, err: &str) -> Option<bool> {
    if !run.out.has_failed && !run.err.has_failed && run.status == status {
        return None;
    }
    let Some(beginning) = run.err.text.strip_suffix(CANNOT_WRITE) else {
        return Some(false);
    };
    Some(
        run.status == 3
            && out.as_bytes().starts_with(&run.out.text)
            && err.as_bytes().starts_with(beginning),
    )
}

/// How many writes there are, each of which failed in turn and was reported; none where one was not reported, or they
/// do not end.
fn writes(
    alloc: Global,
    words: &[&str],
    on_error: bool,
    status: u8,
    out: &str,
    err: &str,
) -> Result<Option<usize>, AllocError> {
    for number in 0..1000 {
        let refused = Some(number);
        let run = match on_error {
            false => run_failing(alloc, words, refused, None)?,
            true => run_failing(alloc, words, None, refused)?,
        };
        match reports_write(&run, status, out, err) {
            Some(true) => {}
            Some(false) => return Ok(None),
            None => return Ok(Some(number)),
        }
    }
    Ok(None)
}

#[test]
fn refused_writes(rt: HostRuntime) -> Result<(), AllocError> {
    for (words, on_error, status, out, err) in WRITES.iter() {
        let writes = writes(rt.alloc(), words, *on_error, *status, out, err)?;
        assert!(rt; writes.is_some_and(|writes| writes > 0), "{words:?}");
    }
    Ok(())
}

/// Whether a run ends silently whose output is a pipe that is closed before this write, and has written a beginning.
fn ends_silently(alloc: Global, closed: usize) -> Result<bool, AllocError> {
    let mut out = FailingWriter::new(alloc, Some(closed));
    out.kind = ErrorKind::BrokenPipe;
    let run = run_on(
        alloc,
        &["u", "(a|b)c*"],
        out,
        FailingWriter::new(alloc, None),
    )?;
    Ok(run.status == 3 && ACCEPTED.as_bytes().starts_with(&run.out.text) && run.err.text.is_empty())
}

#[test]
fn closed_pipes(rt: HostRuntime) -> Result<(), AllocError> {
    for closed in 0..20 {
        assert!(rt; ends_silently(rt.alloc(), closed)?, "write {closed}");
    }
    Ok(())
}
