//! The subcommand `picture`: a pattern's tree as a railroad diagram.
ghost use Rattle.std.specs.Prelude.{◌≡◌, ◌≤◌, ◌⊎◌, Ok, IfOk};
ghost use Rattle.patterns_text.specs.Subject.{IsAccepted, IsRefused};

use crate::page::write_page;
use crate::svg::write_picture;
use fancy_syntax::spanned::SpannedTree;
use patterns_text::error::{RunError, give_up};
use patterns_text::subject::Subject;
use std::io::Write;

/// How wide a picture is, in pixels, if nothing else is chosen.
pub const WIDTH: usize = 960;

/// What a picture is written as.
#[derive(Clone, Copy)]
pub enum Canvas {
    /// As SVG.
    Svg,
    /// As a page of HTML, with the drawn tree and the group information.
    Page,
}

/// Writes the picture, and sees that it is written.
fn write<O: Write>(
    subject: Subject<'_>,
    canvas: Canvas,
    width: usize,
    parsed: &SpannedTree,
    out: &mut O,
) -> Result<(), RunError> {
    match canvas {
        Canvas::Svg => write_picture(subject, parsed, width, out)?,
        Canvas::Page => write_page(subject, parsed, width, out)?,
    }
    out.flush()?;
    Ok(())
}

/// Writes the picture of the pattern on `out`, or on `err` where and why it is invalid.
fn draw_or_report<O: Write, E: Write>(
    subject: Subject<'_>,
    canvas: Canvas,
    width: usize,
    out: &mut O,
    err: &mut E,
) -> Result<u8, RunError>
    ensures read { result ≡ Ok 0 → IsAccepted subject.entry }
    ensures refused { result ≡ Ok 1 → IsRefused subject.entry }
    ensures status { IfOk result (λ n. n ≤ 1) }
{
    match subject.parse()? {
        Ok(parsed) => {
            write(subject, canvas, width, &parsed, out)?;
            Ok(0)
        }
        Err(refusal) => {
            let mut report = Vec::new(subject.alloc);
            refusal.write(&mut report, subject)?;
            err.write_all(&report)?;
            Ok(1)
        }
    }
}

/// Draws the tree of a pattern as a railroad diagram, and returns the exit status: 0 if the pattern is valid, with the
/// picture on `out`; 1 if it is invalid, with the position and the reason on `err`; 3 if memory ran out or a write
/// failed, which is reported on `err` if that is possible, and `out` may then have part of the output. The width is in
/// pixels: what is in a row has several lines if one would be wider. A part that is wider by itself stays so.
pub fn draw_picture<O: Write, E: Write>(
    subject: Subject<'_>,
    canvas: Canvas,
    width: usize,
    out: &mut O,
    err: &mut E,
) -> u8
    ensures read { result ≡ 0 → IsAccepted subject.entry }
    ensures refused { result ≡ 1 → IsRefused subject.entry }
    ensures status { (result ≡ 0) ⊎ ((result ≡ 1) ⊎ (result ≡ 3)) }
{
    match draw_or_report(subject, canvas, width, out, err) {
        Ok(status) => status,
        Err(error) => give_up(err, error),
    }
}
