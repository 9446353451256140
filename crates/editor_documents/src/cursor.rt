//! Positions in a text, each with the rest of the text, to go on from.
ghost use Rattle.std.specs.Prelude.{◌≡◌, ℕ, ◌+◌, ◌-◌, ◌<◌, ◌≤◌, ◌^◌, ◌∷◌, length, drop, chars, true, Some, IfSome, MatchOption};
ghost use Rattle.editor_documents.specs.Position.{Text, ends_line, next_line, from_position};

use crate::position::{Encoding, Position, after_line_feed, ends_line};
use fancy_lex::text::next;

/// A position in a text, with the rest of the text, to go on from.
#[derive(Debug, Clone, Copy)]
pub struct Cursor<'a> {
    encoding: Encoding,
    position: Position,
    /// The text from it on.
    rest: &'a str,
    ghost lines_fit: { position.line + length rest.now < 2 ^ 64 },
    ghost units_fit: { position.character + length rest.now < 2 ^ 64 },
}

/// The text after the end of a line, which this character begins with the text after it.
fn after_line_end(c: char, after: &str) -> &str
    requires { ends_line c ≡ true }
    ensures value { next_line (c ∷ chars after.now) ≡ Some (chars result.now) }
    ensures within { length result.now ≤ length after.now }
{
    if c == '\r' {
        after_line_feed(after)
    } else {
        after
    }
}

impl<'a> Cursor<'a> {
    ghost use Rattle.editor_documents.specs.Cursor.{IsCursorIn, IsCut};

    /// The start of the text.
    pub fn start(encoding: Encoding, text: &'a str) -> Cursor<'a>
        ensures within { IsCursorIn (chars text.now) result }
        ensures rest { result.rest.now ≡ text.now }
    {
        let _bytes = text.len();
        Cursor {
            encoding,
            position: Position {
                line: 0,
                character: 0,
            },
            rest: text,
        }
    }

    /// Its position.
    pub fn position(self) -> Position
        ensures { result ≡ self.entry.position }
    {
        self.position
    }

    /// The text from the cursor on.
    pub fn rest(self) -> &'a str
        ensures { result.now ≡ self.entry.rest.now }
    {
        self.rest
    }

    /// The cursor after the next character, or after the next end of a line; None at the end of the text.
    fn next(self) -> Option<Cursor<'a>>
        ensures within { IfSome result (λ next. (t : Text) → IsCursorIn t self.entry → IsCursorIn t next) }
        ensures rest { IfSome result (λ next. next.rest.now
            ≡ drop (length self.entry.rest.now - length next.rest.now) self.entry.rest.now) }
        ensures near { IfSome result (λ next. (n : ℕ) → IsCut self.entry.rest.now n
            → n + length next.rest.now < length self.entry.rest.now → n ≡ 0) }
        ensures shorter { MatchOption result (length self.entry.rest.now ≡ 0) (λ next.
            length next.rest.now < length self.entry.rest.now) }
    {
        let (c, after) = next(self.rest)?;
        if ends_line(c) {
            let line = self.position.line + 1;
            return Some(Cursor {
                encoding: self.encoding,
                position: Position { line, character: 0 },
                rest: after_line_end(c, after),
            });
        }
        let character = self.position.character + self.encoding.units(c);
        Some(Cursor {
            encoding: self.encoding,
            position: Position {
                line: self.position.line,
                character,
            },
            rest: after,
        })
    }

    /// The cursor after so many bytes of the rest; before the character or the end of a line, CR LF, that they end in.
    pub fn after(self, bytes: usize) -> Cursor<'a>
        ensures within { (t : Text) → IsCursorIn t self.entry → IsCursorIn t result }
        ensures reached { IsCut self.entry.rest.now bytes → result.rest.now ≡ drop bytes self.entry.rest.now }
        ensures before { length self.entry.rest.now ≤ length result.rest.now + bytes }
    {
        let left = self.rest.len().saturating_sub(bytes);
        let mut cursor = self;
        while let Some(next) = cursor.next() {
            if next.rest.len() < left {
                break;
            }
            cursor = next;
        }
        cursor
    }
}
