//! Literal blocks of YAML: after `|` the indented lines as they are.
use crate::pieces::{Inside, Opened, Piece, line_break};
use crate::yaml::is_break;

/// What becomes of the line breaks at the end of a block.
#[derive(Clone, Copy, PartialEq, Eq)]
enum Chomping {
    /// All go, after `-`.
    Strip,
    /// That of the last line stays.
    Clip,
    /// All stay, after `+`.
    Keep,
}

/// Inside a literal block.
#[derive(Clone, Copy)]
pub(crate) struct YamlBlock {
    /// How many spaces each line begins with.
    indentation: usize,
    chomping: Chomping,
    /// Whether the rest begins a line.
    is_at_line: bool,
}

/// What a line of a block is.
#[derive(Clone, Copy)]
enum BlockLine {
    /// It has no text; it takes so many bytes.
    Blank(usize),
    /// It has text after its indentation.
    Text,
    /// It is after the block, or there is none.
    After,
}

/// How many spaces the text begins with.
fn spaces_at(text: &str) -> usize {
    text.bytes().take_while(|byte| *byte == b' ').count()
}

/// What follows the header of a block, which the rest begins with, and what becomes of its last line breaks. None if it has
/// an indentation indicator.
fn after_header(rest: &str) -> Option<(&str, Chomping)> {
    let header = rest.strip_prefix('|')?;
    let (chomping, header) = match header.chars().next()? {
        '-' => (Chomping::Strip, header.get(1..)?),
        '+' => (Chomping::Keep, header.get(1..)?),
        _ => (Chomping::Clip, header),
    };
    let end = header.find(is_break)?;
    let (left, lines) = header.split_at_checked(end)?;
    let is_comment = left.starts_with(' ') && left.trim_start_matches(' ').starts_with('#');
    if !is_comment && !left.trim_matches(' ').is_empty() {
        return None;
    }
    Some((lines.get(line_break(lines)..)?, chomping))
}

/// The indentation of a block with these lines: that of the first one with text, before which no blank line has more.
fn indentation_of(lines: &str) -> Option<usize> {
    let mut rest = lines;
    let mut most = 0usize;
    for _ in 0..=lines.len() {
        let spaces = spaces_at(rest);
        let text = rest.get(spaces..)?;
        let broken = line_break(text);
        if broken == 0 {
            return (spaces > 0 && spaces >= most && !text.is_empty()).then_some(spaces);
        }
        most = most.max(spaces);
        rest = text.get(broken..)?;
    }
    None
}

impl YamlBlock {
    /// The block that the rest of a source begins with.
    pub(crate) fn open(rest: &str) -> Option<Opened<YamlBlock>> {
        let (lines, chomping) = after_header(rest)?;
        Some(Opened {
            bytes: rest.len().saturating_sub(lines.len()),
            inside: YamlBlock {
                indentation: indentation_of(lines)?,
                chomping,
                is_at_line: true,
            },
        })
    }

    /// What the first of these lines is.
    fn line(self, lines: &str) -> BlockLine {
        let spaces = spaces_at(lines).min(self.indentation);
        let text = lines.get(spaces..).unwrap_or("");
        match line_break(text) {
            0 if spaces == self.indentation && !text.is_empty() => BlockLine::Text,
            0 => BlockLine::After,
            broken => BlockLine::Blank(spaces.saturating_add(broken)),
        }
    }

    /// Whether a line of these has text, with only blank lines before it.
    fn has_text(self, lines: &str) -> bool {
        let mut rest = lines;
        for _ in 0..=lines.len() {
            match self.line(rest) {
                BlockLine::Text => return true,
                BlockLine::After => return false,
                BlockLine::Blank(bytes) => rest = rest.get(bytes..).unwrap_or(""),
            }
        }
        false
    }

    /// The end of a line, which takes so many bytes, before these lines. With the indentation of the next line, if that has
    /// text, it is one line feed. At the end of the block it may be none.
    fn line_end(self, bytes: usize, lines: &str, is_kept: bool) -> Piece<YamlBlock> {
        let at_line = YamlBlock {
            is_at_line: true,
            ..self
        };
        if let BlockLine::Text = self.line(lines) {
            let in_line = YamlBlock {
                is_at_line: false,
                ..self
            };
            return Piece::character('\n', bytes.saturating_add(self.indentation), in_line);
        }
        if is_kept || self.has_text(lines) {
            Piece::character('\n', bytes, at_line)
        } else {
            Piece::nothing(bytes, at_line)
        }
    }
}

impl Inside for YamlBlock {
    fn piece(self, rest: &str) -> Option<Piece<YamlBlock>> {
        if self.is_at_line {
            return Some(match self.line(rest) {
                BlockLine::After => Piece::end(0),
                BlockLine::Text => Piece::nothing(
                    self.indentation,
                    YamlBlock {
                        is_at_line: false,
                        ..self
                    },
                ),
                BlockLine::Blank(bytes) => {
                    let is_kept = self.chomping == Chomping::Keep;
                    self.line_end(bytes, rest.get(bytes..)?, is_kept)
                }
            });
        }
        let broken = line_break(rest);
        if broken > 0 {
            let is_kept = self.chomping != Chomping::Strip;
            return Some(self.line_end(broken, rest.get(broken..)?, is_kept));
        }
        let Some(first) = rest.chars().next() else {
            return Some(Piece::end(0));
        };
        if is_break(first) {
            return None;
        }
        Some(Piece::character(first, first.len_utf8(), self))
    }
}
