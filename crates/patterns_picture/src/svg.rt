//! The picture, as SVG.
use crate::figure::Figure;
use crate::grid::Grid;
use crate::label::Words;
use crate::layout::{Drawn, Layout};
use crate::rails::{Arrow, past_child, to_branch, to_end, to_line, to_start};
use crate::size::{COLUMN, GAP, LINE, SIDE, Size, WORD_LINE, narrowed};
use crate::style::STYLE;
use crate::text::Xml;
use fancy_syntax::expr::Expr;
use fancy_syntax::span::Span;
use fancy_syntax::spanned::SpannedTree;
use patterns_listing::drawing::role;
use patterns_text::error::RunError;
use patterns_text::subject::Subject;
use std::io;
use std::io::Write;

/// What is left free round the picture.
const MARGIN: usize = 16;
/// The fewest columns of a line of the pattern.
const FEWEST_COLUMNS: usize = 40;
/// How many colours groups have.
const COLOURS: usize = 12;

/// A picture, as it is written.
#[derive(Drop)]
struct Picture<'a> {
    pattern: &'a str,
    /// How many groups have a number.
    total: usize,
    words: Words<'a>,
    layout: Layout<'a>,
    grid: Grid<'a>,
}

/// The name of the figure in the style sheet.
fn class(figure: Figure) -> &'static str {
    match figure {
        Figure::Nothing => "nothing",
        Figure::Character => "character",
        Figure::Leaf => "leaf",
        Figure::Row => "row",
        Figure::Fork => "fork",
        Figure::Loop { .. } => "loop",
        Figure::Frame => "frame",
        Figure::Parts => "parts",
    }
}

/// Whether the node is case-insensitive.
fn is_insensitive(node: &Expr) -> bool {
    matches!(
        node,
        Expr::Literal { casei: true, .. }
            | Expr::Delegate { casei: true, .. }
            | Expr::Backref { casei: true, .. }
            | Expr::BackrefWithRelativeRecursionLevel { casei: true, .. }
    )
}

/// The number of the group that the node refers to.
fn referred(node: &Expr) -> Option<usize> {
    if let Expr::Backref { group, .. }
    | Expr::BackrefWithRelativeRecursionLevel { group, .. }
    | Expr::BackrefExistsCondition { group, .. }
    | Expr::SubroutineCall(group) = node
    {
        return Some(*group);
    }
    None
}

/// Writes a text that begins, or is centred, at a point.
fn write_text<O: Write>(
    out: &mut O,
    class: &str,
    x: usize,
    y: usize,
    text: &str,
) -> io::Result<()> {
    if text.is_empty() {
        return Ok(());
    }
    writeln!(
        out,
        "<text class=\"{class}\" x=\"{x}\" y=\"{y}\">{}</text>",
        Xml(text)
    )
}

/// Writes the rails that fork to the branches after the first.
fn write_branches<O: Write>(
    out: &mut O,
    layout: &Layout<'_>,
    index: usize,
    fork: &Drawn<'_>,
) -> io::Result<()> {
    for branch in layout.children(index).skip(1) {
        writeln!(
            out,
            "<path class=\"rail\" d=\"{}\"/>",
            to_branch(fork, branch)
        )?;
    }
    Ok(())
}

/// Writes the rails of a loop.
fn write_loop<O: Write>(
    out: &mut O,
    node: &Drawn<'_>,
    child: &Drawn<'_>,
    repeats: bool,
    skips: bool,
) -> io::Result<()> {
    if repeats {
        let arrow = Arrow {
            middle: child.middle(),
            height: node.top.saturating_add(WORD_LINE),
        };
        writeln!(
            out,
            "<path class=\"rail\" d=\"{}\"/>",
            to_start(node, child)
        )?;
        writeln!(out, "<path class=\"arrow\" d=\"{arrow}\"/>")?;
    }
    if skips {
        writeln!(
            out,
            "<path class=\"rail\" d=\"{}\"/>",
            past_child(node, child)
        )?;
    }
    Ok(())
}

/// Writes a part's rail, and what the part is.
fn write_part<O: Write>(
    out: &mut O,
    node: &Drawn<'_>,
    part: &Drawn<'_>,
    following: usize,
) -> io::Result<()> {
    let from = part.left.saturating_sub(GAP / 2);
    let to = part.right().saturating_add(GAP / 2);
    writeln!(
        out,
        "<path class=\"rail\" d=\"M{from} {}H{to}\"/>",
        part.rail()
    )?;
    let left = node.left.saturating_add(GAP);
    let base = part.rail().saturating_add(4);
    write_text(
        out,
        "role",
        left,
        base,
        role(node.node, following).trim_end(),
    )
}

/// Writes the rails of the parts of a node.
fn write_parts<O: Write>(
    out: &mut O,
    layout: &Layout<'_>,
    index: usize,
    node: &Drawn<'_>,
) -> io::Result<()> {
    let mut following = layout.children(index).count();
    for part in layout.children(index) {
        following = following.saturating_sub(1);
        write_part(out, node, part, following)?;
    }
    Ok(())
}

/// Writes the rail to a line of a row that is not its first, from the part before the line.
fn write_turn<O: Write>(
    out: &mut O,
    row: &Drawn<'_>,
    before: &Drawn<'_>,
    first: &Drawn<'_>,
    line: Size,
) -> io::Result<()> {
    let turn = to_line(before, first, line);
    if turn.rail == row.rail() {
        writeln!(
            out,
            "<path class=\"cut\" d=\"M{} {}H{}\"/>",
            turn.end,
            turn.rail,
            row.right()
        )?;
    }
    let arrow = Arrow {
        middle: turn.end.midpoint(turn.next_start),
        height: turn.back,
    };
    writeln!(out, "<path class=\"rail\" d=\"{turn}\"/>")?;
    writeln!(out, "<path class=\"arrow\" d=\"{arrow}\"/>")
}

/// Writes the rails between the lines of a row, and that from the end of the last one.
fn write_lines<O: Write>(
    out: &mut O,
    layout: &Layout<'_>,
    index: usize,
    row: &Drawn<'_>,
) -> io::Result<()> {
    let mut last = None;
    for part in layout.children(index) {
        if let (Some(before), Some(line)) = (last, part.line) {
            write_turn(out, row, before, part, line)?;
        }
        last = Some(part);
    }
    match last {
        Some(last) if row.is_wrapped => {
            writeln!(out, "<path class=\"rail\" d=\"{}\"/>", to_end(row, last))
        }
        _ => Ok(()),
    }
}

/// Writes the rails that the node has of its own.
fn write_rails<O: Write>(
    out: &mut O,
    layout: &Layout<'_>,
    index: usize,
    node: &Drawn<'_>,
) -> io::Result<()> {
    match node.figure {
        Figure::Row => write_lines(out, layout, index, node),
        Figure::Fork => write_branches(out, layout, index, node),
        Figure::Parts => write_parts(out, layout, index, node),
        Figure::Loop { repeats, skips } => match layout.children(index).next() {
            Some(child) => write_loop(out, node, child, repeats, skips),
            None => Ok(()),
        },
        _ => Ok(()),
    }
}

/// Writes the words on the node's box.
fn write_words<O: Write>(out: &mut O, node: &Drawn<'_>, words: &str) -> io::Result<()> {
    let (left, base) = match node.figure {
        Figure::Leaf => (node.middle(), LINE.saturating_add(8)),
        Figure::Loop { .. } => (node.middle(), 11),
        _ => (node.left.saturating_add(GAP / 2), 12),
    };
    write_text(out, "words", left, node.top.saturating_add(base), words)
}

/// Writes the area of the node.
fn write_box<O: Write>(out: &mut O, node: &Drawn<'_>) -> io::Result<()> {
    let round = match node.figure {
        Figure::Frame | Figure::Parts => 8,
        Figure::Leaf => 4,
        _ => 0,
    };
    let Drawn {
        left,
        top,
        size,
        ..
    } = node;
    write!(out, "<rect class=\"box\" x=\"{left}\" y=\"{top}\"")?;
    writeln!(
        out,
        " width=\"{}\" height=\"{}\" rx=\"{round}\"/>",
        size.width, size.height
    )
}

impl<'a> Picture<'a> {
    fn of(
        subject: Subject<'a>,
        parsed: &'a SpannedTree,
        width: usize,
    ) -> Result<Picture<'a>, RunError> {
        let Subject { alloc, pattern, .. } = subject;
        let mut words = Words::new(alloc, pattern, parsed)?;
        let left = MARGIN + SIDE;
        let inside = narrowed(width, 2 * left);
        let layout = Layout::of(subject, &mut words, parsed, (left, MARGIN), inside)?;
        let (right, bottom) = layout.corner();
        let limit = (right / COLUMN).max(FEWEST_COLUMNS);
        let grid = Grid::of(alloc, pattern, limit, MARGIN, bottom.saturating_add(LINE))?;
        Ok(Picture {
            pattern,
            total: parsed.tree.total_groups,
            words,
            layout,
            grid,
        })
    }

    /// The group that the node is, or refers to, if there is one: its number.
    fn group(&self, node: &Drawn<'_>) -> Option<usize> {
        if let Expr::Group(_) = node.node {
            return Some(node.groups);
        }
        referred(node.node).filter(|number| 0 < *number && *number <= self.total)
    }

    /// Writes how an element begins that holds the node: its classes.
    fn write_classes<O: Write>(
        &self,
        out: &mut O,
        index: usize,
        node: &Drawn<'_>,
    ) -> io::Result<()> {
        write!(out, "<g class=\"node node{index} {}", class(node.figure))?;
        if is_insensitive(node.node) {
            out.write_all(b" insensitive")?;
        }
        if let Some(number) = self.group(node) {
            write!(out, " colour{}", number % COLOURS)?;
        }
        if let Expr::Group(_) = node.node {
            write!(out, " group\" id=\"group{}", node.groups)?;
        }
        writeln!(out, "\">")
    }

    /// Writes what is drawn of the node.
    fn write_drawing<O: Write>(
        &mut self,
        out: &mut O,
        index: usize,
        node: &Drawn<'_>,
    ) -> Result<(), RunError> {
        writeln!(
            out,
            "<path class=\"area\" d=\"{}\"/>",
            self.grid.area(node.span)
        )?;
        write_box(out, node)?;
        write_rails(out, &self.layout, index, node)?;
        if let Figure::Character | Figure::Leaf = node.figure {
            let base = node.top.saturating_add(17);
            write_text(out, "text", node.middle(), base, node.text(self.pattern))?;
        }
        if self.layout.is_possessive(index) {
            write_words(out, node, "possessive")?;
            return Ok(());
        }
        write_words(out, node, self.words.on_box(node.node, node.groups)?)?;
        Ok(())
    }

    /// Writes the node: what it is and its span, and then what is drawn of it.
    fn write_node<O: Write>(
        &mut self,
        out: &mut O,
        index: usize,
        node: &Drawn<'_>,
    ) -> Result<(), RunError> {
        let link = referred(node.node).filter(|number| *number <= self.total);
        if let Some(number) = link {
            writeln!(out, "<a href=\"#group{number}\">")?;
        }
        self.write_classes(out, index, node)?;
        let Span { start, end } = node.span;
        let words = Xml(self.words.of(node.node, node.groups)?);
        writeln!(out, "<title>{words}, at {start}..{end}</title>")?;
        self.write_drawing(out, index, node)?;
        out.write_all(b"</g>\n")?;
        if link.is_some() {
            out.write_all(b"</a>\n")?;
        }
        Ok(())
    }

    /// Writes all nodes.
    fn write_nodes<O: Write>(&mut self, out: &mut O) -> Result<(), RunError> {
        for index in 0..self.layout.nodes.len() {
            if let Some(node) = self.layout.nodes.get(index).copied() {
                self.write_node(out, index, &node)?;
            }
        }
        Ok(())
    }

    /// Writes the rail from the beginning to the end.
    fn write_line<O: Write>(&self, out: &mut O) -> io::Result<()> {
        let Some(root) = self.layout.nodes.first() else {
            return Ok(());
        };
        let (rail, right) = (root.rail(), root.right().saturating_add(SIDE));
        writeln!(out, "<path class=\"rail\" d=\"M{MARGIN} {rail}H{right}\"/>")?;
        writeln!(
            out,
            "<circle class=\"end\" cx=\"{MARGIN}\" cy=\"{rail}\" r=\"5\"/>"
        )?;
        writeln!(
            out,
            "<circle class=\"end\" cx=\"{right}\" cy=\"{rail}\" r=\"5\"/>"
        )
    }

    fn write<O: Write>(&mut self, out: &mut O) -> Result<(), RunError> {
        let (right, _) = self.layout.corner();
        let end = right.saturating_add(SIDE).max(self.grid.right());
        let width = end.saturating_add(MARGIN);
        let height = self.grid.bottom().saturating_add(MARGIN);
        write!(
            out,
            "<svg class=\"picture\" id=\"group0\" xmlns=\"http://www.w3.org/2000/svg\""
        )?;
        write!(
            out,
            " width=\"{width}\" height=\"{height}\" viewBox=\"0 0 {width} {height}\""
        )?;
        writeln!(out, " role=\"img\" xml:space=\"preserve\">")?;
        writeln!(out, "<title>{}</title>", Xml(self.pattern))?;
        out.write_all(STYLE.as_bytes())?;
        self.write_line(out)?;
        self.write_nodes(out)?;
        self.grid.write(out)?;
        out.write_all(b"</svg>\n")?;
        Ok(())
    }
}

/// Writes the picture of a tree. Rows that would be wider than the width, in pixels, have several lines.
pub(crate) fn write_picture<O: Write>(
    subject: Subject<'_>,
    parsed: &SpannedTree,
    width: usize,
    out: &mut O,
) -> Result<(), RunError> {
    Picture::of(subject, parsed, width)?.write(out)
}
