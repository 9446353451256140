//! A pattern's tree, drawn with branches.
use crate::class_words::ClassWords;
use crate::fact_words::{FactRows, FactWords};
use crate::trivia::write_trivia;
use class_meaning::characters_of;
use fancy_lex::flags::Flags;
use fancy_syntax::expr::{Expr, Shape};
use fancy_syntax::span::Span;
use fancy_syntax::spanned::{SpannedNode, SpannedTree};
use patterns_text::columns::ColumnTable;
use patterns_text::error::RunError;
use patterns_text::group_info::write_group_info;
use patterns_text::names::Names;
use patterns_text::nodes::nodes_of;
use patterns_text::subject::Subject;
use patterns_text::words::{Held, LiteralWords, Visible, is_reference, write_reference};
use std::alloc::{AllocError, Global};
use std::io::Write;
use std::{fmt, io};

/// The characters of the branches.
#[derive(Clone, Copy)]
pub enum Style {
    /// Those that Unicode has for drawing.
    Lines,
    /// Some of ASCII's.
    Ascii,
}

/// How a tree is drawn.
#[derive(Clone, Copy)]
pub struct Look {
    pub style: Style,
    /// Whether the span of each node is written, in byte offsets, and its text.
    pub has_spans: bool,
    /// Whether each literal has a line of its own. Otherwise adjacent literals of a concatenation have one together.
    pub has_each_literal: bool,
    /// Whether what is known of each node's matches is written after it. Each literal then has a line of its own.
    pub has_facts: bool,
    /// Whether what a class contains is written after it.
    pub has_classes: bool,
    /// Whether what no node has is listed after the tree.
    pub has_trivia: bool,
}

impl Look {
    /// Whether adjacent literals of a concatenation have one line.
    fn has_runs(self) -> bool {
        !self.has_each_literal && !self.has_facts
    }
}

/// What is before a node: for each level from the first whether the node that it runs through is the last there.
#[derive(Clone, Copy)]
struct BranchLines<'a> {
    style: Style,
    lasts: &'a [bool],
}

impl Style {
    /// What is before a node itself.
    fn own(self, is_last: bool) -> &'static str {
        match (self, is_last) {
            (Style::Lines, false) => "├─ ",
            (Style::Lines, true) => "└─ ",
            (Style::Ascii, false) => "|- ",
            (Style::Ascii, true) => "`- ",
        }
    }

    /// What is at a level before what is below its node.
    fn above(self, is_last: bool) -> &'static str {
        match (self, is_last) {
            (_, true) => "   ",
            (Style::Lines, false) => "│  ",
            (Style::Ascii, false) => "|  ",
        }
    }
}

impl fmt::Display for BranchLines<'_> {
    fn fmt<W: fmt::Write>(&self, f: &mut fmt::Formatter<W>) -> fmt::Result {
        let Some((own, above)) = self.lasts.split_last() else {
            return Ok(());
        };
        for is_last in above {
            f.write_str(self.style.above(*is_last))?;
        }
        f.write_str(self.style.own(*own))
    }
}

/// Adjacent literals of a concatenation that are equally sensitive to case; none if the text is empty.
#[derive(Drop)]
struct LiteralRun {
    text: String,
    casei: bool,
    /// From the first literal to the last one.
    span: Span,
}

impl LiteralRun {
    /// Whether the run may go on with the node.
    fn takes(&self, node: &Expr) -> bool {
        let Expr::Literal { casei, .. } = node else {
            return false;
        };
        self.text.is_empty() || self.casei == *casei
    }

    /// Adds a literal, which the run takes.
    fn add(&mut self, node: &Expr, span: Span) -> Result<(), AllocError> {
        let Expr::Literal { val, casei } = node else {
            return Ok(());
        };
        if self.text.is_empty() {
            self.casei = *casei;
            self.span.start = span.start;
        }
        self.span.end = span.end;
        self.text.push_str(val.as_str())
    }
}

/// Whether the node is a concatenation of literals that are equally sensitive to case.
fn is_run(node: &Expr) -> bool {
    let Expr::Concat(children) = node else {
        return false;
    };
    let Some(Expr::Literal { casei: first, .. }) = children.first() else {
        return false;
    };
    children.iter().all(|child| matches!(child, Expr::Literal { casei, .. } if casei == first))
}

/// A tree that is being drawn.
#[derive(Drop)]
struct Drawing<'a> {
    alloc: Global,
    flags: Flags,
    look: Look,
    pattern: &'a str,
    names: Names<'a>,
    columns: ColumnTable,
    facts: FactRows,
    /// How many groups are drawn.
    groups: usize,
    lasts: Vec<bool>,
    /// The literals that are not drawn yet.
    run: LiteralRun,
}

impl Drawing<'_> {
    /// Writes what the node is.
    fn write_label(&mut self, out: &mut Vec<u8>, node: &Expr) -> io::Result<()> {
        if is_reference(node) {
            return write_reference(out, node, &self.names, &self.columns);
        }
        if let Expr::Group(_) = node {
            self.groups = self.groups.saturating_add(1);
            return write!(out, "{}", self.names.group(self.groups));
        }
        write!(out, "{}", Held(node))
    }

    /// Writes what the node contains, if it is a class, and that is written.
    fn write_class(&self, out: &mut Vec<u8>, node: &Expr) -> Result<(), RunError> {
        let Expr::Delegate { .. } = node else {
            return Ok(());
        };
        if self.look.has_classes {
            let meaning = characters_of(self.alloc, node, self.flags.unicode)?;
            write!(out, ": {}", ClassWords(&meaning))?;
        }
        Ok(())
    }

    /// Writes what is known of the matches of the next node, if that is written.
    fn write_facts(&mut self, out: &mut Vec<u8>) -> io::Result<()> {
        match self.facts.take() {
            Some(facts) => write!(out, " ({})", FactWords(facts)),
            None => Ok(()),
        }
    }

    /// Writes the span and the text there, if spans are written, and ends the line.
    fn end_line(&self, out: &mut Vec<u8>, span: Span) -> io::Result<()> {
        if self.look.has_spans {
            let text = span.text(self.pattern).unwrap_or("");
            let colon = if text.is_empty() { "" } else { ": " };
            write!(
                out,
                " at {}..{}{colon}{}",
                span.start,
                span.end,
                Visible(text)
            )?;
        }
        out.write_all(b"\n")
    }

    /// Begins a line; `role` is what its node is to the parent.
    fn begin_line(&self, out: &mut Vec<u8>, role: &str) -> io::Result<()> {
        let branches = BranchLines {
            style: self.look.style,
            lasts: &self.lasts,
        };
        write!(out, "{branches}{role}")
    }

    /// Writes the node's line; `role` is what it is to its parent.
    fn write_line(
        &mut self,
        out: &mut Vec<u8>,
        role: &str,
        node: SpannedNode<'_>,
    ) -> Result<(), RunError> {
        self.begin_line(out, role)?;
        self.write_label(out, node.expr())?;
        self.write_class(out, node.expr())?;
        self.write_facts(out)?;
        self.end_line(out, node.span())?;
        Ok(())
    }

    /// Writes the line of the run, after which there is none.
    fn write_run(&mut self, out: &mut Vec<u8>, role: &str) -> io::Result<()> {
        self.begin_line(out, role)?;
        let literal = LiteralWords {
            text: self.run.text.as_str(),
            casei: self.run.casei,
        };
        write!(out, "{literal}")?;
        self.end_line(out, self.run.span)?;
        self.run.text.clear();
        Ok(())
    }

    /// Draws the run, if there is one, below the branches that are drawn.
    fn end_run(&mut self, out: &mut Vec<u8>, is_last: bool) -> Result<(), RunError> {
        if self.run.text.is_empty() {
            return Ok(());
        }
        self.lasts.push(is_last)?;
        self.write_run(out, "")?;
        self.lasts.pop();
        Ok(())
    }

    /// Adds the child to the run if it is a literal of a concatenation, and runs are drawn; ends the run if it does not take
    /// the child. Returns whether the child is in the run now.
    fn add_to_run(
        &mut self,
        out: &mut Vec<u8>,
        parent: &Expr,
        child: SpannedNode<'_>,
    ) -> Result<bool, RunError> {
        if !self.run.takes(child.expr()) {
            self.end_run(out, false)?;
        }
        let is_of_run = matches!(
            (parent, child.expr()),
            (Expr::Concat(_), Expr::Literal { .. })
        );
        if !is_of_run || !self.look.has_runs() {
            return Ok(false);
        }
        self.run.add(child.expr(), child.span())?;
        Ok(true)
    }

    /// Draws the node as one literal if it is a run, and runs are drawn. Returns whether it is drawn.
    fn draw_as_run(
        &mut self,
        out: &mut Vec<u8>,
        role: &str,
        node: SpannedNode<'_>,
    ) -> Result<bool, RunError> {
        if !self.look.has_runs() || !is_run(node.expr()) {
            return Ok(false);
        }
        for literal in node.children() {
            self.run.add(literal.expr(), literal.span())?;
        }
        self.write_run(out, role)?;
        Ok(true)
    }
}

/// What a child is to its parent, where so many follow it.
pub fn role(parent: &Expr, following: usize) -> &'static str {
    match parent.shape() {
        Shape::Conditional { .. } => match following {
            2 => "if: ",
            1 => "then: ",
            _ => "else: ",
        },
        Shape::Expression { .. } if following == 1 => "absent: ",
        Shape::Expression { .. } => "text: ",
        Shape::Leaf | Shape::Around(..) | Shape::Concat(_) | Shape::Alt(_) => "",
    }
}

/// Draws the node and those below it, below the branches that are drawn.
fn draw(
    out: &mut Vec<u8>,
    drawing: &mut Drawing<'_>,
    as_what: &str,
    node: SpannedNode<'_>,
) -> Result<(), RunError> {
    if drawing.draw_as_run(out, as_what, node)? {
        return Ok(());
    }
    drawing.write_line(out, as_what, node)?;
    let mut following = node.expr().children_iter().count();
    for child in node.children() {
        following = following.saturating_sub(1);
        if drawing.add_to_run(out, node.expr(), child)? {
            continue;
        }
        drawing.lasts.push(following == 0)?;
        draw(out, drawing, role(node.expr(), following), child)?;
        drawing.lasts.pop();
    }
    drawing.end_run(out, true)
}

/// Draws the pattern's tree, writes its group information, and lists what no node has, if that is listed.
pub fn write_tree(
    subject: Subject<'_>,
    look: Look,
    parsed: &SpannedTree,
    out: &mut Vec<u8>,
) -> Result<(), RunError> {
    let Subject { alloc, pattern, .. } = subject;
    let nodes = nodes_of(alloc, parsed)?;
    let mut drawing = Drawing {
        alloc,
        flags: Flags::from_bits(subject.flags),
        look,
        pattern,
        names: Names::of(alloc, &parsed.tree)?,
        columns: ColumnTable::of(alloc, pattern, &nodes)?,
        facts: FactRows::of(subject, look.has_facts, parsed)?,
        groups: 0,
        lasts: Vec::new(alloc),
        run: LiteralRun {
            text: String::new(alloc),
            casei: false,
            span: Span { start: 0, end: 0 },
        },
    };
    draw(out, &mut drawing, "", parsed.root())?;
    write_group_info(out, &parsed.tree)?;
    if look.has_trivia {
        write_trivia(out, pattern, &parsed.trivia)?;
    }
    Ok(())
}
