//! Where each node is drawn in the picture.
use crate::content::Content;
use crate::figure::Figure;
use crate::label::Words;
use crate::size::{GAP, RETURN, ROLE, SIDE, Size, WORD_LINE};
use crate::text::columns;
use fancy_syntax::expr::Expr;
use fancy_syntax::span::Span;
use fancy_syntax::spanned::{SpannedNode, SpannedTree};
use patterns_text::error::RunError;
use patterns_text::subject::Subject;
use std::alloc::AllocError;

/// A node, and where it is drawn.
#[derive(Clone, Copy)]
pub(crate) struct Drawn<'a> {
    pub(crate) node: &'a Expr,
    pub(crate) span: Span,
    pub(crate) figure: Figure,
    /// How many groups have opened, the node itself counted.
    pub(crate) groups: usize,
    children: usize,
    /// How many nodes it has, itself counted.
    nodes: usize,
    pub(crate) size: Size,
    /// Of the child of a row that begins a line, the size of the line.
    pub(crate) line: Option<Size>,
    /// Whether it is a row of several lines.
    pub(crate) is_wrapped: bool,
    pub(crate) left: usize,
    pub(crate) top: usize,
}

impl Drawn<'_> {
    /// The height of the rail that runs through it.
    pub(crate) fn rail(&self) -> usize {
        self.top.saturating_add(self.size.rail)
    }

    pub(crate) fn right(&self) -> usize {
        self.left.saturating_add(self.size.width)
    }

    pub(crate) fn bottom(&self) -> usize {
        self.top.saturating_add(self.size.height)
    }

    pub(crate) fn middle(&self) -> usize {
        self.left.saturating_add(self.size.width / 2)
    }

    /// The text in its box, where it has one.
    pub(crate) fn text<'t>(&'t self, pattern: &'t str) -> &'t str {
        let Expr::Literal { val, .. } = self.node else {
            return self.span.text(pattern).unwrap_or("");
        };
        if val.as_str() == " " {
            "\u{2423}"
        } else {
            val.as_str()
        }
    }

    /// The size of its text, where its figure has one.
    fn text_size(&self, pattern: &str) -> Size {
        match self.figure {
            Figure::Character => Size::of_text(columns(self.text(pattern)), 2),
            Figure::Leaf => Size::of_text(columns(self.text(pattern)), 0),
            _ => Size::EMPTY,
        }
    }
}

/// The nodes of a tree in preorder.
#[derive(Drop)]
pub(crate) struct Layout<'a> {
    pub(crate) nodes: Vec<Drawn<'a>>,
    pattern: &'a str,
    groups: usize,
}

/// The nodes after the first ones, of which there are so many.
fn past<'l, 'a>(nodes: &'l [Drawn<'a>], count: usize) -> &'l [Drawn<'a>] {
    nodes.split_at(count.min(nodes.len())).1
}

/// The children of a node.
#[derive(Drop)]
pub(crate) struct Children<'l, 'a> {
    /// The nodes after those that came.
    nodes: &'l [Drawn<'a>],
    left: usize,
}

impl<'l, 'a> Iterator for Children<'l, 'a> {
    type Item = &'l Drawn<'a>;

    ghost use Rattle.std.specs.Iterator.{at_most};

    ghost remaining = { λ s. at_most s.left };

    fn next(&mut self) -> Option<&'l Drawn<'a>> {
        self.left = self.left.checked_sub(1)?;
        let child = self.nodes.first()?;
        self.nodes = past(self.nodes, child.nodes);
        Some(child)
    }
}

/// Where the next child of a node is drawn.
#[derive(Clone, Copy)]
struct Cursor {
    left: usize,
    /// In a row where the next line begins.
    top: usize,
    /// The height of the rail of a row's line.
    rail: usize,
    last: Option<Figure>,
}

impl Cursor {
    /// That of the first child.
    fn of(parent: &Drawn<'_>) -> Cursor {
        let is_parts = parent.figure == Figure::Parts;
        let role = if is_parts { GAP + ROLE } else { 0 };
        let words = if is_parts { WORD_LINE } else { 0 };
        Cursor {
            left: parent.left.saturating_add(role),
            top: parent.top.saturating_add(words),
            rail: parent.rail(),
            last: None,
        }
    }

    /// Moves to the beginning of the next line of a row, which is so large.
    fn begin_line(&mut self, row: &Drawn<'_>, line: Size) {
        let indent = if row.is_wrapped { SIDE } else { 0 };
        self.left = row.left.saturating_add(indent);
        self.rail = self.top.saturating_add(line.rail);
        self.top = self.top.saturating_add(line.height).saturating_add(RETURN);
        self.last = None;
    }

    /// Puts a child where the cursor is, and moves on.
    fn put(&mut self, parent: &Drawn<'_>, child: &mut Drawn<'_>) {
        if let Some(line) = child.line {
            self.begin_line(parent, line);
        }
        let gap = self.last.map_or(0, |last| last.gap(child.figure));
        let free = parent.size.width.saturating_sub(child.size.width);
        child.left = match parent.figure {
            Figure::Row => self.left.saturating_add(gap),
            Figure::Parts => self.left,
            _ => parent.left.saturating_add(free / 2),
        };
        child.top = match parent.figure {
            Figure::Fork | Figure::Parts => self.top,
            _ => self.rail.saturating_sub(child.size.rail),
        };
        if parent.figure == Figure::Row {
            self.left = child.right();
        } else {
            self.top = child.bottom().saturating_add(GAP);
        }
        self.last = Some(child.figure);
    }
}

impl<'a> Layout<'a> {
    /// The nodes of the tree of the pattern, each where it is drawn if the tree is drawn there. Rows that would be wider
    /// than the width have several lines.
    pub(crate) fn of(
        subject: Subject<'a>,
        words: &mut Words<'_>,
        parsed: &'a SpannedTree,
        (left, top): (usize, usize),
        width: usize,
    ) -> Result<Layout<'a>, RunError> {
        let mut layout = Layout {
            nodes: Vec::with_capacity(subject.alloc, parsed.spans.len())?,
            pattern: subject.pattern,
            groups: 0,
        };
        measure(&mut layout, words, parsed.root(), width)?;
        layout.put_root(left, top);
        layout.put_nodes();
        Ok(layout)
    }

    /// How far the picture goes to the right, and down.
    pub(crate) fn corner(&self) -> (usize, usize) {
        match self.nodes.first() {
            Some(root) => (root.right(), root.bottom()),
            None => (0, 0),
        }
    }

    /// The children of the node at the index.
    pub(crate) fn children(&self, index: usize) -> Children<'_, 'a> {
        let nodes = past(&self.nodes, index);
        Children {
            nodes: past(nodes, 1),
            left: nodes.first().map_or(0, |node| node.children),
        }
    }

    /// Whether the node is a possessive quantifier: no group, and begins where its child does.
    pub(crate) fn is_possessive(&self, index: usize) -> bool {
        let Some([node, child, ..]) = self.nodes.get(index..) else {
            return false;
        };
        matches!(node.node, Expr::AtomicGroup(_)) && node.span.start == child.span.start
    }

    /// Adds a node whose size is not known yet, and returns its index.
    fn begin(&mut self, node: SpannedNode<'a>) -> Result<usize, AllocError> {
        let index = self.nodes.len();
        if let Expr::Group(_) = node.expr() {
            self.groups = self.groups.saturating_add(1);
        }
        self.nodes.push(Drawn {
            node: node.expr(),
            span: node.span(),
            figure: Figure::of(node.expr()),
            groups: self.groups,
            children: 0,
            nodes: 1,
            size: Size::EMPTY,
            line: None,
            is_wrapped: false,
            left: 0,
            top: 0,
        })?;
        Ok(index)
    }

    /// Adds a child, which is measured, to the content of a node: to a new line if the last one is full.
    fn add(&mut self, content: &mut Content, child: usize, next: (Figure, Size)) {
        if content.is_full(next) {
            self.end_line(content);
            content.begin_line(child);
        }
        content.add(next);
    }

    /// Sets the size of the last line of a row.
    fn end_line(&mut self, content: &Content) {
        if let Some(first) = self.nodes.get_mut(content.first) {
            first.line = content.last_line();
        }
    }

    /// Sets the size of the node, which has this content.
    fn end(
        &mut self,
        index: usize,
        words: &mut Words<'_>,
        children: usize,
        content: Content,
    ) -> Result<Size, RunError> {
        self.end_line(&content);
        let len = self.nodes.len();
        let Some(drawn) = self.nodes.get_mut(index) else {
            return Ok(content.size());
        };
        let text = drawn.text_size(self.pattern);
        let on_box = columns(words.on_box(drawn.node, drawn.groups)?);
        drawn.size = drawn.figure.round(content.size().beside(0, text), on_box);
        drawn.is_wrapped = content.is_wrapped();
        drawn.children = children;
        drawn.nodes = len.saturating_sub(index);
        Ok(drawn.size)
    }

    /// Puts the whole tree.
    fn put_root(&mut self, left: usize, top: usize) {
        if let Some(root) = self.nodes.first_mut() {
            root.left = left;
            root.top = top;
        }
    }

    /// Puts the children of the node, which is put.
    fn put_children(&mut self, parent: Drawn<'a>, index: usize) {
        let mut cursor = Cursor::of(&parent);
        let mut next = index.saturating_add(1);
        for _ in 0..parent.children {
            let Some(child) = self.nodes.get_mut(next) else {
                return;
            };
            cursor.put(&parent, child);
            next = next.saturating_add(child.nodes);
        }
    }

    /// Puts all nodes below the tree's.
    fn put_nodes(&mut self) {
        for index in 0..self.nodes.len() {
            if let Some(parent) = self.nodes.get(index).copied() {
                self.put_children(parent, index);
            }
        }
    }
}

/// Adds the node and those below it, and returns its figure and its size. It may be so wide.
fn measure<'a>(
    layout: &mut Layout<'a>,
    words: &mut Words<'_>,
    node: SpannedNode<'a>,
    width: usize,
) -> Result<(Figure, Size), RunError> {
    let index = layout.begin(node)?;
    let figure = Figure::of(node.expr());
    let mut content = Content::new(figure, width, layout.nodes.len());
    let mut children: usize = 0;
    for child in node.children() {
        let at = layout.nodes.len();
        let next = measure(layout, words, child, content.limit)?;
        layout.add(&mut content, at, next);
        children = children.saturating_add(1);
    }
    Ok((figure, layout.end(index, words, children, content)?))
}
