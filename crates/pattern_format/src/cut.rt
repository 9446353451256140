//! A pattern cut into its tokens.
use crate::columns::set_columns;
use crate::flag_groups::FlagGroups;
use crate::nodes::{Node, nodes_of};
use crate::token::{Token, TokenKind, is_blank, is_layout};
use fancy_lex::flags::Flags;
use fancy_syntax::spanned::SpannedTree;
use fancy_syntax::trivium::{Trivium, TriviumKind};
use std::alloc::{AllocError, Global};

/// Whether a quantifier may begin with the character.
fn is_quantifier_start(c: char) -> bool {
    matches!(c, '*' | '+' | '?' | '{')
}

/// The text before the rest of it.
fn before<'a>(text: &'a str, rest: &str) -> &'a str {
    text.strip_suffix(rest).unwrap_or(text)
}

/// The first token of a text that has no leaf, and what it is. The opening of a group goes on to the end of the text.
fn first_token(text: &str) -> (&str, TokenKind) {
    if text.starts_with(is_blank) {
        let rest = text.trim_start_matches(is_blank);
        return (before(text, rest), TokenKind::Blank);
    }
    if text.starts_with(is_quantifier_start) {
        let rest = text.trim_start_matches(|c: char| !matches!(c, '(' | ')' | '|'));
        let quantifier = before(text, rest).trim_end_matches(is_blank);
        let kind = TokenKind::Quantifier {
            keeps_counts: false,
        };
        return (quantifier, kind);
    }
    let rest = text.trim_start_matches(|c: char| matches!(c, ')' | '|'));
    if rest.len() < text.len() {
        return (before(text, rest), TokenKind::Other);
    }
    (text.trim_end_matches(is_blank), TokenKind::Other)
}

/// Whether the text is of blanks and of comments through the ends of their lines.
fn is_of_line_comments(text: &str) -> bool {
    for line in text.split('\n') {
        let comment = line.trim_start_matches(is_blank);
        if !comment.is_empty() && !comment.starts_with('#') {
            return false;
        }
    }
    text.contains('#')
}

/// Whether the contents of a group have several lines without its parentheses.
fn has_own_lines(contents: &[Token<'_>]) -> bool {
    let mut lines = 0usize;
    let mut is_first_line = true;
    let mut is_empty_line = true;
    for token in contents {
        is_empty_line = is_empty_line && is_layout(*token);
        if is_first_line && !is_empty_line {
            return false;
        }
        if token.text.contains('\n') {
            is_first_line = false;
            lines = lines.saturating_add(!is_empty_line as usize);
            is_empty_line = true;
        }
    }
    is_empty_line && lines > 1
}

/// What inline flags are, with the flags before and after.
fn kind_of_flags(before: Flags, after: Flags) -> TokenKind {
    if before == after {
        TokenKind::Other
    } else {
        TokenKind::Flags { before, after }
    }
}

/// The tokens of a pattern up to a position.
#[derive(Drop)]
struct Cutter<'p> {
    pattern: &'p str,
    /// Whether its lines stay.
    keeps_lines: bool,
    position: usize,
    tokens: Vec<Token<'p>>,
    groups: FlagGroups,
    /// The last token of a node that is not blank.
    last: &'p str,
    /// How many tokens there are up to the last one in which a line ends.
    lines_end: usize,
}

impl<'p> Cutter<'p> {
    /// The text from the position on.
    fn after(&self) -> &'p str {
        self.pattern.get(self.position..).unwrap_or("")
    }

    /// The text up to the end, which is passed.
    fn pass(&mut self, end: usize) -> &'p str {
        let Some(text) = self.pattern.get(self.position..end) else {
            return "";
        };
        self.position = end;
        text
    }

    /// Notes whether a line ends in the text of the last token.
    fn pass_line_end(&mut self, text: &str) {
        if text.contains('\n') {
            self.lines_end = self.tokens.len();
        }
    }

    /// Adds a token of a node, unless its text is empty.
    fn push(&mut self, text: &'p str, kind: TokenKind) -> Result<(), AllocError> {
        if text.is_empty() {
            return Ok(());
        }
        if !matches!(kind, TokenKind::Blank) {
            self.last = text;
        }
        self.tokens.push(Token {
            text,
            kind,
            is_needless: false,
            column: None,
        })?;
        self.pass_line_end(text);
        Ok(())
    }

    /// Adds the blanks and the comments through the ends of their lines that a text consists of.
    fn push_comments(&mut self, text: &'p str) -> Result<(), AllocError> {
        let mut rest = text;
        for _ in 0..text.len() {
            let comments = rest.trim_start_matches(is_blank);
            self.push(before(rest, comments), TokenKind::Blank)?;
            let comment = comments.split_inclusive('\n').next().unwrap_or("");
            self.push(comment, TokenKind::LineComment)?;
            rest = comments.get(comment.len()..).unwrap_or("");
        }
        Ok(())
    }

    /// Adds the tokens of a text that was passed, in which neither leaves nor other trivia are. With a comment they stay one,
    /// except after a parenthesis.
    fn push_between(&mut self, text: &'p str) -> Result<(), AllocError> {
        if let Some(inside) = text.strip_prefix('(')
            && is_of_line_comments(inside)
        {
            self.push(before(text, inside), TokenKind::Other)?;
            return self.push_comments(inside);
        }
        if text.contains('#') {
            return self.push(text, TokenKind::Other);
        }
        let mut rest = text;
        for _ in 0..text.len() {
            let (token, kind) = first_token(rest);
            self.push(token, kind)?;
            rest = rest.get(token.len()..).unwrap_or("");
        }
        Ok(())
    }

    /// Adds the tokens up to the end, where neither leaves nor trivia are.
    fn push_up_to(&mut self, end: usize) -> Result<(), AllocError> {
        let text = self.pass(end);
        self.push_between(text)
    }

    /// Adds the tokens up to the node, and its own if it is a leaf.
    fn push_node(&mut self, node: Node) -> Result<(), AllocError> {
        self.push_up_to(node.span.start)?;
        if node.is_leaf {
            let text = self.pass(node.span.end);
            let ignores_case = node.ignores_case;
            self.push(text, TokenKind::Leaf { ignores_case })?;
        }
        Ok(())
    }

    /// Adds the tokens up to the position, at which some of the nodes begin, and returns the others.
    fn push_nodes<'a>(&mut self, nodes: &'a [Node], end: usize) -> Result<&'a [Node], AllocError> {
        let mut passed = 0usize;
        for node in nodes {
            if node.span.start > end {
                break;
            }
            self.push_node(*node)?;
            passed = passed.saturating_add(1);
        }
        self.push_up_to(end)?;
        Ok(nodes.get(passed..).unwrap_or(&[]))
    }

    /// Whether what was passed keeps the last token apart from the text after it, as in `\1(?#)2`, `((?:(?#c)a))` and
    /// `(?((?:1))a)`.
    fn separates(&self) -> bool {
        let after = self.after();
        let has_digits = self.last.starts_with('\\')
            && self.last.ends_with(|c: char| c.is_ascii_digit())
            && after.starts_with(|c: char| c.is_ascii_digit());
        let next = after.trim_start_matches(is_blank);
        let has_comment = next.starts_with('#')
            || next.starts_with("(?#") && !next.starts_with("(?#)");
        has_digits || self.last.ends_with("?(") || self.last.ends_with('(') && has_comment
    }

    /// Whether a comment or inline flags that were passed can be left out if they change nothing. Before a quantifier
    /// they may be what is quantified.
    fn can_go(&self) -> bool {
        !self.is_before_quantifier() && !self.separates()
    }

    /// Whether a quantifier is after what was passed.
    fn is_before_quantifier(&self) -> bool {
        let next = self.after().trim_start_matches(is_blank);
        next.starts_with(is_quantifier_start)
    }

    /// Adds inline flags to the groups around them, unless they can be left out. Returns whether they can.
    fn add_flags(&mut self, text: &str, is_change: bool) -> bool {
        let is_needless = !is_change && !text.contains('#') && self.can_go();
        if !is_needless {
            self.groups.fix_all();
        }
        is_needless
    }

    /// Whether the innermost group is over several lines, and stays for that: it is repeated, or around a branch with lines of its
    /// own that stay.
    fn stays_over_lines(&self) -> bool {
        let Some(opening) = self.groups.opening() else {
            return false;
        };
        let contents = self.tokens.get(opening.saturating_add(1)..).unwrap_or(&[]);
        let is_branch = self.keeps_lines && self.groups.is_branch();
        opening < self.lines_end
            && (self.is_before_quantifier() || is_branch && has_own_lines(contents))
    }

    /// Closes a group, before these nodes. Returns whether it can be left out.
    fn close(&mut self, nodes: &[Node]) -> bool {
        let is_fixed = self.separates() || self.stays_over_lines();
        let Some(index) = self.groups.close(nodes.len(), is_fixed) else {
            return false;
        };
        if let Some(opening) = self.tokens.get_mut(index) {
            opening.is_needless = true;
        }
        true
    }

    /// Opens a group, before these nodes.
    fn open(&mut self, text: &str, sets_flags: bool, nodes: &[Node]) -> Result<(), AllocError> {
        let is_fixed = sets_flags || text.contains('#') || self.separates();
        self.groups.open(self.tokens.len(), is_fixed, nodes)
    }

    /// Adds a trivium, before these nodes. What leaves nothing in the tree has the tokens that it would have otherwise.
    fn push_trivium(&mut self, trivium: Trivium, nodes: &[Node]) -> Result<(), AllocError> {
        let text = self.pass(trivium.span.end);
        let (kind, is_needless) = match trivium.kind {
            TriviumKind::Comment => { (TokenKind::Comment, text == "(?#)" && self.can_go()) },
            TriviumKind::LineComment => (TokenKind::LineComment, false),
            TriviumKind::InlineFlags { before, after } => {
                let is_needless = self.add_flags(text, before != after);
                (kind_of_flags(before, after), is_needless)
            }
            TriviumKind::Opening { around, inside } => {
                self.open(text, around != inside, nodes)?;
                let kind = TokenKind::Flags {
                    before: around,
                    after: inside,
                };
                (kind, false)
            }
            TriviumKind::Closing => (TokenKind::Other, self.close(nodes)),
            TriviumKind::Dropped => return self.push_between(text),
            TriviumKind::InnerComment | TriviumKind::InnerLineComment => return Ok(()),
        };
        self.tokens.push(Token {
            text,
            kind,
            is_needless,
            column: None,
        })?;
        self.pass_line_end(text);
        Ok(())
    }

    /// Adds the tokens of a tree with these nodes and trivia.
    fn push_tree(&mut self, nodes: &[Node], trivia: &[Trivium]) -> Result<(), AllocError> {
        let mut rest = nodes;
        for trivium in trivia {
            // A comment in a token is in the text of the token.
            if trivium.kind.is_inner() {
                continue;
            }
            rest = self.push_nodes(rest, trivium.span.start)?;
            self.push_trivium(*trivium, rest)?;
        }
        self.push_nodes(rest, self.pattern.len())?;
        Ok(())
    }
}

/// The tokens of a pattern, whose lines stay or not, in the order of the text.
pub(crate) fn tokens_of<'p>(
    alloc: Global,
    pattern: &'p str,
    parsed: &SpannedTree,
    keeps_lines: bool,
) -> Result<Vec<Token<'p>>, AllocError> {
    let nodes = nodes_of(alloc, parsed)?;
    let mut cutter = Cutter {
        pattern,
        keeps_lines,
        position: 0,
        tokens: Vec::new(alloc),
        groups: FlagGroups::new(alloc),
        last: "",
        lines_end: 0,
    };
    cutter.push_tree(&nodes, &parsed.trivia)?;
    let mut tokens = cutter.tokens;
    set_columns(alloc, &mut tokens)?;
    Ok(tokens)
}
