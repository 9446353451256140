//! The styles that patterns are formatted in.

/// How a formatted pattern is laid out.
#[derive(Clone, Copy, PartialEq, Eq, Debug)]
pub enum Style {
    /// As it is: its lines stay, with their indentation.
    Kept,
    /// A line that has up to so many characters stays. Others are laid out over several lines, under `FLAG_IGNORE_SPACE`: what
    /// does not fit is broken into its branches and groups. The pattern then begins with `(?x)` unless the flags ignore
    /// whitespace.
    Verbose { width: usize },
    /// In one line, without ignored whitespace: a comment through the end of its line becomes `(?#..)`, and `(?x)` at the
    /// beginning goes. If a comment would be about something else so, or cannot be in parentheses, all stay with their lines.
    Compact,
}
