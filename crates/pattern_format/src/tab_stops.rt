//! Columns of a text, in which a TAB goes on to the next stop.

/// How many columns apart the stops are.
const TAB_WIDTH: usize = 8;

/// The column at the end of the text, which begins in this one.
pub(crate) fn column_after(column: usize, text: &str) -> usize {
    let mut column = column;
    for c in text.chars() {
        column = match c {
            '\n' => 0,
            '\t' => (column / TAB_WIDTH)
                .saturating_add(1)
                .saturating_mul(TAB_WIDTH),
            _ => column.saturating_add(1),
        };
    }
    column
}
