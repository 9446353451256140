//! The sizes of a tree and its group information, as a caller in C gets them.
ghost use Rattle.std.specs.Prelude.{◌≡◌, ◌+◌, ◌≤◌, length, map};
ghost use Rattle.fancy_grammar.specs.Groups.{entry_of};
ghost use Rattle.fancy_syntax.specs.Capacity.{in_word};
ghost use Rattle.fancy_c.specs.Buffer.{put_at};
ghost use Rattle.fancy_c.specs.InfoRows.{rows_of_name, name_rows, name_texts};

use crate::rows::{RowCounts, put_text};
use std::collections::{BTreeMap, BTreeSet};

/// The sizes of a tree, and the group information of its pattern.
#[repr(C)]
#[derive(Clone, Copy)]
pub struct TreeInfo {
    /// The number of nodes.
    pub node_count: usize,
    /// The size in bytes of the texts of the nodes and, after them, of the names of groups.
    pub texts_size: usize,
    /// The number of names, each counted once for each of its groups.
    pub name_count: usize,
    /// The number of different group numbers of back references, up to `total_groups`; 0 too.
    pub backref_count: usize,
    /// The number of groups that have a number.
    pub total_groups: usize,
    /// The number of the first back reference above `total_groups`, which is no error.
    pub out_of_range_backref: usize,
    /// Whether there is one.
    pub has_out_of_range_backref: bool,
    /// Whether the pattern has a back reference in digits, or a subroutine call by number.
    pub numeric_capture_group_references: bool,
    /// Whether the pattern has a subroutine call.
    pub contains_subroutines: bool,
    /// Whether the pattern calls itself by the number 0.
    pub self_recursive: bool,
    /// Whether groups without a name have no number.
    pub numbered_groups_ignored: bool,
}

/// A name of a group, with its number. A name that several groups have is listed once for each.
#[repr(C)]
#[derive(Clone, Copy)]
pub struct Name {
    /// Where the name begins in the buffer of texts, as a byte offset.
    pub text: usize,
    /// The size of the name in bytes.
    pub text_size: usize,
    /// The number of the group.
    pub group: usize,
}

/// The counts after the names, each `usize::MAX` if it is above that.
pub(crate) fn count_names(groups: &BTreeMap<String, Vec<usize>>, before: RowCounts) -> RowCounts
    ensures rows { result.rows ≡ in_word (before.rows + length (name_rows 0 (map entry_of groups.now.entries))) }
    ensures text { result.text ≡ in_word (before.text + length (name_texts (map entry_of groups.now.entries))) }
{
    let mut after = before;
    for (name, numbers) in groups.iter() {
        after = RowCounts {
            rows: after.rows.saturating_add(numbers.len()),
            text: after.text.saturating_add(name.len()),
        };
    }
    after
}

/// Writes the rows of a name that begins at a byte, from an index on, and returns the index after them.
fn put_numbers(
    names: &mut [Name],
    first: usize,
    numbers: &[usize],
    text: usize,
    size: usize,
) -> usize
    requires { first + length numbers.now ≤ length names.old }
    ensures after { result ≡ first + length numbers.now }
    ensures put { names.new ≡ put_at names.old first (rows_of_name text size numbers.now) }
{
    for (i, number) in numbers.iter().enumerate() {
        names[first + i] = Name {
            text,
            text_size: size,
            group: *number,
        };
    }
    first + numbers.len()
}

/// Writes the rows of the names, and the names, after what is counted.
pub(crate) fn put_names(
    names: &mut [Name],
    bytes: &mut [u8],
    groups: &BTreeMap<String, Vec<usize>>,
    before: RowCounts,
)
    requires names_capacity { before.rows + length (name_rows 0 (map entry_of groups.now.entries)) ≤ length names.old }
    requires bytes_capacity { before.text + length (name_texts (map entry_of groups.now.entries)) ≤ length bytes.old }
    ensures names { names.new ≡ put_at names.old before.rows (name_rows before.text (map entry_of groups.now.entries)) }
    ensures bytes { bytes.new ≡ put_at bytes.old before.text (name_texts (map entry_of groups.now.entries)) }
{
    let mut after = before;
    for (name, numbers) in groups.iter() {
        let text = put_text(bytes, after.text, name.as_bytes());
        let rows = put_numbers(names, after.rows, numbers, after.text, name.len());
        after = RowCounts { rows, text };
    }
}

/// Writes the numbers at the front of the buffer, in ascending order.
pub(crate) fn put_backrefs(buffer: &mut [usize], numbers: &BTreeSet<usize>)
    requires { length numbers.now.keys ≤ length buffer.old }
    ensures { buffer.new ≡ put_at buffer.old 0 numbers.now.keys }
{
    let mut i = 0;
    for number in numbers.iter() {
        buffer[i] = *number;
        i += 1;
    }
}
