//! The groups of a tree that is built from rows: their numbers, their names, and what refers to them.
ghost use Rattle.std.specs.Prelude.{◌≡◌, IfOk};

use crate::built::{RowsError, rows_below};
use crate::info_rows::{Name, TreeInfo};
use crate::node::{
    NODE_AST_NODE, NODE_BACKREF, NODE_BACKREF_AT_LEVEL, NODE_GROUP, NODE_SUBROUTINE_CALL, Node,
};
use crate::row_leaf::text_at;
use fancy_lex::flags::Flags;
use fancy_syntax::expr::Expr;
use fancy_syntax::tree::ExprTree;
use std::alloc::{AllocError, Global};
use std::collections::{BTreeMap, BTreeSet};

/// How many of the rows are groups.
fn count_groups(rows: &[Node]) -> usize {
    let mut groups = 0usize;
    for row in rows {
        if row.kind == NODE_GROUP {
            groups = groups.saturating_add(1);
        }
    }
    groups
}

/// Adds a number to those of a name.
fn add_number(
    alloc: Global,
    names: &mut BTreeMap<String, Vec<usize>>,
    name: &str,
    number: usize,
) -> Result<(), AllocError> {
    match names.get_mut(name) {
        Some(numbers) => numbers.push(number)?,
        None => {
            let mut numbers = Vec::new(alloc);
            numbers.push(number)?;
            names.insert(String::from_str(alloc, name)?, numbers)?;
        }
    }
    Ok(())
}

/// The names of the groups of the rows from an index on, with the numbers that these groups have without those before.
/// Names of other groups are left out. Rows before the index are only read if there are such groups and names, so that the
/// parts of a tree without names take no longer than the tree.
pub(crate) fn names_from(
    alloc: Global,
    nodes: &[Node],
    index: usize,
    texts: &[u8],
    names: &[Name],
) -> Result<BTreeMap<String, Vec<usize>>, RowsError> {
    let mut named = BTreeMap::new(alloc);
    let total = count_groups(rows_below(nodes, index));
    if names.is_empty() || total == 0 {
        return Ok(named);
    }
    let before = count_groups(nodes.get(..index).unwrap_or(&[]));
    for name in names {
        let number = name.group.saturating_sub(before);
        if number > 0 && number <= total {
            let text = text_at(texts, name.text, name.text_size)?;
            add_number(alloc, &mut named, text, number)?;
        }
    }
    Ok(named)
}

/// Adds what a row refers to.
fn refer(tree: &mut ExprTree, row: &Node, info: &TreeInfo) -> Result<(), AllocError>
    ensures { tree.new.expr ≡ tree.old.expr }
{
    match row.kind {
        NODE_BACKREF | NODE_BACKREF_AT_LEVEL => {
            if row.kind == NODE_BACKREF && info.numeric_capture_group_references {
                tree.numeric_capture_group_references = true;
            }
            if row.group <= tree.total_groups {
                tree.backrefs.insert(row.group)?;
            } else if tree.out_of_range_backref.is_none() {
                tree.out_of_range_backref = Some(row.group);
            }
        }
        NODE_SUBROUTINE_CALL => {
            tree.contains_subroutines = true;
            if info.numeric_capture_group_references && (row.group > 0 || info.self_recursive) {
                tree.numeric_capture_group_references = true;
                tree.self_recursive = tree.self_recursive || row.group == 0;
            }
        }
        NODE_AST_NODE => tree.contains_subroutines = true,
        _ => {}
    }
    Ok(())
}

/// The tree of rows, with the group information that the pattern for it has under the flags, if its groups have these names
/// and references are written as those of a pattern with this info.
pub(crate) fn with_groups(
    alloc: Global,
    expr: Expr,
    rows: &[Node],
    named_groups: BTreeMap<String, Vec<usize>>,
    info: &TreeInfo,
    flags: u32,
) -> Result<ExprTree, AllocError>
    ensures { IfOk result (λ t. t.expr ≡ expr) }
{
    let ignored = Flags::from_bits(flags).ignore_numbered_groups && !named_groups.is_empty();
    let mut tree = ExprTree {
        expr,
        backrefs: BTreeSet::new(alloc),
        named_groups,
        numeric_capture_group_references: false,
        contains_subroutines: false,
        self_recursive: false,
        total_groups: count_groups(rows),
        out_of_range_backref: None,
        numbered_groups_ignored: ignored,
    };
    for row in rows {
        refer(&mut tree, row, info)?;
    }
    Ok(tree)
}
