//! A pattern's group information, described.
use fancy_syntax::tree::ExprTree;
use std::io;
use std::io::Write;

/// Writes the sentence on the number of groups.
fn write_total(out: &mut Vec<u8>, total: usize) -> io::Result<()> {
    match total {
        0 => writeln!(out, "No numbered groups."),
        1 => writeln!(out, "1 numbered group."),
        _ => writeln!(out, "{total} numbered groups."),
    }
}

/// Writes a number of a list, of which so many are written.
fn write_number(out: &mut Vec<u8>, written: usize, number: usize) -> io::Result<()> {
    let comma = if written > 0 { "," } else { "" };
    write!(out, "{comma} {number}")
}

/// Writes the sentence on the groups of a name.
fn write_name(out: &mut Vec<u8>, name: &str, numbers: &[usize]) -> io::Result<()> {
    write!(out, "Name {name:?}: group")?;
    for (i, number) in numbers.iter().enumerate() {
        write_number(out, i, *number)?;
    }
    writeln!(out, ".")
}

/// Writes a sentence for each name.
fn write_names(out: &mut Vec<u8>, tree: &ExprTree) -> io::Result<()> {
    for (name, numbers) in &tree.named_groups {
        write_name(out, name.as_str(), numbers)?;
    }
    Ok(())
}

/// Writes the sentence on the groups that back references refer to.
fn write_referred(out: &mut Vec<u8>, tree: &ExprTree) -> io::Result<()> {
    write!(out, "Back references to group")?;
    for (i, number) in tree.backrefs.iter().enumerate() {
        write_number(out, i, *number)?;
    }
    writeln!(out, ".")
}

/// Writes the sentences on back references.
fn write_references(out: &mut Vec<u8>, tree: &ExprTree) -> io::Result<()> {
    if !tree.backrefs.is_empty() {
        write_referred(out, tree)?;
    }
    if let Some(number) = tree.out_of_range_backref {
        writeln!(
            out,
            "Back reference to group {number}, which does not exist."
        )?;
    }
    if tree.numeric_capture_group_references {
        writeln!(out, "Has references or calls by number.")?;
    }
    Ok(())
}

/// Writes what is known of the groups and references, a sentence a line.
pub fn write_group_info(out: &mut Vec<u8>, tree: &ExprTree) -> io::Result<()> {
    write_total(out, tree.total_groups)?;
    if tree.numbered_groups_ignored {
        writeln!(out, "Groups without a name are not numbered.")?;
    }
    write_names(out, tree)?;
    write_references(out, tree)?;
    if tree.contains_subroutines {
        writeln!(out, "Has subroutine calls.")?;
    }
    if tree.self_recursive {
        writeln!(out, "The pattern calls itself.")?;
    }
    Ok(())
}
