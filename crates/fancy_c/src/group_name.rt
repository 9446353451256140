//! The name of a group, by its number.
ghost use Rattle.std.specs.Prelude.{◌≡◌, ◌≢◌, ◌<◌, ◌≤◌, ℕ, length};
ghost use Rattle.fancy_c.specs.InfoRows.{name_at};

use crate::info_rows::Name;

/// Returns the index of the first of the names that is one of the group with this number; the number of names if there is
/// none.
#[unsafe(no_mangle)]
pub extern "C" fn fancy_group_name_nonnull(names: &[Name], group: usize) -> usize
    ensures within { result ≤ length names.now }
    ensures named { result < length names.now → (name_at names.now result).group ≡ group }
    ensures first { (i : ℕ) → i < result → (name_at names.now i).group ≢ group }
{
    for (i, name) in names.iter().enumerate() {
        if name.group == group {
            return i;
        }
    }
    names.len()
}
