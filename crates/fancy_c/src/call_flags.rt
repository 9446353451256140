//! The flags that a call takes: those of a pattern, and one of the calls that write a tree.
ghost use Rattle.std.specs.Prelude.{◌≡◌, true, false};
ghost use Rattle.fancy_c.specs.CallFlags.{AreFlags, AreTreeFlags};

use fancy_lex::flags::Flags;

/// A bit beside those of the flags of a pattern: the spans are left out.
pub const FLAG_WITHOUT_SPANS: u32 = 65536;

// Callers in C pass this number.
const _: () = prove!(FLAG_WITHOUT_SPANS == 65536);

/// Whether each bit that is set is that of a flag of a pattern.
pub(crate) fn are_flags(bits: u32) -> bool
    ensures known { result ≡ true → AreFlags bits }
    ensures unknown { result ≡ false → AreFlags bits → ⊥ }
{
    Flags::from_bits(bits).to_bits() == bits
}

/// The same, but the bit that leaves the spans out may be set too.
pub(crate) fn are_tree_flags(bits: u32) -> bool
    ensures known { result ≡ true → AreTreeFlags bits }
    ensures unknown { result ≡ false → AreTreeFlags bits → ⊥ }
{
    let of_pattern = Flags::from_bits(bits).to_bits();
    match of_pattern.checked_add(bits & FLAG_WITHOUT_SPANS) {
        Some(sum) => sum == bits,
        None => false,
    }
}
