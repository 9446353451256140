//! The characters of a class as ranges.
ghost use Rattle.std.specs.Prelude.{◌≡◌, ◌≢◌, ◌<◌, ◌≤◌, ◌⊎◌, List, chars, length, map, IsUtf8, IsCharBoundary};
ghost use Rattle.fancy_lex.specs.Flags.{flags_of};
ghost use Rattle.regex_class.specs.Ranges.{Range};
ghost use Rattle.regex_syntax.specs.declared.error.Error as engine;
ghost use Rattle.class_meaning.specs.declared.character_set.CharacterSet as characters;
ghost use Rattle.class_meaning.specs.declared.class_text.ClassMeaning.TheVariants as means;
ghost use Rattle.fancy_c.specs.Buffer.{put_at, Fills};
ghost use Rattle.fancy_c.specs.CallFlags.{AreFlags};
ghost use Rattle.fancy_c.specs.CallResult.{IsNoUtf8};
ghost use Rattle.fancy_c.specs.ClassRanges as spec;
ghost use Rattle.fancy_c.specs.ClassRanges.{config_of, AreRangesOf, IsRefused, IsPattern};

use crate::call_flags::are_flags;
use crate::call_result::{
    CallResult, ERROR_INVALID_CLASS, ERROR_NONE, STATUS_BUFFER_TOO_SHORT, STATUS_NOT_ONE_CHARACTER,
    STATUS_NOT_UTF8, STATUS_OK, STATUS_OUT_OF_MEMORY, STATUS_REFUSED, STATUS_UNKNOWN_FLAG,
};
use crate::utf8::utf8_of;
use class_meaning::{ClassMeaning, characters_of_class};
use fancy_lex::flags::Flags;
use regex_class::ClassRange;
use std::alloc::{AllocError, Global};

/// Characters whose codes follow one another.
#[repr(C)]
#[derive(Clone, Copy)]
pub struct CharacterRange {
    /// The code of the first.
    pub first: u32,
    /// The code of the last.
    pub last: u32,
}

/// The row of a range.
fn row(range: ClassRange) -> CharacterRange
    ensures { result ≡ spec.row range }
{
    CharacterRange {
        first: range.0,
        last: range.1,
    }
}

/// Writes the rows at the front of the buffer.
fn put_rows(rows: &mut [CharacterRange], ranges: &[ClassRange])
    requires { length ranges.now ≤ length rows.old }
    ensures { rows.new ≡ put_at rows.old 0 (map spec.row ranges.now) }
{
    for (i, range) in ranges.iter().enumerate() {
        rows[i] = row(*range);
    }
}

/// Sets the count, and writes the rows at the front of the buffer if all of them fit.
fn write_rows(rows: &mut [CharacterRange], count: &mut usize, ranges: &[ClassRange]) -> CallResult
    ensures read { result.status ≡ STATUS_OK → Fills rows.old rows.new (map spec.row ranges.now) }
    ensures short { result.status ≡ STATUS_BUFFER_TOO_SHORT → length rows.old < count.new }
    ensures count { count.new ≡ length ranges.now }
    ensures kept { result.status ≢ STATUS_OK → rows.new ≡ rows.old }
    ensures status { (result.status ≡ STATUS_OK) ⊎ (result.status ≡ STATUS_BUFFER_TOO_SHORT) }
    ensures no_kind { result.kind ≡ ERROR_NONE }
    ensures no_position { result.position ≡ 0 }
    ensures no_size { result.size ≡ 0 }
{
    *count = ranges.len();
    if rows.len() < ranges.len() {
        return CallResult::of_status(STATUS_BUFFER_TOO_SHORT);
    }
    put_rows(rows, ranges);
    CallResult::of_status(STATUS_OK)
}

/// Writes the ranges of the characters, or says why there are none.
pub(crate) fn write_meaning(
    rows: &mut [CharacterRange],
    count: &mut usize,
    meaning: &ClassMeaning,
) -> CallResult
    ensures read { result.status ≡ STATUS_OK → (set : characters.CharacterSet) × (meaning.now ≡ means.Characters set)
        × (count.new ≡ length set.class.ranges.items) × Fills rows.old rows.new (map spec.row set.class.ranges.items) }
    ensures short { result.status ≡ STATUS_BUFFER_TOO_SHORT → (set : characters.CharacterSet)
        × (meaning.now ≡ means.Characters set) × (count.new ≡ length set.class.ranges.items)
        × (length rows.old < count.new) }
    ensures refused { result.status ≡ STATUS_REFUSED → (e : engine.Error) × (meaning.now ≡ means.Refused e)
        × (result.position ≡ e.span.start) }
    ensures several { result.status ≡ STATUS_NOT_ONE_CHARACTER → meaning.now ≡ means.NotOneCharacter }
    ensures kept { result.status ≢ STATUS_OK → rows.new ≡ rows.old }
    ensures count_kept { result.status ≢ STATUS_OK → result.status ≢ STATUS_BUFFER_TOO_SHORT → count.new ≡ count.old }
    ensures status { ((result.status ≡ STATUS_OK) ⊎ (result.status ≡ STATUS_BUFFER_TOO_SHORT))
        ⊎ ((result.status ≡ STATUS_REFUSED) ⊎ (result.status ≡ STATUS_NOT_ONE_CHARACTER)) }
    ensures kind { result.status ≡ STATUS_REFUSED → result.kind ≡ ERROR_INVALID_CLASS }
    ensures no_kind { result.status ≢ STATUS_REFUSED → result.kind ≡ ERROR_NONE }
    ensures no_position { result.status ≢ STATUS_REFUSED → result.position ≡ 0 }
    ensures no_size { result.size ≡ 0 }
{
    match meaning {
        ClassMeaning::Characters(set) => write_rows(rows, count, set.ranges()),
        ClassMeaning::Refused(error) => CallResult {
            status: STATUS_REFUSED,
            kind: ERROR_INVALID_CLASS,
            position: error.span.start,
            size: 0,
        },
        ClassMeaning::NotOneCharacter => CallResult::of_status(STATUS_NOT_ONE_CHARACTER),
    }
}

/// Sets `count` to the number of ranges that the characters of a class make, if it returns `STATUS_OK` or
/// `STATUS_BUFFER_TOO_SHORT`. The class is the text of a Delegate. The flags for case and for Unicode matter, and no others.
/// If all ranges fit, returns `STATUS_OK`, and they are at the front of `ranges`: in ascending order, and with a gap between
/// any two. If they do not fit, returns `STATUS_BUFFER_TOO_SHORT`. Returns `STATUS_REFUSED`, with the position and
/// `ERROR_INVALID_CLASS`, if the matching engine refuses the class; `STATUS_NOT_ONE_CHARACTER` if the engine does not read
/// the text as a class or a character; `STATUS_NOT_UTF8` if the text is not UTF-8, with the length of the valid UTF-8
/// prefix; `STATUS_UNKNOWN_FLAG` if a bit is set that is no flag of a pattern, whatever the text is; or
/// `STATUS_OUT_OF_MEMORY`. Unless it returns `STATUS_OK`, `ranges` is not written.
#[unsafe(no_mangle)]
pub extern "C" fn fancy_class_ranges_nonnull(
    alloc: Global,
    class: &[u8],
    flags: u32,
    ranges: &mut [CharacterRange],
    count: &mut usize,
) -> CallResult
    ensures read { result.status ≡ STATUS_OK → IsUtf8 class.now × (rs : List Range)
        × AreRangesOf (config_of (flags_of flags)) (chars class.now) rs × (count.new ≡ length rs)
        × Fills ranges.old ranges.new (map spec.row rs) }
    ensures short { result.status ≡ STATUS_BUFFER_TOO_SHORT → IsUtf8 class.now × (rs : List Range)
        × AreRangesOf (config_of (flags_of flags)) (chars class.now) rs × (count.new ≡ length rs)
        × (length ranges.old < count.new) }
    ensures refused { result.status ≡ STATUS_REFUSED → IsUtf8 class.now × (result.kind ≡ ERROR_INVALID_CLASS)
        × IsRefused (config_of (flags_of flags)) (chars class.now) × IsCharBoundary class.now result.position }
    ensures several { result.status ≡ STATUS_NOT_ONE_CHARACTER → IsUtf8 class.now
        × IsPattern (config_of (flags_of flags)) (chars class.now) }
    ensures no_utf8 { result.status ≡ STATUS_NOT_UTF8 → IsNoUtf8 class.now result.position }
    ensures kept { result.status ≢ STATUS_OK → ranges.new ≡ ranges.old }
    ensures count_kept { result.status ≢ STATUS_OK → result.status ≢ STATUS_BUFFER_TOO_SHORT → count.new ≡ count.old }
    ensures known_flags { AreFlags flags → result.status ≢ STATUS_UNKNOWN_FLAG }
    ensures unknown_flag { (AreFlags flags → ⊥) → result.status ≡ STATUS_UNKNOWN_FLAG }
    ensures status { (result.status ≤ STATUS_BUFFER_TOO_SHORT) ⊎ ((result.status ≡ STATUS_UNKNOWN_FLAG)
        ⊎ (result.status ≡ STATUS_NOT_ONE_CHARACTER)) }
    ensures no_kind { result.status ≢ STATUS_REFUSED → result.kind ≡ ERROR_NONE }
    ensures no_position { result.status ≢ STATUS_REFUSED → result.status ≢ STATUS_NOT_UTF8 → result.position ≡ 0 }
    ensures no_size { result.size ≡ 0 }
{
    if !are_flags(flags) {
        return CallResult::of_status(STATUS_UNKNOWN_FLAG);
    }
    let class = match utf8_of(class) {
        Ok(class) => class,
        Err(refusal) => return refusal,
    };
    let flags = Flags::from_bits(flags);
    match characters_of_class(alloc, class, flags.casei, flags.unicode) {
        Ok(meaning) => write_meaning(ranges, count, &meaning),
        Err(AllocError) => CallResult::of_status(STATUS_OUT_OF_MEMORY),
    }
}
