//! What is known of the matches of a pattern and of its nodes.
ghost use Rattle.std.specs.Prelude.{◌≡◌, ◌≢◌, ◌<◌, ◌≤◌, ◌+◌, ◌*◌, ◌⊎◌, List, Option, IfOk, encode_utf8_all, length, map, string_bytes, true, false};
ghost use Rattle.fancy_lex.specs.Flags.{flags_of};
ghost use Rattle.fancy_grammar.specs.Tree.{Tree};
ghost use Rattle.fancy_syntax.specs.View.{view};
ghost use Rattle.pattern_facts.specs.declared.node_facts.Facts.{Facts};
ghost use Rattle.fancy_c.specs.Buffer.{put_at, Fills};
ghost use Rattle.fancy_c.specs.CallFlags.{AreFlags};
ghost use Rattle.fancy_c.specs.Calls.{RefusesPattern, TakesOnly};
ghost use Rattle.fancy_c.specs.FactRows as spec;
ghost use Rattle.fancy_c.specs.FactRows.{AreFactsOf, AreFactsOfBytes};

use crate::buffer::fill;
use crate::call_flags::are_flags;
use crate::call_result::{
    CallResult, ERROR_NONE, STATUS_BUFFER_TOO_SHORT, STATUS_OK, STATUS_OUT_OF_MEMORY,
    STATUS_UNKNOWN_FLAG,
};
use crate::read::read;
use fancy_lex::flags::Flags;
use fancy_syntax::expr::Expr;
use pattern_facts::{Facts, MaxLength, Prefix, facts, is_easy, prefix_beside};
use std::alloc::{AllocError, Global};

/// What is known of the matches of a node. Where nothing is known, all is 0 or false.
#[repr(C)]
#[derive(Clone, Copy)]
pub struct NodeFacts {
    /// At least so many characters, `usize::MAX` for more too.
    pub min_length: usize,
    /// At most so many characters, `usize::MAX` if there is no limit.
    pub max_length: usize,
    /// At least so many bytes of UTF-8, `usize::MAX` for more too.
    pub min_bytes: usize,
    /// At most so many bytes of UTF-8, `usize::MAX` if there is no limit.
    pub max_bytes: usize,
    /// Whether it is known what the node matches.
    pub is_known: bool,
    /// Whether a match may be empty.
    pub can_be_empty: bool,
    /// Whether all matches have the same number of characters.
    pub is_constant_length: bool,
    /// Whether an assertion says that each match begins at the start of the text.
    pub is_anchored_at_start: bool,
    /// Whether an assertion says that each match ends at the end of the text.
    pub is_anchored_at_end: bool,
}

/// What is known of the matches of a whole pattern.
#[repr(C)]
#[derive(Clone, Copy)]
pub struct PatternFacts {
    /// The number of nodes.
    pub node_count: usize,
    /// The size in bytes of the text that each match begins with; 0 if it is not known.
    pub prefix_size: usize,
    /// Whether that text is known.
    pub has_prefix: bool,
    /// Whether each match is that text, and no more.
    pub is_prefix_whole: bool,
    /// Whether fancy-regex can hand the pattern on to an engine that never backtracks.
    pub is_easy: bool,
}

/// The limit as a number.
fn limit(max: MaxLength) -> usize
    ensures { result ≡ spec.limit max }
{
    match max {
        MaxLength::AtMost(most) => most,
        MaxLength::Unlimited => usize::MAX,
    }
}

/// The row of a node of which nothing is known.
const UNKNOWN: NodeFacts = NodeFacts {
    min_length: 0,
    max_length: 0,
    min_bytes: 0,
    max_bytes: 0,
    is_known: false,
    can_be_empty: false,
    is_constant_length: false,
    is_anchored_at_start: false,
    is_anchored_at_end: false,
};

/// The row of a node.
fn row(facts: Option<Facts>) -> NodeFacts
    ensures { result ≡ spec.row facts }
{
    let Some(facts) = facts else {
        return UNKNOWN;
    };
    NodeFacts {
        min_length: facts.characters.min,
        max_length: limit(facts.characters.max),
        min_bytes: facts.bytes.min,
        max_bytes: limit(facts.bytes.max),
        is_known: true,
        can_be_empty: facts.characters.can_be_empty(),
        is_constant_length: facts.characters.is_constant(),
        is_anchored_at_start: facts.is_anchored_at_start,
        is_anchored_at_end: facts.is_anchored_at_end,
    }
}

/// Writes the rows at the front of the buffer.
fn put_rows(rows: &mut [NodeFacts], facts: &[Option<Facts>])
    requires { length facts.now ≤ length rows.old }
    ensures { rows.new ≡ put_at rows.old 0 (map spec.row facts.now) }
{
    for (i, known) in facts.iter().enumerate() {
        rows[i] = row(*known);
    }
}

/// What is known of a tree: of each node, the text that each match begins with, and the rest.
#[derive(Drop)]
struct Known {
    rows: Vec<Option<Facts>>,
    prefix: String,
    whole: PatternFacts,
}

/// The characters as a text.
fn text_of(alloc: Global, characters: &[char]) -> Result<String, AllocError>
    ensures { IfOk result (λ text. string_bytes text ≡ encode_utf8_all characters.now) }
{
    let mut text = String::new(alloc);
    for c in characters {
        text.push(*c)?;
    }
    Ok(text)
}

/// The text that matches begin with; empty if it is not known.
fn prefix_text(alloc: Global, prefix: &Option<Prefix>) -> Result<String, AllocError>
    ensures { IfOk result (λ text. string_bytes text ≡ spec.prefix_text prefix.now) }
{
    match prefix {
        Some(prefix) => text_of(alloc, &prefix.characters),
        None => Ok(String::new(alloc)),
    }
}

/// Whether matches are this text, and no more.
fn is_whole(prefix: &Option<Prefix>) -> bool
    ensures { result ≡ spec.is_whole prefix.now }
{
    match prefix {
        Some(prefix) => prefix.is_whole,
        None => false,
    }
}

/// What is known of the tree.
fn facts_of_tree(alloc: Global, tree: &Expr, unicode: bool) -> Result<Known, AllocError>
    ensures { IfOk result (λ k. AreFactsOf unicode (view tree.now) k.rows.items (string_bytes k.prefix) k.whole) }
{
    let rows = facts(alloc, tree, unicode)?;
    let prefix = prefix_beside(alloc, tree, unicode, &rows)?;
    let text = prefix_text(alloc, &prefix)?;
    let whole = PatternFacts {
        node_count: rows.len(),
        prefix_size: text.len(),
        has_prefix: prefix.is_some(),
        is_prefix_whole: is_whole(&prefix),
        is_easy: is_easy(tree),
    };
    Ok(Known {
        rows,
        prefix: text,
        whole,
    })
}

/// Writes the rows and the text at the front of the buffers if they fit.
fn write_known(nodes: &mut [NodeFacts], prefix: &mut [u8], known: &Known) -> CallResult
    ensures nodes { result.status ≡ STATUS_OK → Fills nodes.old nodes.new (map spec.row known.now.rows.items) }
    ensures prefix { result.status ≡ STATUS_OK → Fills prefix.old prefix.new (string_bytes known.now.prefix) }
    ensures short { result.status ≡ STATUS_BUFFER_TOO_SHORT → (length nodes.old < length known.now.rows.items)
        ⊎ (length prefix.old < length (string_bytes known.now.prefix)) }
    ensures nodes_kept { result.status ≢ STATUS_OK → nodes.new ≡ nodes.old }
    ensures prefix_kept { result.status ≢ STATUS_OK → prefix.new ≡ prefix.old }
    ensures status { (result.status ≡ STATUS_OK) ⊎ (result.status ≡ STATUS_BUFFER_TOO_SHORT) }
    ensures no_kind { result.kind ≡ ERROR_NONE }
    ensures no_position { result.position ≡ 0 }
    ensures no_size { result.size ≡ 0 }
{
    if nodes.len() < known.rows.len() {
        return CallResult::of_status(STATUS_BUFFER_TOO_SHORT);
    }
    if !fill(prefix, known.prefix.as_bytes()) {
        return CallResult::of_status(STATUS_BUFFER_TOO_SHORT);
    }
    put_rows(nodes, &known.rows);
    CallResult::of_status(STATUS_OK)
}

/// Parses a pattern as `fancy_check_nonnull` does, and sets `whole` to what is known of its matches. If all of it fits,
/// returns `STATUS_OK`; then `nodes` begins with what is known of each node of its tree, in the order of
/// `fancy_parse_nonnull`, and `prefix` with the text that each match of the pattern begins with. If something does not fit,
/// returns `STATUS_BUFFER_TOO_SHORT`, and neither is written. A pattern of n bytes has at most 2 n + 1 nodes. For a pattern
/// without a tree it returns what `fancy_check_nonnull` returns, and nothing is written.
#[unsafe(no_mangle)]
pub extern "C" fn fancy_facts_nonnull(
    alloc: Global,
    pattern: &[u8],
    flags: u32,
    nodes: &mut [NodeFacts],
    prefix: &mut [u8],
    whole: &mut PatternFacts,
) -> CallResult
    ensures read { result.status ≡ STATUS_OK → (t : Tree) × (rows : List (Option Facts)) × (w : _)
        × AreFactsOfBytes (flags_of flags) pattern.now t rows w whole.new
        × Fills nodes.old nodes.new (map spec.row rows) × Fills prefix.old prefix.new w }
    ensures short { result.status ≡ STATUS_BUFFER_TOO_SHORT → (t : Tree) × (rows : List (Option Facts)) × (w : _)
        × AreFactsOfBytes (flags_of flags) pattern.now t rows w whole.new
        × ((length nodes.old < whole.new.node_count) ⊎ (length prefix.old < whole.new.prefix_size)) }
    ensures enough { 2 * length pattern.now + 1 ≤ length nodes.old → result.status ≡ STATUS_BUFFER_TOO_SHORT →
        length prefix.old < whole.new.prefix_size }
    ensures refusal { RefusesPattern (flags_of flags) pattern.now result }
    ensures nodes_kept { result.status ≢ STATUS_OK → nodes.new ≡ nodes.old }
    ensures prefix_kept { result.status ≢ STATUS_OK → prefix.new ≡ prefix.old }
    ensures whole_kept { result.status ≢ STATUS_OK → result.status ≢ STATUS_BUFFER_TOO_SHORT → whole.new ≡ whole.old }
    ensures flags { TakesOnly (AreFlags flags) STATUS_UNKNOWN_FLAG result }
    ensures status { (result.status ≤ STATUS_BUFFER_TOO_SHORT) ⊎ (result.status ≡ STATUS_UNKNOWN_FLAG) }
    ensures no_size { result.size ≡ 0 }
{
    if !are_flags(flags) {
        return CallResult::of_status(STATUS_UNKNOWN_FLAG);
    }
    let tree = match read(alloc, pattern, flags) {
        Ok(tree) => tree,
        Err(refusal) => return refusal.call_result(),
    };
    match facts_of_tree(alloc, &tree.expr, Flags::from_bits(flags).unicode) {
        Ok(known) => {
            *whole = known.whole;
            write_known(nodes, prefix, &known)
        }
        Err(AllocError) => CallResult::of_status(STATUS_OUT_OF_MEMORY),
    }
}
