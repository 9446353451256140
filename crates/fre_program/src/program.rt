//! A run of the program.
ghost use Rattle.std.specs.Prelude.{◌≡◌, ◌≤◌, chars, IfOk, Ok, MatchOption};
ghost use Rattle.fancy_lex.specs.Flags.{flags_of};
ghost use Rattle.fancy_syntax.specs.InfoViews.{HasTree, HasError};
ghost use Rattle.fre_program.specs.Words.{IsWellFormed, OfWords};

use crate::error::ProgramError;
use crate::report::{write_group_info, write_nodes, write_text};
use fancy_lex::flag_word::flags_named;
use fancy_syntax::{Error, Expr, ExprTree, WHOLE};
use std::alloc::{AllocError, Global};
use std::io::Write;

/// The verdict on a pattern.
#[derive(Clone, Copy)]
enum Verdict {
    Accepted,
    Refused,
}

/// The flags and the pattern that the arguments name.
fn named_by(words: &[String]) -> Option<(u32, &str)>
    ensures { MatchOption result (IsWellFormed words.now → ⊥) (λ p. OfWords (λ f pattern. (f ≡ flags_of p.0) ×
        (pattern ≡ chars p.1.now)) words.now) }
{
    let [flags, pattern] = words else {
        return None;
    };
    Some((flags_named(flags.as_str())?, pattern.as_str()))
}

/// Writes the tree, its group information and its text.
fn accept<O: Write>(alloc: Global, out: &mut O, tree: &ExprTree) -> Result<Verdict, ProgramError>
    ensures { IfOk result (λ verdict. verdict ≡ Verdict.Accepted) }
{
    let text = tree.expr.print(alloc, WHOLE)?;
    write_nodes(out, &tree.expr, 0)?;
    write_group_info(out, tree)?;
    write_text(out, text.as_deref())?;
    out.flush()?;
    Ok(Verdict::Accepted)
}

/// Reads the pattern, and writes its tree on `out` or its error on `err`.
fn run_pattern<O: Write, E: Write>(
    alloc: Global,
    pattern: &str,
    flags: u32,
    out: &mut O,
    err: &mut E,
) -> Result<Verdict, ProgramError>
    ensures accepted { result ≡ Ok Verdict.Accepted → HasTree (flags_of flags) (chars pattern.now) }
    ensures refused { result ≡ Ok Verdict.Refused → HasError (flags_of flags) (chars pattern.now) }
{
    match Expr::parse_tree_with_flags(alloc, pattern, flags) {
        Ok(tree) => accept(alloc, out, &tree),
        Err(Error::OutOfMemory) => Err(ProgramError::Memory(AllocError)),
        Err(refusal) => refuse(err, &refusal),
    }
}

/// Writes why the pattern is invalid.
fn refuse<E: Write>(err: &mut E, refusal: &Error) -> Result<Verdict, ProgramError>
    ensures { IfOk result (λ verdict. verdict ≡ Verdict.Refused) }
{
    writeln!(err, "{refusal}")?;
    Ok(Verdict::Refused)
}

/// Writes the usage on `err`.
fn explain<E: Write>(err: &mut E) -> Result<(), ProgramError> {
    writeln!(err, "{}", ProgramError::Usage)?;
    Ok(())
}

/// Tries to write why the run has no result, unless that is because the reader of an output closed it.
fn give_up<E: Write>(err: &mut E, error: ProgramError) -> u8
    ensures { result ≡ 3 }
{
    if !error.is_broken_pipe() {
        let _ = writeln!(err, "{error}");
    }
    3
}

/// Reports on `err`, if that is possible, that memory ran out for the arguments, and returns the exit status for that,
/// 3.
pub fn out_of_memory<E: Write>(err: &mut E) -> u8
    ensures status { result ≡ 3 }
{
    give_up(err, ProgramError::Memory(AllocError))
}

/// Runs the program on its arguments, without its name, and returns the exit status: 0 if the pattern is accepted, with
/// its tree on `out`; 1 if it is invalid, with the error on `err`; 2 if the arguments are not well formed, with the
/// usage on `err`; 3 if memory ran out or a write failed, which is reported on `err` if that is possible, unless the
/// reader of an output closed it, and `out` may then have part of the output.
pub fn fre_run<O: Write, E: Write>(alloc: Global, words: &[String], out: &mut O, err: &mut E) -> u8
    ensures accepted { result ≡ 0 → OfWords HasTree words.now }
    ensures refused { result ≡ 1 → OfWords HasError words.now }
    ensures misused { result ≡ 2 → IsWellFormed words.now → ⊥ }
    ensures status { result ≤ 3 }
{
    let Some((flags, pattern)) = named_by(words) else {
        return match explain(err) {
            Ok(()) => 2,
            Err(error) => give_up(err, error),
        };
    };
    match run_pattern(alloc, pattern, flags, out, err) {
        Ok(Verdict::Accepted) => 0,
        Ok(Verdict::Refused) => 1,
        Err(error) => give_up(err, error),
    }
}
