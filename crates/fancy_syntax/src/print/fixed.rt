//! The texts that do not depend on what a tree holds.
ghost use Rattle.std.specs.Prelude.{◌≡◌, true, nat_lt};
ghost use Rattle.std.specs.List.{list_all};
ghost use Rattle.fancy_grammar.specs.Printed as spec;

use fancy_lex::escape::Assertion;

/// The text of a node for any character.
pub(super) fn any_text(newline: bool, crlf: bool) -> &'static str
    ensures text { spec.any_text newline crlf ≡ result.now }
    ensures ascii { list_all (λ b. nat_lt b 128) result.now ≡ true }
{
    if newline {
        "(?s:.)"
    } else if crlf {
        "(?R-s:.)"
    } else {
        "."
    }
}

/// The text of an assertion; nothing for the one that has none.
pub(super) fn assertion_text(assertion: Assertion) -> &'static str
    ensures text { spec.assertion_text assertion ≡ result.now }
    ensures ascii { list_all (λ b. nat_lt b 128) result.now ≡ true }
{
    match assertion {
        Assertion::StartText => "^",
        Assertion::EndText => "$",
        Assertion::StartLine { crlf: false } => "(?m:^)",
        Assertion::StartLine { crlf: true } => "(?Rm:^)",
        Assertion::StartLineOniguruma { crlf: false } => "(?m:^)",
        Assertion::StartLineOniguruma { crlf: true } => "(?Rm:^)",
        Assertion::EndLine { crlf: false } => "(?m:$)",
        Assertion::EndLine { crlf: true } => "(?Rm:$)",
        Assertion::WordBoundary => r"\b",
        Assertion::NotWordBoundary => r"\B",
        Assertion::LeftWordBoundary => r"\<",
        Assertion::RightWordBoundary => r"\>",
        Assertion::LeftWordHalfBoundary => r"\b{start-half}",
        Assertion::RightWordHalfBoundary => r"\b{end-half}",
        Assertion::EndTextIgnoreTrailingNewlines { .. } => "",
    }
}
