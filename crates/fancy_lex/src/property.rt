//! Properties: the text after `\p` or `\P`, and the text that is written for the property.
ghost use Rattle.std.specs.Prelude.{◌≡◌, Bool, true, false, ◌<◌, ◌++◌, length, chars, IfSome, OnOk, Some, None};
ghost use Rattle.std.specs.Prelude.{option_map, if◌then◌else◌};
ghost use Rattle.std.specs.Str.{bytes_eq};
ghost use Rattle.fancy_lex.specs.Property as spec;
ghost use Rattle.fancy_lex.specs.PropertyViews.{view_property, view_form, other_form};
ghost use Rattle.fancy_lex.specs.Text.{Text, text_of, BeginsWith};
ghost use Rattle.fancy_lex.specs.Views.{view_read};

use crate::text::{after, append, next, push, split_at};
use std::alloc::AllocError;

/// The name of a property.
#[derive(Clone, Copy)]
pub enum PropertyName<'a> {
    /// One character.
    Single(char),
    /// A name in braces.
    Braced(&'a str),
}

/// A property as the pattern names it.
#[derive(Clone, Copy)]
pub struct Property<'a> {
    /// Whether it is written with `\P`.
    pub negated: bool,
    pub name: PropertyName<'a>,
}

/// Reads the text after the letter of `\p` or `\P`: one character, or a name in braces. None if the text is empty, or
/// the brace is not closed.
#[tactic(auto, unfolding(crate::specs::Property::read_property, crate::specs::Property::name_at))]
pub(crate) fn read_property(text: &str, negated: bool) -> Option<(Property<'_>, &str)>
    ensures value { spec.read_property negated (chars text.now) ≡
        option_map (λ p. (view_property p.0, chars p.1.now)) result }
    ensures shorter { IfSome result (λ p. length p.1.now < length text.now) }
{
    let (c, rest) = next(text)?;
    if c == '{' {
        let (name, rest) = split_at(rest, '}')?;
        let name = PropertyName::Braced(name);
        return Some((Property { negated, name }, rest));
    }
    let name = PropertyName::Single(c);
    Some((Property { negated, name }, rest))
}

/// The names that are written in a special form, and any other.
#[derive(Clone, Copy)]
enum KnownName {
    Alnum,
    Blank,
    Cntrl,
    Word,
    Graph,
    Print,
    Cs,
    Other,
}

/// How a name is written.
#[derive(Clone, Copy)]
enum Form<'a> {
    /// As a set with these items.
    Set(&'static str),
    /// As the first text, or as the second if the property is negated.
    Pair(&'static str, &'static str),
    /// As the name itself in lower case.
    Name(&'a str),
}

/// Whether the name is the word in letters of either case; the word has only small letters.
fn is_word(name: &str, word: &str) -> bool
    requires small { spec.lowercase (chars word.now) ≡ chars word.now }
    ensures { result ≡ bytes_eq (spec.lowercase (chars name.now)) (chars word.now) }
{
    name.eq_ignore_ascii_case(word)
}

/// Which of the known names this is, in letters of either case.
fn look_up(name: &str) -> KnownName
    ensures { result ≡ spec.look_up (spec.lowercase (chars name.now)) }
{
    if is_word(name, "alnum") {
        KnownName::Alnum
    } else if is_word(name, "blank") {
        KnownName::Blank
    } else if is_word(name, "cntrl") {
        KnownName::Cntrl
    } else if is_word(name, "word") {
        KnownName::Word
    } else if is_word(name, "graph") {
        KnownName::Graph
    } else if is_word(name, "print") {
        KnownName::Print
    } else if is_word(name, "cs") {
        KnownName::Cs
    } else {
        KnownName::Other
    }
}

/// The first form with UNICODE, and the second without.
#[inline]
fn form_by<'a>(unicode: bool, with: Form<'a>, without: Form<'a>) -> Form<'a>
    ensures { view_form result ≡ (if unicode then view_form with.entry else view_form without.entry) }
{
    if unicode { with } else { without }
}

/// How the known name is written.
fn form_of(known: KnownName, name: &str, unicode: bool) -> Form<'_>
    ensures { view_form result ≡ spec.form unicode known (spec.lowercase (chars name.now)) }
{
    match known {
        KnownName::Alnum => form_by(
            unicode,
            Form::Set(r"\p{alpha}\p{digit}"),
            Form::Set("[:alnum:]"),
        ),
        KnownName::Blank => form_by(unicode, Form::Set(r"\p{Zs}\x09"), Form::Set(r"\t ")),
        KnownName::Cntrl => form_by(
            unicode,
            Form::Set(r"\x00-\x1F\x7F-\x9F"),
            Form::Set("[:cntrl:]"),
        ),
        KnownName::Word => form_by(unicode, Form::Pair(r"\w", r"\W"), Form::Set("_[:alnum:]")),
        KnownName::Graph => form_by(
            unicode,
            Form::Pair(r"[^\p{White_Space}\p{C}]", r"[\p{White_Space}\p{C}]"),
            Form::Set("[:graph:]"),
        ),
        KnownName::Print => form_by(
            unicode,
            Form::Pair(r"[^\p{C}\t\n\v\f\r]", r"[\p{C}\t\n\v\f\r]"),
            Form::Set("[:print:]"),
        ),
        KnownName::Cs => Form::Pair(r"\P{any}", r"\p{any}"),
        KnownName::Other => Form::Name(name),
    }
}

/// Whether the name is negated, which a caret in front inverts, and the name without that caret.
fn without_caret(negated: bool, name: &str) -> (bool, &str)
    ensures { view_read (λ b. b) result ≡ spec.without_caret negated (chars name.now) }
{
    match after(name, '^') {
        Some(rest) => (!negated, rest),
        None => (negated, name),
    }
}

/// Whether the text that is written is a negated set that names properties or other classes.
fn is_negated_form(known: KnownName, negated: bool, unicode: bool) -> bool
    ensures { (inside : Bool) (name : Text) →
        result ≡ spec.is_negated_set (spec.form_text inside negated (spec.form unicode known name)) }
{
    match known {
        KnownName::Alnum => negated,
        KnownName::Blank => negated && unicode,
        KnownName::Cntrl | KnownName::Word => negated && !unicode,
        KnownName::Graph | KnownName::Print => negated != unicode,
        KnownName::Cs | KnownName::Other => false,
    }
}

/// Whether the text that is written for the property is a negated set that names properties or other classes.
#[tactic(auto, unfolding(crate::specs::Property::property_text))]
pub(crate) fn is_negated(property: Property, unicode: bool) -> bool
    ensures { (inside : Bool) →
        result ≡ spec.is_negated_set (spec.property_text unicode inside (view_property property.entry)) }
{
    match property.name {
        PropertyName::Single(_) => false,
        PropertyName::Braced(name) => {
            let (negated, name) = without_caret(property.negated, name);
            is_negated_form(look_up(name), negated, unicode)
        }
    }
}

/// Adds the name with its ASCII letters in lower case.
fn push_lowercase(out: &mut String, name: &str) -> Result<(), AllocError>
    ensures grown { OnOk result (text_of out.new ≡ text_of out.old ++ spec.lowercase (chars name.now)) }
    ensures kept { BeginsWith (text_of out.new) (text_of out.old) }
{
    let mut rest = name;
    while let Some((c, tail)) = next(rest) {
        push(out, c.to_ascii_lowercase())?;
        rest = tail;
    }
    Ok(())
}

/// Adds a set with these items; in a class only the items, if it is not negated.
fn push_set(out: &mut String, items: &str, negated: bool, inside: bool) -> Result<(), AllocError>
    ensures grown { OnOk result
        (text_of out.new ≡ text_of out.old ++ spec.form_text inside negated (spec.set (chars items.now))) }
    ensures kept { BeginsWith (text_of out.new) (text_of out.old) }
{
    if inside && !negated {
        return append(out, items);
    }
    push(out, '[')?;
    if negated {
        push(out, '^')?;
    }
    append(out, items)?;
    push(out, ']')
}

/// Adds the name in braces after its letter.
fn push_name(out: &mut String, name: &str, negated: bool) -> Result<(), AllocError>
    ensures grown { OnOk result
        (text_of out.new ≡ text_of out.old ++ spec.form_text true negated (other_form (chars name.now))) }
    ensures kept { BeginsWith (text_of out.new) (text_of out.old) }
{
    append(out, letter(negated))?;
    push(out, '{')?;
    push_lowercase(out, name)?;
    push(out, '}')
}

/// `\p`, or `\P` for a negated property.
pub fn letter(negated: bool) -> &'static str
    ensures { chars result.now ≡ spec.letter negated }
{
    if negated { r"\P" } else { r"\p" }
}

/// Adds the form's text.
fn push_form(out: &mut String, form: Form, negated: bool, inside: bool) -> Result<(), AllocError>
    ensures grown { OnOk result
        (text_of out.new ≡ text_of out.old ++ spec.form_text inside negated (view_form form.entry)) }
    ensures kept { BeginsWith (text_of out.new) (text_of out.old) }
{
    match form {
        Form::Set(items) => push_set(out, items, negated, inside),
        Form::Pair(plain, turned) => append(out, if negated { turned } else { plain }),
        Form::Name(name) => push_name(out, name, negated),
    }
}

/// Adds the text that is written for the property, in a class or outside. If memory runs out, the string begins with
/// what it held, and some of the text may follow.
#[tactic(auto, unfolding(crate::specs::Property::property_text))]
pub(crate) fn push_property(
    out: &mut String,
    property: Property,
    unicode: bool,
    inside: bool,
) -> Result<(), AllocError>
    ensures grown { let text = spec.property_text unicode inside (view_property property.entry) in
        OnOk result (text_of out.new ≡ text_of out.old ++ text) }
    ensures kept { BeginsWith (text_of out.new) (text_of out.old) }
{
    match property.name {
        PropertyName::Single(c) => {
            append(out, letter(property.negated))?;
            push(out, c)
        }
        PropertyName::Braced(name) => {
            let (negated, name) = without_caret(property.negated, name);
            push_form(out, form_of(look_up(name), name, unicode), negated, inside)
        }
    }
}
