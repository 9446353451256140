//! The parameters of methods.
use editor_documents::change::{Change, Range};
use editor_documents::position::Position;
use json::Value;
use std::alloc::{AllocError, Global};

/// The member that a path of names leads to.
pub(crate) fn member<'v, 'a>(
    params: Option<&'v Value<'a>>,
    names: &[&str],
) -> Option<&'v Value<'a>> {
    let mut value = params?;
    for name in names {
        value = value.get(name)?;
    }
    Some(value)
}

/// The text that a path of names leads to.
pub(crate) fn text<'a>(params: Option<&Value<'a>>, names: &[&str]) -> Option<&'a str> {
    member(params, names)?.as_str()
}

/// The URI of the document that parameters are about.
pub(crate) fn uri<'a>(params: Option<&Value<'a>>) -> Option<&'a str> {
    text(params, &["textDocument", "uri"])
}

/// The number that a member has.
fn number(value: &Value<'_>, name: &str) -> Option<usize> {
    Some(value.get(name)?.as_u64()? as usize)
}

/// A position.
pub(crate) fn position(value: &Value<'_>) -> Option<Position> {
    Some(Position {
        line: number(value, "line")?,
        character: number(value, "character")?,
    })
}

/// A range.
pub(crate) fn range(value: &Value<'_>) -> Option<Range> {
    Some(Range {
        start: position(value.get("start")?)?,
        end: position(value.get("end")?)?,
    })
}

/// A change of a document.
fn change<'a>(value: &Value<'a>) -> Option<Change<'a>> {
    let text = value.get("text")?.as_str()?;
    match value.get("range") {
        Some(part) => Some(Change::Part(range(part)?, text)),
        None => Some(Change::Whole(text)),
    }
}

/// The text that a document is changed to, if that is its only change.
pub(crate) fn whole_text<'a>(params: Option<&Value<'a>>) -> Option<&'a str> {
    let Value::Array(changes) = member(params, &["contentChanges"])? else {
        return None;
    };
    let [change] = changes.as_slice() else {
        return None;
    };
    match change.get("range") {
        Some(_) => None,
        None => change.get("text")?.as_str(),
    }
}

/// The changes of a document; None if one is no change.
pub(crate) fn changes<'a>(
    alloc: Global,
    params: Option<&Value<'a>>,
) -> Result<Option<Vec<Change<'a>>>, AllocError> {
    let Some(Value::Array(values)) = member(params, &["contentChanges"]) else {
        return Ok(None);
    };
    let mut changes = Vec::new(alloc);
    for value in values {
        let Some(one) = change(value) else {
            return Ok(None);
        };
        changes.push(one)?;
    }
    Ok(Some(changes))
}
