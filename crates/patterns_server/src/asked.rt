//! What a request asks about a document.
use crate::method::Method;
use crate::params;
use crate::query::Query;
use editor_documents::position::{Encoding, Position, from_position};
use fancy_syntax::span::Span;
use json::Value;
use json_rpc::error_code::ErrorCode;
use pattern_documents::action_kinds::ActionKinds;
use pattern_documents::document::Settings;
use std::alloc::AllocError;

/// Why a request is refused.
#[derive(Clone, Copy)]
pub(crate) struct Refused {
    pub(crate) code: ErrorCode,
    pub(crate) reason: &'static str,
}

/// That parameters are wrong.
pub(crate) const WRONG_PARAMS: Refused = Refused {
    code: ErrorCode::InvalidParams,
    reason: "the parameters are not those of the method",
};

/// That a position is wrong.
const NO_POSITION: Refused = Refused {
    code: ErrorCode::InvalidParams,
    reason: "the document has no such position",
};

/// What is asked about.
#[derive(Clone, Copy)]
pub(crate) enum About<'a> {
    /// All of the document.
    Document,
    /// A part of it, in byte offsets.
    Part(Span),
    /// The actions of these kinds for such a part.
    Actions(Span, ActionKinds),
    /// What is at a byte offset.
    Position(usize, Query<'a>),
}

/// The byte offset of a position in a text.
fn offset_of(encoding: Encoding, text: &str, position: Position) -> Result<usize, Refused> {
    match from_position(encoding, text, position) {
        Some(rest) => Ok(text.len().saturating_sub(rest.len())),
        None => Err(NO_POSITION),
    }
}

/// The part of a text that parameters are about.
fn part(encoding: Encoding, text: &str, params: Option<&Value<'_>>) -> Result<Span, Refused> {
    let Some(range) = params::member(params, &["range"]).and_then(params::range) else {
        return Err(WRONG_PARAMS);
    };
    Ok(Span {
        start: offset_of(encoding, text, range.start)?,
        end: offset_of(encoding, text, range.end)?,
    })
}

/// What a method asks about the part at a position; None if it does not ask that.
fn query<'a>(method: Method, params: Option<&Value<'a>>) -> Result<Option<Query<'a>>, Refused> {
    Ok(Some(match method {
        Method::Hover => Query::Hover,
        Method::Definition => Query::Definition,
        Method::References => {
            let has_group = params::member(params, &["context", "includeDeclaration"]);
            Query::References {
                has_group: has_group.and_then(Value::as_bool).unwrap_or(false),
            }
        }
        Method::Highlight => Query::Highlight,
        Method::PrepareRename => Query::Name,
        Method::Rename => match params::text(params, &["newName"]) {
            Some(name) => Query::Rename(name),
            None => return Err(WRONG_PARAMS),
        },
        _ => return Ok(None),
    }))
}

/// The kinds of actions that parameters ask for: fixes of reports, if they do not say.
fn action_kinds(params: Option<&Value<'_>>) -> ActionKinds {
    let Some(Value::Array(only)) = params::member(params, &["context", "only"]) else {
        return ActionKinds::DEFAULT;
    };
    let mut kinds = ActionKinds::NONE;
    for kind in only {
        if let Some(kind) = kind.as_str() {
            kinds.add(kind);
        }
    }
    kinds
}

/// What a request asks about a document that has this text.
pub(crate) fn asked<'a>(
    encoding: Encoding,
    text: &str,
    method: Method,
    params: Option<&Value<'a>>,
) -> Result<About<'a>, Refused> {
    if method == Method::CodeAction {
        let part = part(encoding, text, params)?;
        return Ok(About::Actions(part, action_kinds(params)));
    }
    if method == Method::RangeFormatting {
        return Ok(About::Part(part(encoding, text, params)?));
    }
    let Some(query) = query(method, params)? else {
        return Ok(About::Document);
    };
    let Some(position) = params::member(params, &["position"]).and_then(params::position) else {
        return Err(WRONG_PARAMS);
    };
    Ok(About::Position(offset_of(encoding, text, position)?, query))
}

/// The byte offsets of the positions that a request asks about.
pub(crate) fn offsets(
    given: Settings<'_>,
    text: &str,
    params: Option<&Value<'_>>,
) -> Result<Result<Vec<usize>, Refused>, AllocError> {
    let Some(Value::Array(positions)) = params::member(params, &["positions"]) else {
        return Ok(Err(WRONG_PARAMS));
    };
    let mut offsets = Vec::new(given.alloc);
    for value in positions {
        let Some(position) = params::position(value) else {
            return Ok(Err(WRONG_PARAMS));
        };
        match offset_of(given.encoding, text, position) {
            Ok(offset) => offsets.push(offset)?,
            Err(refused) => return Ok(Err(refused)),
        }
    }
    Ok(Ok(offsets))
}
