//! What a message asks for.
use json::Value;

/// The name that a client gives a request, as it wrote it.
#[derive(Debug, Clone, Copy)]
pub enum Id<'a> {
    Number(&'a str),
    Text(&'a str),
}

impl<'a> Id<'a> {
    /// The id that is this value.
    fn of(value: &Value<'a>) -> Option<Id<'a>> {
        match value {
            Value::Number(number) => Some(Id::Number(number)),
            Value::String(text) => Some(Id::Text(text)),
            Value::Null | Value::Bool(_) | Value::Array(_) | Value::Object(_) => None,
        }
    }
}

/// A message from a client.
#[derive(Debug, Clone, Copy)]
pub enum Message<'v, 'a> {
    /// A method is requested, and an answer.
    Request {
        id: Id<'a>,
        method: &'a str,
        params: Option<&'v Value<'a>>,
    },
    /// Something has happened. There is no answer.
    Notification {
        method: &'a str,
        params: Option<&'v Value<'a>>,
    },
    /// The answer to a request of the server.
    Response,
    /// It is none of these; its id, if it has one.
    Invalid(Option<Id<'a>>),
}

impl<'v, 'a> Message<'v, 'a> {
    /// What the value is as a message.
    pub fn of(value: &'v Value<'a>) -> Message<'v, 'a> {
        let id = value.get("id").and_then(Id::of);
        if value.get("jsonrpc").and_then(Value::as_str) != Some("2.0") {
            return Message::Invalid(id);
        }
        let params = value.get("params");
        match (value.get("method").and_then(Value::as_str), value.get("id")) {
            (Some(method), None) => Message::Notification { method, params },
            (Some(method), Some(_)) => match id {
                Some(id) => Message::Request { id, method, params },
                None => Message::Invalid(None),
            },
            (None, Some(_)) if value.get("result").is_some() || value.get("error").is_some() => {
                Message::Response
            }
            (None, _) => Message::Invalid(id),
        }
    }
}
