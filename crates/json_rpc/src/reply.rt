//! What a server writes: answers, and notifications.
use crate::error_code::ErrorCode;
use crate::message::Id;
use json::{Writer, is_number};
use std::alloc::{AllocError, Global};

/// Begins a message.
fn begin(alloc: Global) -> Result<Writer, AllocError> {
    let mut writer = Writer::new(Vec::new(alloc));
    writer.begin_object()?;
    writer.key("jsonrpc")?;
    writer.string("2.0")?;
    Ok(writer)
}

/// Writes an id: null if there is none.
fn write_id(writer: &mut Writer, id: Option<Id<'_>>) -> Result<(), AllocError> {
    writer.key("id")?;
    match id {
        Some(Id::Number(number)) if is_number(number) => writer.number(number),
        Some(Id::Text(text)) => writer.string(text),
        Some(Id::Number(_)) | None => writer.null(),
    }
}

/// Begins the answer to the request with this id. Its result is to be written next.
pub fn begin_answer(alloc: Global, id: Id<'_>) -> Result<Writer, AllocError> {
    let mut writer = begin(alloc)?;
    write_id(&mut writer, Some(id))?;
    writer.key("result")?;
    Ok(writer)
}

/// Begins a notification. Its parameters are to be written next.
pub fn begin_notification(alloc: Global, method: &str) -> Result<Writer, AllocError> {
    let mut writer = begin(alloc)?;
    writer.key("method")?;
    writer.string(method)?;
    writer.key("params")?;
    Ok(writer)
}

/// Ends a message, and returns it.
pub fn finish(mut writer: Writer) -> Result<Vec<u8>, AllocError> {
    writer.end_object()?;
    Ok(writer.into_inner())
}

/// The message that the request with this id is refused; without an id, that a message is.
pub fn refusal(
    alloc: Global,
    id: Option<Id<'_>>,
    code: ErrorCode,
    reason: &str,
) -> Result<Vec<u8>, AllocError> {
    let mut writer = begin(alloc)?;
    write_id(&mut writer, id)?;
    writer.key("error")?;
    writer.begin_object()?;
    writer.key("code")?;
    writer.i64(code.number())?;
    writer.key("message")?;
    writer.string(reason)?;
    writer.end_object()?;
    finish(writer)
}
