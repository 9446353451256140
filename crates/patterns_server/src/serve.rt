//! Messages of a client, one after another.
ghost use Rattle.std.specs.Prelude.{◌≤◌};

use crate::session::{Flow, Session};
use json_rpc::error_code::ErrorCode;
use json_rpc::frame::{FrameError, read_message};
use pattern_files::sources::System;
use patterns_config::choices::Choices;
use patterns_text::error::{RunError, give_up};
use std::alloc::{AllocError, Global};
use std::io::{Read, Write};

/// Answers the messages of a client until it ends the session or goes away, and returns the exit status: 0 if it asked for
/// the end, 1 if it went away or its messages cannot be told apart, and 3 if memory runs out between messages or a write
/// fails.
pub fn serve<'a, S: System, R: Read, W: Write, E: Write>(
    alloc: Global,
    choices: Choices<'a>,
    system: &'a S,
    input: &mut R,
    out: &'a mut W,
    err: &mut E,
) -> u8
    ensures status { result ≤ 3 }
{
    let mut session = Session::new(alloc, choices, system, out);
    for _ in 0..u64::MAX {
        let message = match read_message(alloc, input) {
            Ok(Some(message)) => message,
            Ok(None) => break,
            Err(FrameError::Memory) => return give_up(err, RunError::Memory(AllocError)),
            Err(error) => {
                let _ = writeln!(err, "patterns: {error}");
                let _ = session.refuse(None, ErrorCode::Parse, "a message without a right header");
                return 1;
            }
        };
        match session.take(message) {
            Ok(Flow::GoOn) => {}
            Ok(Flow::End(status)) => return status,
            Err(RunError::Memory(_)) => {
                if let Err(error) = session.show("patterns: out of memory") {
                    return give_up(err, error);
                }
            }
            Err(error) => return give_up(err, error),
        }
    }
    session.status()
}
