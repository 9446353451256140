//! How far a session is, and which requests it takes.
ghost use Rattle.std.specs.Prelude.{◌≡◌};
ghost use Rattle.patterns_server.specs.Stage.{decision};

use crate::method::Method;
use json_rpc::error_code::ErrorCode;

/// How far a session is.
#[derive(Debug, Clone, Copy, PartialEq, Eq)]
pub(crate) enum Stage {
    /// `initialize` has not come.
    New,
    Running,
    /// `shutdown` has come.
    ShutDown,
}

/// What becomes of a request.
#[derive(Debug, Clone, Copy, PartialEq, Eq)]
pub(crate) enum Decision {
    /// The session begins.
    Begin,
    Answer(Method),
    Refuse(ErrorCode),
}

/// What becomes of a request at this stage; None is a method that is unknown.
pub(crate) fn decision_on(stage: Stage, method: Option<Method>) -> Decision
    ensures { result ≡ decision stage method }
{
    match (stage, method) {
        (Stage::New, Some(Method::Initialize)) => Decision::Begin,
        (Stage::New, _) => Decision::Refuse(ErrorCode::NotInitialized),
        (Stage::Running, None) => Decision::Refuse(ErrorCode::MethodNotFound),
        (Stage::Running, Some(Method::Initialize)) | (Stage::ShutDown, _) => {
            Decision::Refuse(ErrorCode::InvalidRequest)
        }
        (Stage::Running, Some(method)) => Decision::Answer(method),
    }
}
