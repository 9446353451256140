//! The codes of errors.
ghost use Rattle.std.specs.Prelude.{◌≡◌};
ghost use Rattle.json_rpc.specs.ErrorCode.{number_of};

/// Why a request is refused.
#[derive(Debug, Clone, Copy, PartialEq, Eq)]
pub enum ErrorCode {
    /// A message is not JSON.
    Parse,
    /// A message is JSON, but no request.
    InvalidRequest,
    /// There is no such method.
    MethodNotFound,
    /// The parameters are not those of the method.
    InvalidParams,
    /// Memory ran out.
    Internal,
    /// `initialize` has not been requested yet.
    NotInitialized,
    /// What is requested cannot be done.
    RequestFailed,
}

impl ErrorCode {
    /// The number that the protocol gives it.
    pub fn number(self) -> i64
        ensures { result ≡ number_of self }
    {
        match self {
            ErrorCode::Parse => -32700,
            ErrorCode::InvalidRequest => -32600,
            ErrorCode::MethodNotFound => -32601,
            ErrorCode::InvalidParams => -32602,
            ErrorCode::Internal => -32603,
            ErrorCode::NotInitialized => -32002,
            ErrorCode::RequestFailed => -32803,
        }
    }
}
