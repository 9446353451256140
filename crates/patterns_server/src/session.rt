//! What a client and the server have agreed on, the documents that are open, and what becomes of a message.
ghost use Rattle.std.specs.Prelude.{◌≡◌, ◌≤◌, ℕ, IfOk};
ghost use Rattle.patterns_server.specs.Stage.{status_at};
ghost use Rattle.patterns_server.specs.declared.session.Flow.TheVariants.{End};

use crate::asked::{About, Refused, WRONG_PARAMS, asked, offsets};
use crate::capabilities::{ClientSupport, rule_page, write_capabilities};
use crate::folding::write_folds;
use crate::method::Method;
use crate::outline::write_symbols;
use crate::params;
use crate::query::{Query, write_answer};
use crate::stage::{Decision, Stage, decision_on};
use crate::tokens::write_tokens;
use editor_documents::change::ChangeError;
use editor_documents::position::Encoding;
use json::{Scratch, Value, Writer};
use json_rpc::error_code::ErrorCode;
use json_rpc::frame::write_message;
use json_rpc::long_text::{PLACEHOLDER, Shortened, unescaped, without_long_text};
use json_rpc::message::{Id, Message};
use json_rpc::reply::{begin_answer, begin_notification, finish, refusal};
use pattern_documents::actions::write_actions;
use pattern_documents::diagnostics::{Addresses, diagnostics, no_diagnostics};
use pattern_documents::document::{OpenDocument, Opened, Settings};
use pattern_documents::formatting::write_formatted;
use pattern_files::sources::System;
use pattern_reports::json_lines::fields::{write_number, write_text};
use patterns_config::choices::Choices;
use patterns_text::error::RunError;
use std::alloc::Global;
use std::collections::BTreeMap;
use std::io::Write;
use std::str;

/// What follows from a message.
#[derive(Debug, Clone, Copy, PartialEq, Eq)]
pub(crate) enum Flow {
    /// The next message is read.
    GoOn,
    /// The session ends with this exit status.
    End(u8),
}

/// Why a request is refused with this code, whatever its parameters are.
fn reason_of(code: ErrorCode) -> &'static str {
    match code {
        ErrorCode::MethodNotFound => "no such method",
        ErrorCode::NotInitialized => "initialize has not been requested",
        ErrorCode::InvalidRequest => "the session does not take this request any more",
        ErrorCode::Parse
        | ErrorCode::InvalidParams
        | ErrorCode::Internal
        | ErrorCode::RequestFailed => "the request is refused",
    }
}

/// That no such document is open.
const NO_DOCUMENT: Refused = Refused {
    code: ErrorCode::InvalidParams,
    reason: "no such document is open",
};

/// Where parameters have the text of a document that is opened.
static OPENED_TEXT: [&str; 2] = ["textDocument", "text"];

/// Why a message is refused that is not JSON.
const NOT_JSON: &str = "the message is not JSON";

/// Why a request is refused for which there is not enough memory.
const OUT_OF_MEMORY: &str = "out of memory";

/// A session.
#[derive(Drop)]
pub(crate) struct Session<'a, S, W> {
    given: Settings<'a>,
    system: &'a S,
    out: &'a mut W,
    stage: Stage,
    /// Whether the client takes symbols that are in others.
    has_nested_symbols: bool,
    /// The address of the page on rules; empty if the client has not given it.
    rule_page: String,
    documents: BTreeMap<String, OpenDocument>,
}

impl<'a, S: System, W: Write> Session<'a, S, W> {
    /// Before the first message.
    pub(crate) fn new(
        alloc: Global,
        choices: Choices<'a>,
        system: &'a S,
        out: &'a mut W,
    ) -> Session<'a, S, W> {
        Session {
            given: Settings {
                alloc,
                choices,
                encoding: Encoding::Utf16,
            },
            system,
            out,
            stage: Stage::New,
            has_nested_symbols: false,
            rule_page: String::new(alloc),
            documents: BTreeMap::new(alloc),
        }
    }

    /// The exit status if the client goes away, or ends the session: 0 if it asked for that before.
    pub(crate) fn status(&self) -> u8
        ensures { result ≡ status_at self.now.stage }
    {
        if self.stage == Stage::ShutDown { 0 } else { 1 }
    }

    /// Sends a message.
    fn send(&mut self, message: &[u8]) -> Result<(), RunError> {
        write_message(self.out, message)?;
        Ok(())
    }

    /// Refuses a request; without an id, a message.
    pub(crate) fn refuse(
        &mut self,
        id: Option<Id<'_>>,
        code: ErrorCode,
        reason: &str,
    ) -> Result<(), RunError> {
        let message = refusal(self.given.alloc, id, code, reason)?;
        self.send(&message)
    }

    /// Refuses a message if memory ran out for the answer.
    fn or_refuse(
        &mut self,
        id: Option<Id<'_>>,
        done: Result<(), RunError>,
    ) -> Result<(), RunError> {
        match done {
            Err(RunError::Memory(_)) => self.refuse(id, ErrorCode::Internal, OUT_OF_MEMORY),
            done => done,
        }
    }

    /// Shows a text to the person at the client, as an error.
    pub(crate) fn show(&mut self, text: &str) -> Result<(), RunError> {
        let mut writer = begin_notification(self.given.alloc, "window/showMessage")?;
        writer.begin_object()?;
        write_number(&mut writer, "type", 1)?;
        write_text(&mut writer, "message", text)?;
        writer.end_object()?;
        let message = finish(writer)?;
        self.send(&message)
    }

    /// Shows what is wrong with configurations, if something is.
    fn show_errors(&mut self, errors: &[u8]) -> Result<(), RunError> {
        match str::from_utf8(errors) {
            Ok(text) if !text.is_empty() => self.show(text.trim_end()),
            _ => Ok(()),
        }
    }

    /// Does what a message asks for.
    pub(crate) fn take(&mut self, message: Vec<u8>) -> Result<Flow, RunError>
        ensures status { IfOk result (λ flow. (status : ℕ) → flow ≡ End status → status ≤ 1) }
    {
        if self.stage == Stage::Running
            && let Ok(Some(short)) = without_long_text(self.given.alloc, &message)
        {
            return self.take_shortened(message, &short);
        }
        self.take_json(&message)
    }

    /// The same of a message that has a long text. If that is all the text of a document, the message becomes the document.
    fn take_shortened(&mut self, message: Vec<u8>, short: &Shortened) -> Result<Flow, RunError>
        ensures status { IfOk result (λ flow. (status : ℕ) → flow ≡ End status → status ≤ 1) }
    {
        let alloc = self.given.alloc;
        let mut scratch = Scratch::new(alloc);
        let Ok(value) = Value::from_slice(alloc, &short.rest, &mut scratch) else {
            return self.take_json(&message);
        };
        match Message::of(&value) {
            Message::Notification { method, params } if has_whole_text(method, params) => {
                match unescaped(alloc, message, short.text)? {
                    Some(text) => self.take_text(method, params, text)?,
                    None => self.refuse(None, ErrorCode::Parse, NOT_JSON)?,
                }
                Ok(Flow::GoOn)
            }
            _ => self.take_json(&message),
        }
    }

    /// Does what a message asks for, which is read as a whole.
    fn take_json(&mut self, message: &[u8]) -> Result<Flow, RunError>
        ensures status { IfOk result (λ flow. (status : ℕ) → flow ≡ End status → status ≤ 1) }
    {
        let alloc = self.given.alloc;
        let mut scratch = Scratch::new(alloc);
        match Value::from_slice(alloc, message, &mut scratch) {
            Ok(value) => self.take_value(&value),
            Err(json::Error::OutOfMemory) => {
                self.refuse(None, ErrorCode::Internal, OUT_OF_MEMORY)?;
                Ok(Flow::GoOn)
            }
            Err(_) => {
                self.refuse(None, ErrorCode::Parse, NOT_JSON)?;
                Ok(Flow::GoOn)
            }
        }
    }

    /// The same of a message that is JSON.
    fn take_value(&mut self, value: &Value<'_>) -> Result<Flow, RunError>
        ensures status { IfOk result (λ flow. (status : ℕ) → flow ≡ End status → status ≤ 1) }
    {
        match Message::of(value) {
            Message::Request { id, method, params } => self.take_request(id, method, params)?,
            Message::Notification { method: "exit", .. } => return Ok(Flow::End(self.status())),
            Message::Notification { method, params } => {
                if self.stage == Stage::Running {
                    self.take_notification(method, params)?;
                }
            }
            Message::Response => {}
            Message::Invalid(id) => {
                let done = self.refuse(id, ErrorCode::InvalidRequest, "the message is no request");
                self.or_refuse(id, done)?;
            }
        }
        Ok(Flow::GoOn)
    }

    /// Answers or refuses a request. If memory runs out for the answer, the request is refused.
    fn take_request(
        &mut self,
        id: Id<'_>,
        method: &str,
        params: Option<&Value<'_>>,
    ) -> Result<(), RunError> {
        let done = match decision_on(self.stage, Method::named(method)) {
            Decision::Begin => self.initialize(id, params),
            Decision::Answer(method) => self.answer(id, method, params),
            Decision::Refuse(code) => self.refuse(Some(id), code, reason_of(code)),
        };
        self.or_refuse(Some(id), done)
    }

    /// Agrees with the client on what both can do.
    fn initialize(&mut self, id: Id<'_>, params: Option<&Value<'_>>) -> Result<(), RunError> {
        let alloc = self.given.alloc;
        let client = ClientSupport::of(params);
        let mut writer = begin_answer(alloc, id)?;
        write_capabilities(&mut writer, client)?;
        let message = finish(writer)?;
        self.rule_page = String::from_str(alloc, rule_page(params).unwrap_or(""))?;
        self.given.encoding = client.encoding;
        self.has_nested_symbols = client.has_nested_symbols;
        self.stage = Stage::Running;
        self.send(&message)
    }

    /// Answers a request of a session that runs.
    fn answer(
        &mut self,
        id: Id<'_>,
        method: Method,
        params: Option<&Value<'_>>,
    ) -> Result<(), RunError> {
        let mut writer = begin_answer(self.given.alloc, id)?;
        match self.write_result(method, params, &mut writer)? {
            Ok(()) => {
                let message = finish(writer)?;
                self.send(&message)
            }
            Err(Refused { code, reason }) => self.refuse(Some(id), code, reason),
        }
    }

    /// Writes the result of a method: null if the document is too large for its patterns to be read.
    fn write_result(
        &mut self,
        method: Method,
        params: Option<&Value<'_>>,
        writer: &mut Writer,
    ) -> Result<Result<(), Refused>, RunError> {
        let (given, has_nested_symbols) = (self.given, self.has_nested_symbols);
        if let Method::Initialize | Method::Shutdown = method {
            self.stage = Stage::ShutDown;
            writer.null()?;
            return Ok(Ok(()));
        }
        let Some(uri) = params::uri(params) else {
            return Ok(Err(WRONG_PARAMS));
        };
        let Some(document) = self.documents.get_mut(uri) else {
            return Ok(Err(NO_DOCUMENT));
        };
        if document.source.is_large() {
            writer.null()?;
            return Ok(Ok(()));
        }
        let text = document.source.text();
        if method == Method::SelectionRange {
            return write_selections(given, uri, document, params, writer);
        }
        match asked(given.encoding, text, method, params) {
            Ok(About::Document) if method == Method::Symbols => {
                write_symbols(given, uri, document, has_nested_symbols, writer)?;
            }
            Ok(About::Document) => write_of_document(given, document, method, writer)?,
            Ok(About::Part(part)) => write_formatted(given, document, Some(part), writer)?,
            Ok(About::Actions(part, kinds)) => {
                write_actions(given, uri, document, part, kinds, writer)?;
            }
            Ok(About::Position(offset, query)) => {
                return write_answer(given, uri, document, offset, query, writer);
            }
            Err(refused) => return Ok(Err(refused)),
        }
        Ok(Ok(()))
    }

    /// Does what a notification of a session that runs asks for. One that is unknown, or wrong, changes nothing.
    fn take_notification(
        &mut self,
        method: &str,
        params: Option<&Value<'_>>,
    ) -> Result<(), RunError> {
        match method {
            "textDocument/didOpen" => match params::text(params, &OPENED_TEXT) {
                Some(text) => self.open(params, String::from_str(self.given.alloc, text)?),
                None => Ok(()),
            },
            "textDocument/didChange" => self.change(params),
            "textDocument/didSave" => self.saved(params),
            "textDocument/didClose" => self.close(params),
            "workspace/didChangeWatchedFiles" => self.configure(),
            _ => Ok(()),
        }
    }

    /// Reports on a document.
    fn report(&mut self, uri: &str) -> Result<(), RunError> {
        let given = self.given;
        let Some(document) = self.documents.get_mut(uri) else {
            return Ok(());
        };
        let addresses = addresses_of(uri, self.rule_page.as_str());
        let message = diagnostics(given, addresses, document)?;
        self.send(&message)
    }

    /// Does what a notification asks for that has this text as all the text of a document.
    fn take_text(
        &mut self,
        method: &str,
        params: Option<&Value<'_>>,
        text: String,
    ) -> Result<(), RunError> {
        match method {
            "textDocument/didOpen" => self.open(params, text),
            _ => self.replace(params, text),
        }
    }

    /// Opens a document that has this text.
    fn open(&mut self, params: Option<&Value<'_>>, text: String) -> Result<(), RunError> {
        let alloc = self.given.alloc;
        let Some(uri) = params::uri(params) else {
            return Ok(());
        };
        let opened = Opened {
            uri,
            language: params::text(params, &["textDocument", "languageId"]).unwrap_or(""),
            version: version_of(params),
        };
        let mut errors = Vec::new(alloc);
        let document = OpenDocument::open(self.given, opened, text, self.system, &mut errors)?;
        self.documents
            .insert(String::from_str(alloc, uri)?, document)?;
        self.show_errors(&errors)?;
        self.report(uri)
    }

    /// Changes a document. If the changes cannot be made, that is shown, and the document stays as it was.
    fn change(&mut self, params: Option<&Value<'_>>) -> Result<(), RunError> {
        let given = self.given;
        let Some(uri) = params::uri(params) else {
            return Ok(());
        };
        let Some(document) = self.documents.get_mut(uri) else {
            return Ok(());
        };
        let Some(changes) = params::changes(given.alloc, params)? else {
            return self.show("patterns: a change of a document is no change of the protocol");
        };
        let version = version_of(params);
        match document.change(given, version, &changes) {
            Ok(()) => self.report(uri),
            Err(ChangeError::Position) => {
                self.show("patterns: a change is at a position that the document does not have")
            }
            Err(ChangeError::Memory(error)) => Err(RunError::Memory(error)),
        }
    }

    /// Makes the text the one of a document.
    fn replace(&mut self, params: Option<&Value<'_>>, text: String) -> Result<(), RunError> {
        let Some(uri) = params::uri(params) else {
            return Ok(());
        };
        let Some(document) = self.documents.get_mut(uri) else {
            return Ok(());
        };
        document.replace(version_of(params), text);
        self.report(uri)
    }

    /// Reads the configurations of all documents again, and reports on them.
    fn configure(&mut self) -> Result<(), RunError> {
        let given = self.given;
        let alloc = given.alloc;
        let mut errors = Vec::new(alloc);
        let mut uris = Vec::new(alloc);
        for (uri, document) in self.documents.iter_mut() {
            document.configure(given, self.system, &mut errors)?;
            uris.push(String::from_str(alloc, uri.as_str())?)?;
        }
        self.show_errors(&errors)?;
        for uri in &uris {
            self.report(uri.as_str())?;
        }
        Ok(())
    }

    /// A document was saved: if it is a configuration, it is read.
    fn saved(&mut self, params: Option<&Value<'_>>) -> Result<(), RunError> {
        match params::uri(params) {
            Some(uri) if uri.ends_with("/patterns.toml") => self.configure(),
            _ => Ok(()),
        }
    }

    /// Closes a document.
    fn close(&mut self, params: Option<&Value<'_>>) -> Result<(), RunError> {
        let Some(uri) = params::uri(params) else {
            return Ok(());
        };
        if self.documents.remove(uri).is_none() {
            return Ok(());
        }
        let message = no_diagnostics(self.given.alloc, uri)?;
        self.send(&message)
    }
}

/// Whether the placeholder of a long text is all the text of a document, which the notification opens or changes.
fn has_whole_text(method: &str, params: Option<&Value<'_>>) -> bool {
    let text = match method {
        "textDocument/didOpen" => params::text(params, &OPENED_TEXT),
        "textDocument/didChange" => params::whole_text(params),
        _ => None,
    };
    text == Some(PLACEHOLDER)
}

/// The version that parameters give a document; 0 if they give none.
fn version_of(params: Option<&Value<'_>>) -> i64 {
    params::member(params, &["textDocument", "version"])
        .and_then(Value::as_i64)
        .unwrap_or(0)
}

/// Writes the result of a method that is about a whole document, but for symbols.
fn write_of_document(
    given: Settings<'_>,
    document: &OpenDocument,
    method: Method,
    writer: &mut Writer,
) -> Result<(), RunError> {
    match method {
        Method::FoldingRange => write_folds(given, document, writer),
        Method::SemanticTokens => write_tokens(given, document, writer),
        _ => write_formatted(given, document, None, writer),
    }
}

/// What reports on a document name; no page on rules if its address is empty.
fn addresses_of<'a>(document: &'a str, page: &'a str) -> Addresses<'a> {
    let rule_page = if page.is_empty() { None } else { Some(page) };
    Addresses {
        document,
        rule_page,
    }
}

/// Writes the parts around the positions that a request asks about, for each a list.
fn write_selections(
    given: Settings<'_>,
    uri: &str,
    document: &OpenDocument,
    params: Option<&Value<'_>>,
    writer: &mut Writer,
) -> Result<Result<(), Refused>, RunError> {
    let offsets = match offsets(given, document.source.text(), params)? {
        Ok(offsets) => offsets,
        Err(refused) => return Ok(Err(refused)),
    };
    writer.begin_array()?;
    for offset in &offsets {
        let answered = write_answer(given, uri, document, *offset, Query::Selection, writer)?;
        if let Err(refused) = answered {
            return Ok(Err(refused));
        }
    }
    writer.end_array()?;
    Ok(Ok(()))
}
