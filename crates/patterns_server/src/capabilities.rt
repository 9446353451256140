//! What the server can do, as `initialize` says it, and what the client can.
use crate::params::{member, text};
use crate::tokens::TOKEN_KINDS;
use editor_documents::position::Encoding;
use json::{Value, Writer};
use pattern_documents::action_kinds::{FIX_ALL, QUICK_FIX};
use pattern_reports::json_lines::fields::{write_bool, write_number, write_text};
use std::alloc::AllocError;

/// What a client can do.
#[derive(Clone, Copy)]
pub(crate) struct ClientSupport {
    /// What positions are counted in.
    pub(crate) encoding: Encoding,
    /// Whether it takes symbols that are in others.
    pub(crate) has_nested_symbols: bool,
    /// Whether it asks what a rename replaces.
    has_prepared_renames: bool,
    /// Whether it takes actions that have kinds.
    has_action_kinds: bool,
}

/// The capability of a client for documents that these names lead to, if it says anything of that.
fn capability<'v, 'a>(params: Option<&'v Value<'a>>, names: [&str; 2]) -> Option<&'v Value<'a>> {
    member(member(params, &["capabilities", "textDocument"]), &names)
}

/// Whether a client says that it has this capability for documents.
fn is_supported(params: Option<&Value<'_>>, names: [&str; 2]) -> bool {
    capability(params, names)
        .and_then(Value::as_bool)
        .unwrap_or(false)
}

impl ClientSupport {
    /// What the parameters of `initialize` say.
    pub(crate) fn of(params: Option<&Value<'_>>) -> ClientSupport {
        let nested = ["documentSymbol", "hierarchicalDocumentSymbolSupport"];
        let kinds = capability(params, ["codeAction", "codeActionLiteralSupport"]);
        ClientSupport {
            encoding: encoding_of(params),
            has_nested_symbols: is_supported(params, nested),
            has_prepared_renames: is_supported(params, ["rename", "prepareSupport"]),
            has_action_kinds: kinds.is_some(),
        }
    }
}

/// The address of the page on rules, if the parameters of `initialize` have it.
pub(crate) fn rule_page<'a>(params: Option<&Value<'a>>) -> Option<&'a str> {
    text(params, &["initializationOptions", "rulePage"])
}

/// What positions are counted in: UTF-8 if the client offers it, else UTF-16.
fn encoding_of(params: Option<&Value<'_>>) -> Encoding {
    let offered = member(params, &["capabilities", "general", "positionEncodings"]);
    let Some(Value::Array(encodings)) = offered else {
        return Encoding::Utf16;
    };
    for encoding in encodings {
        if encoding.as_str() == Some("utf-8") {
            return Encoding::Utf8;
        }
    }
    Encoding::Utf16
}

/// What the encoding is called.
fn encoding_name(encoding: Encoding) -> &'static str {
    match encoding {
        Encoding::Utf8 => "utf-8",
        Encoding::Utf16 => "utf-16",
    }
}

/// Writes how documents are kept up to date: changes by ranges, and that they are saved.
fn write_sync(writer: &mut Writer) -> Result<(), AllocError> {
    writer.key("textDocumentSync")?;
    writer.begin_object()?;
    write_bool(writer, "openClose", true)?;
    write_number(writer, "change", 2)?;
    write_bool(writer, "save", true)?;
    writer.end_object()
}

/// The requests that are answered, by the names of their capabilities.
static PROVIDERS: [&str; 9] = [
    "documentFormattingProvider",
    "documentRangeFormattingProvider",
    "hoverProvider",
    "definitionProvider",
    "referencesProvider",
    "documentHighlightProvider",
    "selectionRangeProvider",
    "documentSymbolProvider",
    "foldingRangeProvider",
];

/// Writes which kinds of tokens there are.
fn write_token_kinds(writer: &mut Writer) -> Result<(), AllocError> {
    writer.key("semanticTokensProvider")?;
    writer.begin_object()?;
    writer.key("legend")?;
    writer.begin_object()?;
    writer.key("tokenTypes")?;
    writer.begin_array()?;
    for kind in TOKEN_KINDS.iter() {
        writer.string(kind)?;
    }
    writer.end_array()?;
    writer.key("tokenModifiers")?;
    writer.begin_array()?;
    writer.end_array()?;
    writer.end_object()?;
    write_bool(writer, "full", true)?;
    writer.end_object()
}

/// Writes that there are code actions, and of which kinds.
fn write_action_kinds(writer: &mut Writer, client: ClientSupport) -> Result<(), AllocError> {
    if !client.has_action_kinds {
        return write_bool(writer, "codeActionProvider", true);
    }
    writer.key("codeActionProvider")?;
    writer.begin_object()?;
    writer.key("codeActionKinds")?;
    writer.begin_array()?;
    for kind in [QUICK_FIX, FIX_ALL] {
        writer.string(kind)?;
    }
    writer.end_array()?;
    writer.end_object()
}

/// Writes that groups can be renamed, and that the server says what a rename replaces.
fn write_renames(writer: &mut Writer, client: ClientSupport) -> Result<(), AllocError> {
    if !client.has_prepared_renames {
        return write_bool(writer, "renameProvider", true);
    }
    writer.key("renameProvider")?;
    writer.begin_object()?;
    write_bool(writer, "prepareProvider", true)?;
    writer.end_object()
}

/// Writes the answer to `initialize`.
pub(crate) fn write_capabilities(
    writer: &mut Writer,
    client: ClientSupport,
) -> Result<(), AllocError> {
    writer.begin_object()?;
    writer.key("capabilities")?;
    writer.begin_object()?;
    write_text(writer, "positionEncoding", encoding_name(client.encoding))?;
    write_sync(writer)?;
    write_action_kinds(writer, client)?;
    write_renames(writer, client)?;
    for provider in PROVIDERS.iter() {
        write_bool(writer, provider, true)?;
    }
    write_token_kinds(writer)?;
    writer.end_object()?;
    writer.key("serverInfo")?;
    writer.begin_object()?;
    write_text(writer, "name", "patterns")?;
    writer.end_object()?;
    writer.end_object()
}
