//! The methods that a client calls.

/// A method with an answer.
#[derive(Debug, Clone, Copy, PartialEq, Eq)]
pub(crate) enum Method {
    Initialize,
    Shutdown,
    CodeAction,
    Formatting,
    RangeFormatting,
    Hover,
    Definition,
    References,
    Highlight,
    PrepareRename,
    Rename,
    SelectionRange,
    Symbols,
    FoldingRange,
    SemanticTokens,
}

/// The methods with an answer, by their names.
static METHODS: [(&str, Method); 15] = [
    ("initialize", Method::Initialize),
    ("shutdown", Method::Shutdown),
    ("textDocument/codeAction", Method::CodeAction),
    ("textDocument/formatting", Method::Formatting),
    ("textDocument/rangeFormatting", Method::RangeFormatting),
    ("textDocument/hover", Method::Hover),
    ("textDocument/definition", Method::Definition),
    ("textDocument/references", Method::References),
    ("textDocument/documentHighlight", Method::Highlight),
    ("textDocument/prepareRename", Method::PrepareRename),
    ("textDocument/rename", Method::Rename),
    ("textDocument/selectionRange", Method::SelectionRange),
    ("textDocument/documentSymbol", Method::Symbols),
    ("textDocument/foldingRange", Method::FoldingRange),
    ("textDocument/semanticTokens/full", Method::SemanticTokens),
];

impl Method {
    /// The method of this name.
    pub(crate) fn named(name: &str) -> Option<Method> {
        for (known, method) in METHODS.iter() {
            if *known == name {
                return Some(*method);
            }
        }
        None
    }
}
