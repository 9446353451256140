//! The languages of sources, as far as the spelling of literals goes.

/// What a literal is written in.
#[derive(Debug, Clone, Copy, PartialEq, Eq)]
pub enum SourceSyntax {
    /// String literals of Python, also raw and of bytes.
    Python,
    /// String literals of Rust, also raw.
    Rust,
    /// Strings of JSON.
    Json,
    /// What is in an element of XML: text, CDATA sections and comments.
    Xml,
    /// Scalars of YAML outside braces and brackets.
    Yaml,
    /// Scalars of YAML inside braces or brackets.
    YamlFlow,
}

impl SourceSyntax {
    /// All of them.
    const ALL: [SourceSyntax; 6] = [
        SourceSyntax::Python,
        SourceSyntax::Rust,
        SourceSyntax::Json,
        SourceSyntax::Xml,
        SourceSyntax::Yaml,
        SourceSyntax::YamlFlow,
    ];

    /// The name that records have for it.
    pub fn name(self) -> &'static str {
        match self {
            SourceSyntax::Python => "python",
            SourceSyntax::Rust => "rust",
            SourceSyntax::Json => "json",
            SourceSyntax::Xml => "xml",
            SourceSyntax::Yaml => "yaml",
            SourceSyntax::YamlFlow => "yaml-flow",
        }
    }

    /// The one with this name, if there is one.
    pub fn named(name: &str) -> Option<SourceSyntax> {
        SourceSyntax::ALL
            .iter()
            .find(|syntax| syntax.name() == name)
            .copied()
    }
}
