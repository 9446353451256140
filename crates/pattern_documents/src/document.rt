//! Documents that are open.
ghost use Rattle.std.specs.Prelude.{◌≡◌, chars, string_bytes, Some, None, IfOk, OnOk, OnErr, IsErrOf};
ghost use Rattle.editor_documents.specs.Change.{with_changes};
ghost use Rattle.editor_documents.specs.declared.change.ChangeError.{ChangeError};

use crate::known::KnownPatterns;
use crate::uri::path_of;
use editor_documents::change::{Change, ChangeError};
use editor_documents::document::Document;
use editor_documents::position::Encoding;
use pattern_files::entry::{Entry, Unread, Visitor};
use pattern_files::form::{FileFormat, NamedFormat};
use pattern_files::lines::Ending;
use pattern_files::sources::{STANDARD_INPUT, System};
use pattern_files::values::keys::Keys;
use pattern_files::walk::{FileShape, visit};
use patterns_config::choices::Choices;
use patterns_config::file_settings::{
    FileSettings, FormatSettings, flags_with, format_with, is_form_chosen, keys_with, levels_with,
};
use patterns_config::plan::{Plan, PlanRequest};
use patterns_program::edited::EditedPatterns;
use patterns_text::error::RunError;
use std::alloc::{AllocError, Global};

/// How many bytes a document has at most whose patterns are read.
const MAX_BYTES: usize = 8 << 20;

/// How many bytes a document spells a pattern in at most that is read: its tree takes hundreds of times as many.
const MAX_PATTERN: usize = 1 << 18;

/// What is given for all documents.
#[derive(Clone, Copy)]
pub struct Settings<'a> {
    pub alloc: Global,
    pub choices: Choices<'a>,
    /// What positions are counted in.
    pub encoding: Encoding,
}

/// Visits the patterns that are not too long.
#[derive(Drop)]
struct ShortPatterns<'v, V> {
    visitor: &'v mut V,
    /// Whether one is too long.
    has_long: bool,
}

impl<V: Visitor> Visitor for ShortPatterns<'_, V> {
    fn pattern(&mut self, entry: Entry<'_>) -> Result<(), RunError> {
        if entry.contents.len() > MAX_PATTERN {
            self.has_long = true;
            return Ok(());
        }
        self.visitor.pattern(entry)
    }

    fn unread(&mut self, unread: Unread<'_>) -> Result<(), RunError> {
        self.visitor.unread(unread)
    }

    fn is_done(&self) -> bool {
        self.visitor.is_done()
    }
}

/// A document, and how it has patterns.
#[derive(Drop)]
pub struct DocumentSource {
    pub document: Document,
    /// The path of its file; of a document without one the name of the standard input.
    name: String,
    /// Its configuration.
    plan: Plan,
}

/// A document that is open.
#[derive(Drop)]
pub struct OpenDocument {
    pub source: DocumentSource,
    pub patterns: EditedPatterns,
    /// Its patterns, with the reports on them, as they were last sent.
    pub(crate) known: KnownPatterns,
}

/// How a grammar of TextMate has patterns.
fn textmate() -> FileFormat<'static> {
    FileFormat::Values(Keys {
        has_textmate: true,
        named: &[],
        configured: &[],
    })
}

/// How a document has patterns, of which the configuration does not say that it is JSON; None if it has none.
fn form_of(language: &str, name: &str, is_chosen: bool) -> Option<FileFormat<'static>> {
    match language {
        "textmate" | "tmlanguage" | "json-tmlanguage" => Some(textmate()),
        "json" | "jsonc" if name.ends_with(".tmLanguage.json") => { Some(textmate()) }
        "patterns" | "regex" | "regexp" => Some(FileFormat::Records(Ending::Line)),
        "plaintext" | "text" if matches!(NamedFormat::of(name), NamedFormat::Lines) => {
            Some(FileFormat::Records(Ending::Line))
        }
        _ if is_chosen => Some(FileFormat::Records(Ending::Line)),
        _ => None,
    }
}

/// The configuration of the file of this name.
fn plan_of<S: System>(
    given: Settings<'_>,
    name: &str,
    system: &S,
    err: &mut Vec<u8>,
) -> Result<Plan, RunError> {
    let names = [name];
    let request = PlanRequest {
        choices: given.choices,
        names: &names,
        has_arguments: false,
        has_no_json: false,
    };
    Plan::of(given.alloc, request, system, err)
}

impl DocumentSource {
    /// Its text.
    pub fn text(&self) -> &str {
        self.document.text.as_str()
    }

    /// What its configuration says of it; nothing if that is refused.
    fn settings(&self, alloc: Global) -> Result<FileSettings<'_>, AllocError> {
        match self.plan.files.first() {
            Some(planned) => self.plan.settings(alloc, planned),
            None => Ok(FileSettings::none(alloc)),
        }
    }

    /// The flags of its patterns, and the levels of rules.
    fn patterns(&self, given: Settings<'_>) -> Result<EditedPatterns, AllocError> {
        let Settings { alloc, choices, .. } = given;
        let settings = self.settings(alloc)?;
        let flags = flags_with(choices, &settings);
        Ok(EditedPatterns::new(alloc, flags, levels_with(choices, &settings)))
    }

    /// How it has patterns; None if it has none.
    fn form<'s>(&'s self, given: Settings<'s>) -> Result<Option<FileFormat<'s>>, AllocError> {
        let Settings { alloc, choices, .. } = given;
        if choices.has_form {
            return Ok(Some(choices.form));
        }
        let settings = self.settings(alloc)?;
        if let Some(keys) = keys_with(choices, &settings) {
            return Ok(Some(FileFormat::Values(keys)));
        }
        let is_chosen = is_form_chosen(choices, &settings);
        Ok(form_of(
            self.document.language.as_str(),
            self.name.as_str(),
            is_chosen,
        ))
    }

    /// Whether it is too large for its patterns to be read.
    pub fn is_large(&self) -> bool {
        self.text().len() > MAX_BYTES
    }

    /// Visits its patterns, which are parsed under these flags, and returns whether one is passed over that is too long.
    pub fn visit<V: Visitor>(
        &self,
        given: Settings<'_>,
        flags: u32,
        visitor: &mut V,
    ) -> Result<bool, RunError> {
        let Some(form) = self.form(given)? else {
            return Ok(false);
        };
        let shape = FileShape {
            form,
            flags,
            has_grammars: true,
        };
        let mut reader = self.text().as_bytes();
        let mut short = ShortPatterns {
            visitor,
            has_long: false,
        };
        visit(
            given.alloc,
            shape,
            self.name.as_str(),
            &mut reader,
            &mut short,
        )?;
        Ok(short.has_long)
    }

    /// How its patterns are formatted.
    pub(crate) fn format(&self, given: Settings<'_>) -> Result<FormatSettings, AllocError> {
        let settings = self.settings(given.alloc)?;
        Ok(format_with(given.choices, &settings))
    }

    /// Whether its patterns may have several lines.
    pub(crate) fn has_several_lines(&self, given: Settings<'_>) -> Result<bool, AllocError> {
        Ok(match self.form(given)? {
            Some(FileFormat::Values(_) | FileFormat::Records(Ending::Null)) => true,
            Some(FileFormat::Records(Ending::Line) | FileFormat::Extracted) | None => false,
        })
    }
}

/// What a client opens, without its text.
#[derive(Clone, Copy)]
pub struct Opened<'a> {
    pub uri: &'a str,
    pub language: &'a str,
    pub version: i64,
}

impl OpenDocument {
    /// A document that is opened with this text. What is wrong with its configuration is written to `err`.
    pub fn open<S: System>(
        given: Settings<'_>,
        opened: Opened<'_>,
        text: String,
        system: &S,
        err: &mut Vec<u8>,
    ) -> Result<OpenDocument, RunError>
        ensures text { IfOk result (λ d. d.source.document.text ≡ text) }
    {
        let alloc = given.alloc;
        let name = match path_of(alloc, opened.uri)? {
            Some(path) => path,
            None => String::from_str(alloc, STANDARD_INPUT)?,
        };
        let plan = plan_of(given, name.as_str(), system, err)?;
        let document = Document {
            language: String::from_str(alloc, opened.language)?,
            version: opened.version,
            text,
        };
        let source = DocumentSource {
            document,
            name,
            plan,
        };
        let patterns = source.patterns(given)?;
        Ok(OpenDocument {
            source,
            patterns,
            known: KnownPatterns::none(alloc),
        })
    }

    /// Makes the changes, one after another, which lead to this version. After an error the document is as it was.
    pub fn change(
        &mut self,
        given: Settings<'_>,
        version: i64,
        changes: &[Change<'_>],
    ) -> Result<(), ChangeError>
        ensures ok { OnOk result (with_changes given.entry.encoding
            (chars (string_bytes self.old.source.document.text)) changes.now
            ≡ Some (chars (string_bytes self.new.source.document.text))) }
        ensures position { IsErrOf result ChangeError.Position → with_changes given.entry.encoding
            (chars (string_bytes self.old.source.document.text)) changes.now ≡ None }
        ensures err { OnErr result (self.new.source.document ≡ self.old.source.document) }
    {
        let Settings {
            alloc,
            encoding,
            ..
        } = given;
        let before = self
            .source
            .document
            .change(alloc, encoding, version, changes)?;
        self.known.change(before);
        Ok(())
    }

    /// Makes the text, which leads to this version, the one of the document.
    pub fn replace(&mut self, version: i64, text: String)
        ensures text { self.new.source.document.text ≡ text }
    {
        let before = self.source.document.replace(version, text);
        self.known.change(before);
    }

    /// Reads its configuration again. What is wrong with that is written to `err`.
    pub fn configure<S: System>(
        &mut self,
        given: Settings<'_>,
        system: &S,
        err: &mut Vec<u8>,
    ) -> Result<(), RunError> {
        self.source.plan = plan_of(given, self.source.name.as_str(), system, err)?;
        self.patterns = self.source.patterns(given)?;
        self.known = KnownPatterns::none(given.alloc);
        Ok(())
    }
}
