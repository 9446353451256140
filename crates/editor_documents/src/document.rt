//! Documents that are open.
ghost use Rattle.std.specs.Prelude.{◌≡◌, chars, string_bytes, Some, None, IfOk, OnOk, OnErr, IsErrOf};
ghost use Rattle.editor_documents.specs.Change.{with_changes};
ghost use Rattle.editor_documents.specs.declared.change.ChangeError.{ChangeError};

use crate::change::{Change, ChangeError, with_changes};
use crate::position::Encoding;
use std::alloc::Global;
use std::mem;

/// A document that is open.
#[derive(Debug, Drop)]
pub struct Document {
    /// The language of its text, as its client calls it.
    pub language: String,
    /// The version that its client has given it.
    pub version: i64,
    pub text: String,
}

impl Document {
    /// Makes the changes, one after another, which lead to this version, and returns the text before them. After an error the
    /// document is as it was.
    pub fn change(
        &mut self,
        alloc: Global,
        encoding: Encoding,
        version: i64,
        changes: &[Change<'_>],
    ) -> Result<String, ChangeError>
        ensures ok { OnOk result (with_changes encoding (chars (string_bytes self.old.text)) changes.now
            ≡ Some (chars (string_bytes self.new.text))) }
        ensures before { IfOk result (λ before. before ≡ self.old.text) }
        ensures version { OnOk result (self.new.version ≡ version) }
        ensures language { self.new.language ≡ self.old.language }
        ensures position { IsErrOf result ChangeError.Position
            → with_changes encoding (chars (string_bytes self.old.text)) changes.now ≡ None }
        ensures err { OnErr result (self.new ≡ self.old) }
    {
        let text = with_changes(alloc, encoding, self.text.as_str(), changes)?;
        Ok(self.replace(version, text))
    }

    /// Makes the text, which leads to this version, the one of the document, and returns the text before.
    pub fn replace(&mut self, version: i64, text: String) -> String
        ensures text { self.new.text ≡ text }
        ensures before { result ≡ self.old.text }
        ensures version { self.new.version ≡ version }
        ensures language { self.new.language ≡ self.old.language }
    {
        self.version = version;
        mem::replace(&mut self.text, text)
    }
}
