//! How files have patterns.
use crate::lines::Ending;
use crate::values::keys::Keys;
use std::path::Path;

/// How a file has patterns.
#[derive(Clone, Copy)]
pub enum FileFormat<'a> {
    /// It consists of them; each ends so.
    Records(Ending),
    /// It is JSON, and its texts under these keys are patterns.
    Values(Keys<'a>),
    /// Each line is a record of JSON, which has a pattern and where it is in a source.
    Extracted,
}

impl<'a> FileFormat<'a> {
    /// What a pattern ends with that is written. One that is a text of JSON ends with its line.
    pub fn ending(self) -> Ending {
        match self {
            FileFormat::Records(ending) => ending,
            FileFormat::Values(_) | FileFormat::Extracted => Ending::Line,
        }
    }

    /// The keys that the arguments name, under which texts of JSON are patterns.
    pub fn named_keys(self) -> &'a [&'a str] {
        let FileFormat::Values(keys) = self else {
            return &[];
        };
        keys.named
    }
}

/// What the name of a file says of how it has patterns.
#[derive(Clone, Copy)]
pub enum NamedFormat {
    /// Each line is a pattern.
    Lines,
    Json,
    /// It is a property list or YAML, whose patterns have to be extracted.
    Extracted,
    /// Nothing: it may be a source.
    Unknown,
}

/// What names with these extensions say, in capitals or not.
static EXTENSIONS: [(&str, NamedFormat); 13] = [
    ("txt", NamedFormat::Lines),
    ("patterns", NamedFormat::Lines),
    ("regex", NamedFormat::Lines),
    ("regexp", NamedFormat::Lines),
    ("re", NamedFormat::Lines),
    ("lst", NamedFormat::Lines),
    ("list", NamedFormat::Lines),
    ("json", NamedFormat::Json),
    ("tmLanguage", NamedFormat::Extracted),
    ("plist", NamedFormat::Extracted),
    ("sublime-syntax", NamedFormat::Extracted),
    ("yaml", NamedFormat::Extracted),
    ("yml", NamedFormat::Extracted),
];

/// That a file of JSON is read as lines, and how it can be read.
const ADVICE_ON_JSON: &str =
    "each line is read as a pattern; with --textmate or --keys, check, lint, groups and format read JSON";

/// That a file is read as lines whose format is read as records, and how it can be.
const ADVICE_ON_EXTRACTED: &str =
    "each line is read as a pattern; --records reads what python -m fancy extract finds in it";

/// Why lines are not written to a file of JSON, and how its patterns can be.
const REFUSAL_OF_JSON: &str = "not written, since its name is not that of a file of patterns: \
use --textmate or --keys for the patterns in JSON, or --lines if each line is a pattern";

/// Why lines are not written to a file of another format, and how its patterns can be.
const REFUSAL_OF_SOURCE: &str = "not written, since its name is not that of a file of patterns: \
use --records for the patterns in a source, or --lines if each line is a pattern";

impl NamedFormat {
    /// What the name of a file says. One without an extension is that of a file of patterns.
    pub fn of(file: &str) -> NamedFormat {
        let Some(extension) = Path::new(file).extension() else {
            return NamedFormat::Lines;
        };
        for (known, format) in EXTENSIONS.iter() {
            if extension.eq_ignore_ascii_case(known) {
                return *format;
            }
        }
        NamedFormat::Unknown
    }

    /// What is said of a file with such a name that is read as lines; none if nothing is.
    pub fn advice(self) -> Option<&'static str> {
        match self {
            NamedFormat::Json => Some(ADVICE_ON_JSON),
            NamedFormat::Extracted => Some(ADVICE_ON_EXTRACTED),
            NamedFormat::Lines | NamedFormat::Unknown => None,
        }
    }

    /// Why lines are not written to a file with such a name, unless that is chosen; none if they are.
    pub fn refusal(self) -> Option<&'static str> {
        match self {
            NamedFormat::Lines => None,
            NamedFormat::Json => Some(REFUSAL_OF_JSON),
            NamedFormat::Extracted | NamedFormat::Unknown => Some(REFUSAL_OF_SOURCE),
        }
    }
}
