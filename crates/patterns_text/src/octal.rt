//! Digits after a backslash that other dialects read as the octal code of a character.
use std::fmt;

/// The greatest code that two hexadecimal digits have.
const MAX_CODE: u32 = 0xFF;

/// How many octal digits an escape has at most.
const MAX_DIGITS: usize = 3;

/// The character that other dialects read, as it is written here.
#[derive(Clone, Copy)]
pub struct Octal {
    /// Its code, if that is read from octal digits, and is at most FF.
    code: Option<u32>,
}

impl Octal {
    /// What the digits at the front of the text are read as.
    pub fn of(text: &str) -> Octal {
        let mut code = None;
        for c in text.chars().take(MAX_DIGITS) {
            let Some(digit) = c.to_digit(8) else {
                break;
            };
            code = Some(code.unwrap_or(0u32).saturating_mul(8).saturating_add(digit));
        }
        let is_code = matches!(code, Some(..=MAX_CODE));
        Octal {
            code: if is_code { code } else { None },
        }
    }
}

/// What to write.
impl fmt::Display for Octal {
    fn fmt<W: fmt::Write>(&self, f: &mut fmt::Formatter<W>) -> fmt::Result {
        match self.code {
            Some(code) => write!(f, r"write `\x{code:02X}`"),
            None => f.write_str(r"write the code in hexadecimal, as in `\x0D`"),
        }
    }
}
