//! The values in tables of a configuration. An error names the key of the value.
use crate::config_error::{Problem, TableError};
use std::alloc::Global;
use toml::{Table, Value};

/// That the value of the key is not as expected.
pub(crate) fn wrong_type(key: &'static str, expected: &'static str) -> TableError {
    TableError::Refused(Problem::WrongType { key, expected })
}

/// The text that a value is.
pub(crate) fn text_of<'t>(key: &'static str, value: &'t Value) -> Result<&'t str, TableError> {
    value.as_str().ok_or(wrong_type(key, "a string"))
}

/// Whether the value is true.
pub(crate) fn flag_of(key: &'static str, value: &Value) -> Result<bool, TableError> {
    value.as_bool().ok_or(wrong_type(key, "true or false"))
}

/// The number from 1 that the value is.
pub(crate) fn number_of(key: &'static str, value: &Value) -> Result<usize, TableError> {
    match value
        .as_integer()
        .and_then(|number| usize::try_from(number).ok())
    {
        Some(number) if number > 0 => Ok(number),
        Some(_) | None => Err(wrong_type(key, "a number from 1")),
    }
}

/// The texts of a list that the value is.
pub(crate) fn texts_of(
    alloc: Global,
    key: &'static str,
    value: &Value,
) -> Result<Vec<String>, TableError> {
    let Some(items) = value.as_array() else {
        return Err(wrong_type(key, "a list of strings"));
    };
    let mut texts = Vec::new(alloc);
    for item in items {
        let Some(text) = item.as_str() else {
            return Err(wrong_type(key, "a list of strings"));
        };
        texts.push(String::from_str(alloc, text)?)?;
    }
    Ok(texts)
}

/// The tables of a list that the value is.
pub(crate) fn tables_of<'t>(
    alloc: Global,
    key: &'static str,
    value: &'t Value,
) -> Result<Vec<&'t Table>, TableError> {
    let Some(items) = value.as_array() else {
        return Err(wrong_type(key, "a list of tables"));
    };
    let mut tables = Vec::new(alloc);
    for item in items {
        let Some(inner) = item.as_table() else {
            return Err(wrong_type(key, "a list of tables"));
        };
        tables.push(inner)?;
    }
    Ok(tables)
}
