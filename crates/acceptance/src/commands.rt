//! Commands. A case is a JSON object: `words` is a list of the words of the command line, and `input` a text, or `bytes` a list of
//! numbers. The answer is a JSON array: the status, the line for standard error, and the text that was written; or `unread`, where the
//! line is no case.

use crate::call::{Called, call};
use crate::ends::Ends;
use serde_json::{Value, json};
use std::alloc::{AllocError, Global};

/// The answer to a case.
pub(crate) fn answer(alloc: Global, line: &str) -> anyhow::Result<String> {
    let mut words = Vec::new(alloc);
    let mut ends = Ends::new(alloc);
    if read_case(alloc, line, &mut words, &mut ends.input)? {
        Ok(called_told(alloc, &call(alloc, &words, &ends)?)?)
    } else {
        Ok(String::from_str(alloc, "unread")?)
    }
}

// What the top call answers.
fn called_told(alloc: Global, called: &Called) -> Result<String, AllocError> {
    let line = called.outcome.to_string(alloc)?;
    told(
        alloc,
        called.outcome.status(),
        line.as_str(),
        &called.written,
    )
}

fn told(alloc: Global, status: u8, line: &str, written: &[u8]) -> Result<String, AllocError> {
    match std::str::from_utf8(written) {
        Ok(written) => json!(in alloc; [status, line, written])?.to_string(alloc),
        Err(_) => String::from_str(alloc, "no text was written"),
    }
}

// Reads the words and the input of a case; false where the line is none.
fn read_case(
    alloc: Global,
    line: &str,
    words: &mut Vec<String>,
    input: &mut Vec<u8>,
) -> Result<bool, AllocError> {
    match Value::from_str(alloc, line) {
        Ok(case) => Ok(read_words(alloc, &case, words)? && read_input(&case, input)?),
        Err(_) => Ok(false),
    }
}

fn read_words(alloc: Global, case: &Value, words: &mut Vec<String>) -> Result<bool, AllocError> {
    let Some(listed) = case.get("words").and_then(Value::as_array) else {
        return Ok(false);
    };
    for word in listed {
        match word.as_str() {
            Some(word) => words.push(String::from_str(alloc, word)?)?,
            None => return Ok(false),
        }
    }
    Ok(true)
}

fn read_input(case: &Value, input: &mut Vec<u8>) -> Result<bool, AllocError> {
    if let Some(text) = case.get("input").and_then(Value::as_str) {
        input.extend_from_slice(text.as_bytes())?;
        return Ok(true);
    }
    let Some(listed) = case.get("bytes").and_then(Value::as_array) else {
        return Ok(false);
    };
    for byte in listed {
        match byte.as_u64() {
            Some(byte) if byte < 256 => input.push(byte as u8)?,
            _ => return Ok(false),
        }
    }
    Ok(true)
}
