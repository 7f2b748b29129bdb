//! The parts of a log, as JSON values.

ghost use Rattle.std.specs.Prelude.{◌≤◌, length};

use percent_encoding::{AsciiSet, NON_ALPHANUMERIC, percent_encode};
use serde_json::{Value, json};
use std::alloc::{AllocError, Global};

/// Those bytes of a file's name that are escaped in a URI: all but letters, digits, and the marks that mean nothing there.
fn escaped() -> AsciiSet {
    NON_ALPHANUMERIC
        .remove(b'-')
        .remove(b'.')
        .remove(b'_')
        .remove(b'~')
        .remove(b'/')
}

/// The relative reference of a file's name (RFC 3986, 4.2).
fn uri_of(alloc: Global, name: &str) -> Result<String, AllocError> {
    let mut uri = String::new(alloc);
    percent_encode(name.as_bytes(), escaped()).append_to(&mut uri)?;
    Ok(uri)
}

/// `fault 26`.
fn rule_id(alloc: Global, number: u32) -> Result<String, AllocError> {
    format!(in alloc; "fault {number}")
}

/// Words of this program, which are ASCII.
fn words(bytes: &[u8]) -> &str {
    match str::from_utf8(bytes) {
        Ok(words) => words,
        Err(_) => "",
    }
}

/// What a fault is, in a few words.
fn title_of(number: u32) -> &'static str {
    match cli_explanations::fault(number) {
        Some(explanation) => words(explanation.title),
        None => "the text is refused",
    }
}

/// The title of a fault, and what was found, if that is told.
fn message_of(alloc: Global, number: u32, detail: &[u8]) -> Result<Value, AllocError> {
    let title = title_of(number);
    let detail = words(detail);
    let text = if detail.is_empty() {
        String::from_str(alloc, title)?
    } else {
        format!(in alloc; "{title}: {detail}")?
    };
    json!(in alloc; {"text": text})
}

/// The place of a fault: its file, and its line, if it has one.
fn location_of(alloc: Global, name: &str, line: usize) -> Result<Value, AllocError> {
    let uri = uri_of(alloc, name)?;
    let file = json!(in alloc; {"uri": uri})?;
    let place = if line == 0 {
        json!(in alloc; {"artifactLocation": file})?
    } else {
        json!(in alloc; {"artifactLocation": file, "region": {"startLine": line}})?
    };
    json!(in alloc; {"physicalLocation": place})
}

/// A fault of a program.
pub(crate) fn result_of(
    alloc: Global,
    name: &str,
    number: u32,
    line: usize,
    detail: &[u8],
) -> Result<Value, AllocError> {
    let rule = rule_id(alloc, number)?;
    let message = message_of(alloc, number, detail)?;
    let location = location_of(alloc, name, line)?;
    json!(in alloc; {"ruleId": rule, "level": "error", "message": message, "locations": [location]})
}

/// How many bytes are before the first blank line of a text, or how many it has.
fn before_blank(text: &[u8]) -> usize
    ensures { result ≤ length text.now }
{
    for end in 1..text.len() {
        if text[end - 1] == b'\n' && text[end] == b'\n' {
            return end - 1;
        }
    }
    text.len()
}

/// The second paragraph of an explanation, which states the rule.
fn stated(text: &[u8]) -> &[u8] {
    let title = before_blank(text);
    let rest = match &text[title..] {
        [_, _, rest @ ..] => rest,
        rest => rest,
    };
    let end = before_blank(rest);
    &rest[..end]
}

/// A rule that is broken: its title, the rule itself, and its whole explanation.
pub(crate) fn rule_of(alloc: Global, number: u32) -> Result<Value, AllocError> {
    let id = rule_id(alloc, number)?;
    let title = title_of(number);
    let (rule, help) = match cli_explanations::fault(number) {
        Some(explanation) => (words(stated(explanation.text)), words(explanation.text)),
        None => (title, title),
    };
    json!(in alloc; {"id": id, "shortDescription": {"text": title}, "fullDescription": {"text": rule}, "help": {"text": help}})
}

/// A file that can't be read.
pub(crate) fn notification_of(alloc: Global, name: &str) -> Result<Value, AllocError> {
    let text = format!(in alloc; "file: {name}")?;
    json!(in alloc; {"level": "error", "message": {"text": text}})
}

/// The program that made the log.
fn tool_of(alloc: Global, rules: Vec<Value>) -> Result<Value, AllocError> {
    json!(in alloc; {"driver": {"name": "jnirun", "version": "0.1.0", "rules": rules}})
}

/// What the program did: whether it read all files, and those that it couldn't read.
fn invocation_of(alloc: Global, notifications: Vec<Value>) -> Result<Value, AllocError> {
    let successful = notifications.is_empty();
    json!(in alloc; {"executionSuccessful": successful, "toolExecutionNotifications": notifications})
}

/// The log.
pub(crate) fn log_of(
    alloc: Global,
    rules: Vec<Value>,
    results: Vec<Value>,
    notifications: Vec<Value>,
) -> Result<Value, AllocError> {
    let tool = tool_of(alloc, rules)?;
    let invocation = invocation_of(alloc, notifications)?;
    let run = json!(in alloc; {"tool": tool, "invocations": [invocation], "results": results})?;
    json!(in alloc; {"$schema": "https://json.schemastore.org/sarif-2.1.0.json", "version": "2.1.0", "runs": [run]})
}
