//! Messages: what a line of a session says.
ghost use Rattle.std.specs.Prelude.{◌≡◌, Some, None, Ok, Err, codes, List, ℕ, IfOk, option_map};
ghost use Rattle.serde_json.specs.View.{view as data_of};
ghost use Rattle.serde_json.specs.Read.{read};
ghost use Rattle.edge_io.specs.Line.{IsLineOf};
ghost use Rattle.serial_session.specs.declared.message.LineRefusal.TheVariants.{BadField};
ghost use Rattle.serial_session.specs.Message.{read_message, message_of, open_with_file, file_at, number_at};

use edge_io::{LINE_LIMIT, Line};
use py_base::{NoMemory, Text};
use serde_json::Value;
use std::alloc::Global;
use std::str;
use thiserror::Error;

/// The longest name of a file, in bytes.
pub const FILE_LIMIT: usize = 4_096;

/// The largest number that a field may have.
pub const NUMBER_LIMIT: u64 = 4_294_967_295;

/// What a line asks for.
#[derive(Debug, Drop)]
pub enum Msg {
    /// To open the file of this name, with its version and its text.
    Open(Text, u32, Text),
    /// To end the session.
    End,
}

/// Why a line asks for nothing.
#[derive(Debug, Drop, Error)]
pub enum LineRefusal {
    /// The line is no JSON, or longer than a line may be.
    #[error("the line is no JSON")]
    BadJson,
    /// The first field that is missing or of another form.
    #[error("the field {0} is missing or of another form")]
    BadField(Text),
    /// The operation is none of the session's.
    #[error("the operation is not known")]
    UnknownOp,
}

/// A message, or why there is none.
pub type Read = Result<Msg, LineRefusal>;

/// What a line says.
#[tactic(auto, unfolding(crate::specs::Message::read_message))]
pub fn read_line(alloc: Global, line: &Line) -> Result<Read, NoMemory>
    ensures { IfOk result (λ said. (bytes : List ℕ) → IsLineOf line.now bytes → said ≡ read_message bytes) }
{
    match line {
        Line::Oversize => Ok(Err(LineRefusal::BadJson)),
        Line::Bytes(bytes) => read_bytes(alloc, bytes.as_slice()),
    }
}

#[tactic(auto, unfolding(crate::specs::Message::read_message))]
fn read_bytes(alloc: Global, bytes: &[u8]) -> Result<Read, NoMemory>
    ensures { IfOk result (λ said. said ≡ read_message bytes.now) }
{
    if bytes.len() > LINE_LIMIT {
        return Ok(Err(LineRefusal::BadJson));
    }
    match str::from_utf8(bytes) {
        Ok(text) => read_text(alloc, text),
        Err(_) => Ok(Err(LineRefusal::BadJson)),
    }
}

fn read_text(alloc: Global, text: &str) -> Result<Read, NoMemory>
    ensures { IfOk result (λ said. said ≡ message_of (read text.now)) }
{
    match Value::from_str(alloc, text) {
        Ok(value) => message_in(alloc, &value),
        Err(e) if e.is_memory() => Err(NoMemory),
        Err(_) => Ok(Err(LineRefusal::BadJson)),
    }
}

fn message_in(alloc: Global, value: &Value) -> Result<Read, NoMemory>
    ensures { IfOk result (λ said. said ≡ message_of (Some (data_of value.now))) }
{
    let Some(operation) = value.get("op").and_then(Value::as_str) else {
        return bad_field(alloc, "op");
    };
    if operation == "open" {
        return open_in(alloc, value);
    }
    if operation == "end" {
        return Ok(Ok(Msg::End));
    }
    Ok(Err(LineRefusal::UnknownOp))
}

fn open_in(alloc: Global, value: &Value) -> Result<Read, NoMemory>
    ensures { IfOk result (λ said. said ≡ open_with_file (data_of value.now) (file_at (data_of value.now))) }
{
    let Some(file) = file_field(value) else {
        return bad_field(alloc, "file");
    };
    let Some(version) = version_field(value) else {
        return bad_field(alloc, "version");
    };
    let Some(text) = value.get("text").and_then(Value::as_str) else {
        return bad_field(alloc, "text");
    };
    let file = Text::from_str(alloc, file)?;
    let text = Text::from_str(alloc, text)?;
    Ok(Ok(Msg::Open(file, version, text)))
}

// The field `file`, where it has the form of a file's name.
fn file_field(value: &Value) -> Option<&str>
    ensures { option_map (λ s. s.now) result ≡ file_at (data_of value.now) }
{
    let name = value.get("file").and_then(Value::as_str)?;
    if name.is_empty() || name.len() > FILE_LIMIT {
        return None;
    }
    Some(name)
}

// The field `version`, where it has the form of a number.
fn version_field(value: &Value) -> Option<u32>
    ensures { result ≡ number_at (codes "version") (data_of value.now) }
{
    let number = value.get("version").and_then(Value::as_u64)?;
    if number > NUMBER_LIMIT {
        return None;
    }
    Some(number as u32)
}

// The refusal that names this field.
fn bad_field(alloc: Global, field: &str) -> Result<Read, NoMemory>
    ensures { IfOk result (λ said. said ≡ Err (BadField field.now)) }
{
    let field = Text::from_str(alloc, field)?;
    Ok(Err(LineRefusal::BadField(field)))
}
