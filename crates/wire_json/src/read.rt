//! Lines of JSON, read.
ghost use Rattle.std.specs.Prelude.{◌≡◌, Some, Err, List, ℕ, IfOk, option_map};
ghost use Rattle.serde_json.specs.View.{view as data_of};
ghost use Rattle.serde_json.specs.Read.{read};
ghost use Rattle.edge_io.specs.Line.{IsLineOf};
ghost use Rattle.wire_json.specs.declared.message.LineRefusal.TheVariants.{BadField};
ghost use Rattle.wire_json.specs.Message.{read_message, message_of, operation_of, open_of, edit_of, close_of, hover_of, check_of, cancel_of, file_at, number_at};

use crate::message::{LineRefusal, Msg, Read};
use edge_io::{LINE_LIMIT, Line};
use py_base::{NoMemory, Place, Text};
use serde_json::Value;
use std::alloc::Global;
use std::str;

/// The longest name of a file, in bytes.
pub const FILE_LIMIT: usize = 4_096;

/// The largest number that a field may have.
pub const NUMBER_LIMIT: u64 = 4_294_967_295;

/// What a line says: a message, or the first refusal of 4, 1, 2 and 3 in this order, the fields of an
/// operation being tested in their order. `NoMemory` where it could not be stored.
#[tactic(auto, unfolding(crate::specs::Message::read_message))]
pub fn read_line(alloc: Global, line: &Line) -> Result<Read, NoMemory>
    ensures { IfOk result (λ said. (bytes : List ℕ) → IsLineOf line.now bytes → said ≡ read_message bytes) }
{
    match line {
        Line::Oversize => Ok(Err(LineRefusal::Oversize)),
        Line::Bytes(bytes) => read_bytes(alloc, bytes.as_slice()),
    }
}

#[tactic(auto, unfolding(crate::specs::Message::read_message))]
fn read_bytes(alloc: Global, bytes: &[u8]) -> Result<Read, NoMemory>
    ensures { IfOk result (λ said. said ≡ read_message bytes.now) }
{
    if bytes.len() > LINE_LIMIT {
        return Ok(Err(LineRefusal::Oversize));
    }
    match str::from_utf8(bytes) {
        Ok(text) => read_text(alloc, text),
        Err(_) => Ok(Err(LineRefusal::BadJson)),
    }
}

fn read_text(alloc: Global, text: &str) -> Result<Read, NoMemory>
    ensures { IfOk result (λ said. said ≡ message_of (read text.now)) }
{
    match Value::from_str(alloc, text) {
        Ok(value) => message_in(alloc, &value),
        Err(e) if e.is_memory() => Err(NoMemory),
        Err(_) => Ok(Err(LineRefusal::BadJson)),
    }
}

fn message_in(alloc: Global, value: &Value) -> Result<Read, NoMemory>
    ensures { IfOk result (λ said. said ≡ message_of (Some (data_of value.now))) }
{
    let Some(operation) = value.get("op").and_then(Value::as_str) else {
        return bad_field(alloc, "op");
    };
    operation_in(alloc, operation, value)
}

// What an operation with its fields says.
fn operation_in(alloc: Global, operation: &str, value: &Value) -> Result<Read, NoMemory>
    ensures { IfOk result (λ said. said ≡ operation_of operation.now (data_of value.now)) }
{
    match operation {
        "open" => open_in(alloc, value),
        "edit" => edit_in(alloc, value),
        "close" => close_in(alloc, value),
        "hover" => hover_in(alloc, value),
        "check" => check_in(alloc, value),
        "cancel" => cancel_in(alloc, value),
        "end" => Ok(Ok(Msg::End)),
        _ => Ok(Err(LineRefusal::UnknownOp)),
    }
}

fn open_in(alloc: Global, value: &Value) -> Result<Read, NoMemory>
    ensures { IfOk result (λ said. said ≡ open_of (data_of value.now)) }
{
    let Some(file) = file_field(value) else {
        return bad_field(alloc, "file");
    };
    let Some(version) = number_field(value, "version") else {
        return bad_field(alloc, "version");
    };
    let Some(text) = value.get("text").and_then(Value::as_str) else {
        return bad_field(alloc, "text");
    };
    let file = Text::from_str(alloc, file)?;
    let text = Text::from_str(alloc, text)?;
    Ok(Ok(Msg::Open(file, version, text)))
}

fn edit_in(alloc: Global, value: &Value) -> Result<Read, NoMemory>
    ensures { IfOk result (λ said. said ≡ edit_of (data_of value.now)) }
{
    let Some(file) = file_field(value) else {
        return bad_field(alloc, "file");
    };
    let Some(version) = number_field(value, "version") else {
        return bad_field(alloc, "version");
    };
    let Some(text) = value.get("text").and_then(Value::as_str) else {
        return bad_field(alloc, "text");
    };
    let file = Text::from_str(alloc, file)?;
    let text = Text::from_str(alloc, text)?;
    Ok(Ok(Msg::Edit(file, version, text)))
}

fn close_in(alloc: Global, value: &Value) -> Result<Read, NoMemory>
    ensures { IfOk result (λ said. said ≡ close_of (data_of value.now)) }
{
    let Some(file) = file_field(value) else {
        return bad_field(alloc, "file");
    };
    let file = Text::from_str(alloc, file)?;
    Ok(Ok(Msg::Close(file)))
}

fn hover_in(alloc: Global, value: &Value) -> Result<Read, NoMemory>
    ensures { IfOk result (λ said. said ≡ hover_of (data_of value.now)) }
{
    let Some(id) = number_field(value, "id") else {
        return bad_field(alloc, "id");
    };
    let Some(file) = file_field(value) else {
        return bad_field(alloc, "file");
    };
    let Some(line) = number_field(value, "line") else {
        return bad_field(alloc, "line");
    };
    let Some(col) = number_field(value, "col") else {
        return bad_field(alloc, "col");
    };
    let file = Text::from_str(alloc, file)?;
    Ok(Ok(Msg::Hover(id, file, Place { line, col })))
}

fn check_in(alloc: Global, value: &Value) -> Result<Read, NoMemory>
    ensures { IfOk result (λ said. said ≡ check_of (data_of value.now)) }
{
    let Some(id) = number_field(value, "id") else {
        return bad_field(alloc, "id");
    };
    let Some(file) = file_field(value) else {
        return bad_field(alloc, "file");
    };
    let file = Text::from_str(alloc, file)?;
    Ok(Ok(Msg::Check(id, file)))
}

fn cancel_in(alloc: Global, value: &Value) -> Result<Read, NoMemory>
    ensures { IfOk result (λ said. said ≡ cancel_of (data_of value.now)) }
{
    match number_field(value, "id") {
        Some(id) => Ok(Ok(Msg::Cancel(id))),
        None => bad_field(alloc, "id"),
    }
}

// The field `file`, where it has the form of a file's name.
fn file_field(value: &Value) -> Option<&str>
    ensures { option_map (λ s. s.now) result ≡ file_at (data_of value.now) }
{
    let name = value.get("file").and_then(Value::as_str)?;
    if name.is_empty() || name.len() > FILE_LIMIT {
        return None;
    }
    Some(name)
}

// The field of this name, where it has the form of a number.
fn number_field(value: &Value, key: &str) -> Option<u32>
    ensures { result ≡ number_at key.now (data_of value.now) }
{
    let number = value.get(key).and_then(Value::as_u64)?;
    if number > NUMBER_LIMIT {
        return None;
    }
    Some(number as u32)
}

// The refusal that names this field.
fn bad_field(alloc: Global, field: &str) -> Result<Read, NoMemory>
    ensures { IfOk result (λ said. said ≡ Err (BadField field.now)) }
{
    let field = Text::from_str(alloc, field)?;
    Ok(Err(LineRefusal::BadField(field)))
}
