//! Replies: the lines that the session writes.
ghost use Rattle.std.specs.Prelude.{◌≡◌, ◌++◌, ◌∷◌, [], map, IfOk, string_bytes, false, ℕ, List};
ghost use Rattle.serde_json.specs.View.{view as data_of, items_view, items_of};
ghost use Rattle.serde_json.specs.Data.{array};
ghost use Rattle.serde_json.specs.Written.{compact_text, has_float};
ghost use Rattle.serial_session.specs.Reply.{natural, diag_data, list_data, refused_data, reply_data, reply_text};

use crate::message::LineRefusal;
use py_base::{Diag, List, NoMemory, Text};
use serde_json::{Value, json};
use std::alloc::{AllocError, Global};

/// A reply.
#[derive(Debug, Drop)]
pub enum Out {
    /// The list of a file's version.
    Listed(Text, u32, List<Diag>),
    /// The line of this number, counted from 0, was refused.
    Refused(u64, LineRefusal),
}

/// The bytes of a reply, with the LF that ends it.
#[tactic(auto, unfolding(crate::specs::Reply::reply_text))]
pub fn write_out(alloc: Global, out: &Out) -> Result<String, NoMemory>
    ensures { IfOk result (λ text. string_bytes text ≡ reply_text out.now) }
{
    let Ok(value) = reply_value(alloc, out) else {
        return Err(NoMemory);
    };
    line_text(alloc, &value).map_err(|_| NoMemory)
}

fn reply_value(alloc: Global, out: &Out) -> Result<Value, AllocError>
    ensures { IfOk result (λ value. data_of value ≡ reply_data out.now) }
{
    match out {
        Out::Listed(file, version, list) => {
            list_value(alloc, file.as_str(), *version, list.as_slice())
        }
        Out::Refused(line, refusal) => refused_value(alloc, *line, refusal),
    }
}

fn line_text(alloc: Global, value: &Value) -> Result<String, AllocError>
    requires { has_float (data_of value.now) ≡ false }
    ensures { IfOk result (λ text. string_bytes text ≡ compact_text (data_of value.now) ++ 10 ∷ []) }
{
    let mut text = value.to_string(alloc)?;
    text.push('\n')?;
    Ok(text)
}

fn numbers_value(alloc: Global, numbers: &[u32]) -> Result<Value, AllocError>
    ensures { IfOk result (λ value. data_of value ≡ array (items_of (map natural numbers.now))) }
{
    let mut values = Vec::new(alloc);
    for number in numbers {
        values.push(Value::from(*number))?;
    }
    Ok(Value::Array(values))
}

fn diags_value(alloc: Global, list: &[Diag]) -> Result<Value, AllocError>
    ensures { IfOk result (λ value. data_of value ≡ array (items_of (map diag_data list.now))) }
{
    let mut values = Vec::new(alloc);
    for diag in list {
        values.push(diag_value(alloc, diag)?)?;
    }
    Ok(Value::Array(values))
}

fn diag_value(alloc: Global, diag: &Diag) -> Result<Value, AllocError>
    ensures { IfOk result (λ value. data_of value ≡ diag_data diag.now) }
{
    let at = numbers_value(alloc, &diag.at)?;
    json!(in alloc; {"at": at, "rule": diag.rule.name(), "text": diag.text.as_str()})
}

fn list_value(alloc: Global, file: &str, version: u32, list: &[Diag]) -> Result<Value, AllocError>
    ensures { IfOk result (λ value. data_of value ≡ list_data file.now version list.now) }
{
    let diags = diags_value(alloc, list)?;
    json!(in alloc; {"file": file, "kind": "list", "list": diags, "version": version})
}

fn refused_value(alloc: Global, line: u64, refusal: &LineRefusal) -> Result<Value, AllocError>
    ensures { IfOk result (λ value. data_of value ≡ refused_data line refusal.now) }
{
    match refusal {
        LineRefusal::BadJson => {
            json!(in alloc; {"kind": "refused", "line": line, "name": "BadJson", "number": 1})
        }
        LineRefusal::BadField(field) => {
            json!(in alloc; {"field": field.as_str(), "kind": "refused", "line": line, "name": "BadField", "number": 2})
        }
        LineRefusal::UnknownOp => {
            json!(in alloc; {"kind": "refused", "line": line, "name": "UnknownOp", "number": 3})
        }
    }
}
