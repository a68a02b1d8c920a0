//! Replies, written as lines of JSON.
ghost use Rattle.std.specs.Prelude.{◌≡◌, ◌++◌, ◌∷◌, [], map, IfOk, string_bytes, false};
ghost use Rattle.serde_json.specs.View.{view as data_of, items_of};
ghost use Rattle.serde_json.specs.Data.{array, object};
ghost use Rattle.serde_json.specs.Written.{compact_text, has_float};
ghost use Rattle.wire_json.specs.Reply.{natural, diag_data, diags_data, list_data, unlisted_data, hover_data, check_data, by_name, cancelled_data, unanswered_data, refused_members, line_refused_data, session_refused_data, refused_data, reply_data, reply_text};

use crate::message::LineRefusal;
use crate::reply::{By, Out, Refusal, SessionRefusal};
use py_base::{Diag, List, NoMemory, Text};
use serde_json::{Value, json};
use std::alloc::{AllocError, Global};

/// The bytes of a reply, with the LF that ends it. `NoMemory` where they could not be stored.
#[tactic(auto, unfolding(crate::specs::Reply::reply_text))]
pub fn write_out(alloc: Global, out: &Out) -> Result<List<u8>, NoMemory>
    ensures { IfOk result (λ bytes. bytes ≡ reply_text out.now) }
{
    let value = reply_value(alloc, out)?;
    let text = line_text(alloc, &value)?;
    Ok(List::from_vec(text.into_bytes()))
}

fn reply_value(alloc: Global, out: &Out) -> Result<Value, AllocError>
    ensures { IfOk result (λ value. data_of value ≡ reply_data out.now) }
{
    match out {
        Out::Listed(file, list, version) => {
            list_value(alloc, file.as_str(), list.as_slice(), *version)
        }
        Out::Hovered(id, shown, version) => hover_value(alloc, *id, shown, *version),
        Out::Checked(id, list, version) => check_value(alloc, *id, list.as_slice(), *version),
        Out::Cancelled(by, id) => cancelled_value(alloc, *by, *id),
        Out::Unanswered(id) => unanswered_value(alloc, *id),
        Out::Unlisted(file, version) => unlisted_value(alloc, file.as_str(), *version),
        Out::Refused(line, refusal) => refused_value(alloc, *line, refusal),
    }
}

fn line_text(alloc: Global, value: &Value) -> Result<String, AllocError>
    requires { has_float (data_of value.now) ≡ false }
    ensures { IfOk result (λ text. string_bytes text ≡ compact_text (data_of value.now) ++ 10 ∷ []) }
{
    let mut text = value.to_string(alloc)?;
    text.push('\n')?;
    Ok(text)
}

fn numbers_value(alloc: Global, numbers: &[u32]) -> Result<Value, AllocError>
    ensures { IfOk result (λ value. data_of value ≡ array (items_of (map natural numbers.now))) }
{
    let mut values = Vec::new(alloc);
    for number in numbers {
        values.push(Value::from(*number))?;
    }
    Ok(Value::Array(values))
}

fn diags_value(alloc: Global, list: &[Diag]) -> Result<Value, AllocError>
    ensures { IfOk result (λ value. data_of value ≡ diags_data list.now) }
{
    let mut values = Vec::new(alloc);
    for diag in list {
        values.push(diag_value(alloc, diag)?)?;
    }
    Ok(Value::Array(values))
}

fn diag_value(alloc: Global, diag: &Diag) -> Result<Value, AllocError>
    ensures { IfOk result (λ value. data_of value ≡ diag_data diag.now) }
{
    let at = numbers_value(alloc, &diag.at)?;
    json!(in alloc; {"at": at, "rule": diag.rule.name(), "text": diag.text.as_str()})
}

fn list_value(alloc: Global, file: &str, list: &[Diag], version: u32) -> Result<Value, AllocError>
    ensures { IfOk result (λ value. data_of value ≡ list_data file.now list.now version) }
{
    let diags = diags_value(alloc, list)?;
    json!(in alloc; {"file": file, "kind": "list", "list": diags, "version": version})
}

fn unlisted_value(alloc: Global, file: &str, version: u32) -> Result<Value, AllocError>
    ensures { IfOk result (λ value. data_of value ≡ unlisted_data file.now version) }
{
    json!(in alloc; {"file": file, "kind": "nomemory", "version": version})
}

fn hover_value(
    alloc: Global,
    id: u32,
    shown: &Option<Text>,
    version: u32,
) -> Result<Value, AllocError>
    ensures { IfOk result (λ value. data_of value ≡ hover_data id shown.now version) }
{
    match shown {
        Some(text) => {
            json!(in alloc; {"id": id, "kind": "hover", "type": text.as_str(), "version": version})
        }
        None => json!(in alloc; {"id": id, "kind": "hover", "type": null, "version": version}),
    }
}

fn check_value(alloc: Global, id: u32, list: &[Diag], version: u32) -> Result<Value, AllocError>
    ensures { IfOk result (λ value. data_of value ≡ check_data id list.now version) }
{
    let diags = diags_value(alloc, list)?;
    json!(in alloc; {"id": id, "kind": "check", "list": diags, "version": version})
}

fn by_name(by: By) -> &'static str
    ensures { result.now ≡ by_name by }
{
    match by {
        By::Request => "request",
        By::Edit => "edit",
    }
}

fn cancelled_value(alloc: Global, by: By, id: u32) -> Result<Value, AllocError>
    ensures { IfOk result (λ value. data_of value ≡ cancelled_data by id) }
{
    json!(in alloc; {"by": by_name(by), "id": id, "kind": "cancelled"})
}

fn unanswered_value(alloc: Global, id: u32) -> Result<Value, AllocError>
    ensures { IfOk result (λ value. data_of value ≡ unanswered_data id) }
{
    json!(in alloc; {"id": id, "kind": "nomemory"})
}

fn refused_value(alloc: Global, line: u64, refusal: &Refusal) -> Result<Value, AllocError>
    ensures { IfOk result (λ value. data_of value ≡ refused_data line refusal.now) }
{
    match refusal {
        Refusal::Line(refusal) => line_refused_value(alloc, line, refusal),
        Refusal::Session(refusal) => session_refused_value(alloc, line, *refusal),
    }
}

fn line_refused_value(alloc: Global, line: u64, refusal: &LineRefusal) -> Result<Value, AllocError>
    ensures { IfOk result (λ value. data_of value ≡ line_refused_data line refusal.now) }
{
    match refusal {
        LineRefusal::BadJson => plain_value(alloc, line, "BadJson", 1),
        LineRefusal::BadField(field) => {
            json!(in alloc; {"field": field.as_str(), "kind": "refused", "line": line, "name": "BadField", "number": 2})
        }
        LineRefusal::UnknownOp => plain_value(alloc, line, "UnknownOp", 3),
        LineRefusal::Oversize => plain_value(alloc, line, "Oversize", 4),
    }
}

fn session_refused_value(
    alloc: Global,
    line: u64,
    refusal: SessionRefusal,
) -> Result<Value, AllocError>
    ensures { IfOk result (λ value. data_of value ≡ session_refused_data line refusal) }
{
    match refusal {
        SessionRefusal::UnknownFile => plain_value(alloc, line, "UnknownFile", 5),
        SessionRefusal::AlreadyOpen => plain_value(alloc, line, "AlreadyOpen", 6),
        SessionRefusal::StaleVersion(have) => {
            json!(in alloc; {"have": have, "kind": "refused", "line": line, "name": "StaleVersion", "number": 7})
        }
        SessionRefusal::TooManyFiles => plain_value(alloc, line, "TooManyFiles", 8),
        SessionRefusal::IdInUse => plain_value(alloc, line, "IdInUse", 9),
        SessionRefusal::TooManyRequests => plain_value(alloc, line, "TooManyRequests", 10),
    }
}

// A refusal with no key of its own.
fn plain_value(alloc: Global, line: u64, name: &str, number: u32) -> Result<Value, AllocError>
    ensures { IfOk result (λ value. data_of value ≡ object (refused_members line name.now number)) }
{
    json!(in alloc; {"kind": "refused", "line": line, "name": name, "number": number})
}
