//! The entry and the reply of a finished job.
ghost use Rattle.std.specs.Prelude.{◌≡◌, ◌∷◌, [], IfOk, true};
ghost use Rattle.wire_json.specs.declared.reply.Out.TheVariants.{Listed, Unanswered, Unlisted};
ghost use Rattle.session_core.specs.declared.entry.Entry.TheVariants.{Publish, NoMemoryAnswer, NoMemoryPublish};
ghost use Rattle.session_core.specs.Parts.{IsAnswered};
ghost use Rattle.session_core.specs.Jobs.{is_answer};

use crate::analyser::Analyser;
use crate::entry::Entry;
use crate::job::{Done, Outcome, Work};
use py_base::{Diag, List, NoMemory, Text};
use std::alloc::Global;
use wire_json::Out;

/// The entry of a finished job over the text of this version, and its reply.
pub fn answer<A: Analyser>(
    alloc: Global,
    done: Done<A>,
    version: u32,
) -> Result<(Entry, List<Out>), NoMemory>
    requires { is_answer done.outcome ≡ true }
    ensures { IfOk result (IsAnswered version done.work done.outcome) }
{
    let Done { work, outcome, .. } = done;
    match work {
        Work::Hover(id, _) => match outcome {
            Outcome::Hovered(shown) => one(
                alloc,
                Entry::Answer(id),
                Out::Hovered(id, shown, version),
            ),
            Outcome::NoMemory => unanswered(alloc, id),
            Outcome::Listed(_) | Outcome::Cancelled => unreachable!(),
        },
        Work::Check(id) => match outcome {
            Outcome::Listed(list) => one(alloc, Entry::Answer(id), Out::Checked(id, list, version)),
            Outcome::NoMemory => unanswered(alloc, id),
            Outcome::Hovered(_) | Outcome::Cancelled => unreachable!(),
        },
        Work::Publish(file, of) => match outcome {
            Outcome::Listed(list) => published(alloc, file, of, list),
            Outcome::NoMemory => unlisted(alloc, file, of),
            Outcome::Hovered(_) | Outcome::Cancelled => unreachable!(),
        },
    }
}

// One entry and its reply.
fn one(alloc: Global, entry: Entry, out: Out) -> Result<(Entry, List<Out>), NoMemory>
    ensures entry { IfOk result (λ pair. pair.0 ≡ entry) }
    ensures outs { IfOk result (λ pair. pair.1 ≡ out ∷ []) }
{
    let mut outs = List::new(alloc);
    outs.push(out)?;
    Ok((entry, outs))
}

fn unanswered(alloc: Global, id: u32) -> Result<(Entry, List<Out>), NoMemory>
    ensures entry { IfOk result (λ pair. pair.0 ≡ NoMemoryAnswer id) }
    ensures outs { IfOk result (λ pair. pair.1 ≡ Unanswered id ∷ []) }
{
    one(alloc, Entry::NoMemoryAnswer(id), Out::Unanswered(id))
}

fn published(
    alloc: Global,
    file: Text,
    version: u32,
    list: List<Diag>,
) -> Result<(Entry, List<Out>), NoMemory>
    ensures entry { IfOk result (λ pair. pair.0 ≡ Publish file version) }
    ensures outs { IfOk result (λ pair. pair.1 ≡ Listed file list version ∷ []) }
{
    let name = file.copy(alloc)?;
    one(
        alloc,
        Entry::Publish(name, version),
        Out::Listed(file, list, version),
    )
}

fn unlisted(alloc: Global, file: Text, version: u32) -> Result<(Entry, List<Out>), NoMemory>
    ensures entry { IfOk result (λ pair. pair.0 ≡ NoMemoryPublish file version) }
    ensures outs { IfOk result (λ pair. pair.1 ≡ Unlisted file version ∷ []) }
{
    let name = file.copy(alloc)?;
    one(
        alloc,
        Entry::NoMemoryPublish(name, version),
        Out::Unlisted(file, version),
    )
}
