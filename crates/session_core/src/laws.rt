//! What the machine's definitions imply, for the layers above. A law is a function that does nothing: its
//! contract is the fact, and whoever calls it knows the fact from there on.
ghost use Rattle.std.specs.Prelude.{◌≡◌, List};
ghost use Rattle.wire_json.specs.declared.message.WireStep.{WireStep};
ghost use Rattle.wire_json.specs.declared.reply.Out.{Out};
ghost use Rattle.session_core.specs.declared.entry.Entry.{Entry};
ghost use Rattle.session_core.specs.Journal.{Legal};

use crate::analyser::Analyser;

/// What a session writes is determined by its journal and its lines.
pub fn one_output<A: Analyser>(_analyser: &A)
    ensures { (lines : List WireStep) (journal : List Entry) (one other : List Out) → Legal A.has_list A.has_hover lines journal one → Legal A.has_list A.has_hover lines journal other → one ≡ other }
{}
