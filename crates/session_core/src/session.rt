//! The session: the machine's state, its journal, and what is handed out.
ghost use Rattle.std.specs.Prelude.{◌≡◌, ◌<◌, ◌^◌, ◌↔◌, ◌∷◌, [], false, IfOk, IsTrue, OnErr, OnOk, map, IsPermutation, IsSorted, List, ℕ};
ghost use Rattle.std.specs.Ordering.{nat_cmp};
ghost use Rattle.wire_json.specs.declared.message.WireStep.TheVariants.{Reply};
ghost use Rattle.session_core.specs.Machine.{read_as};
ghost use Rattle.session_core.specs.Jobs.{handed_view};
ghost use Rattle.session_core.specs.Calls.{new_serving, behind_line, TakesTurn, Finishes, GoesOn, waiting_jobs, hand_out};
ghost use Rattle.session_core.specs.Journal.{IsAtRest};

use crate::analyser::Analyser;
use crate::answer::answer;
use crate::entry::Entry;
use crate::fit::Fit;
use crate::job::{Done, Job};
use crate::state::State;
use crate::turn::Turn;
use py_base::{List, NoMemory};
use std::alloc::Global;
use std::marker::Model;
use wire_json::{Out, Read};

/// A session over an analyser.
///
/// A contract sees the state of the session machine, the journal that led to it, and which open jobs wait
/// to be handed out. After `NoMemory` of a call the journal is as before, and the session is to be ended:
/// no further call but `journal` and `into_journal` is to be made.
#[derive(Drop)]
pub struct Session<A: Analyser> {
    alloc: Global,
    analyser: A,
    state: State<A>,
    journal: List<Entry>,
    handed: u64,
    back: List<u64>,
}

impl<A: Analyser> Model for Session<A> {
    ghost use Rattle.session_core.specs.Calls.{Serving};

    ghost Value = { Serving };

    ghost view = { λ s. record { state = s.state; journal = s.journal; handed = s.handed; back = s.back } };
}

impl<A: Analyser> Session<A> {
    /// A session that has taken no line.
    pub fn new(alloc: Global, analyser: A) -> Session<A>
        ensures { result ≡ new_serving }
    {
        Session {
            alloc,
            analyser,
            state: State::new(alloc),
            journal: List::new(alloc),
            handed: 0,
            back: List::new(alloc),
        }
    }

    /// Takes a line, as the message or the refusal that it reads as: the turn has its replies and the
    /// jobs that it closed. No earlier line was `end`, and fewer than 2^40 were taken.
    pub fn line(&mut self, line: Read) -> Result<Turn, NoMemory>
        requires going { self.old.state.ended ≡ false }
        requires few { self.old.state.taken < 2 ^ 40 }
        ensures turn { IfOk result (TakesTurn self.old (read_as line) self.new) }
        ensures steps { IfOk result (λ turn. GoesOn A.has_list A.has_hover self.old (read_as line ∷ []) turn.outs self.new) }
        ensures kept { OnErr result (self.new.journal ≡ self.old.journal) }
    {
        let number = self.state.taken();
        let mut turn = self.state.take_line(self.alloc, &self.analyser, line)?;
        self.journal.push(Entry::Line(number))?;
        turn.given_up = in_order(turn.given_up);
        Ok(turn)
    }

    /// Takes a line that is no message of the session, whatever a wire answers to it: the line has its
    /// entry, and nothing else changes. The conditions are those of `line`.
    pub fn skip(&mut self) -> Result<(), NoMemory>
        requires going { self.old.state.ended ≡ false }
        requires few { self.old.state.taken < 2 ^ 40 }
        ensures passes { OnOk result ((reply : List ℕ) → self.new ≡ behind_line self.old (Reply reply)) }
        ensures steps { OnOk result ((reply : List ℕ) → GoesOn A.has_list A.has_hover self.old (Reply reply ∷ []) [] self.new) }
        ensures kept { OnErr result (self.new.journal ≡ self.old.journal) }
    {
        let number = self.state.taken();
        self.journal.push(Entry::Line(number))?;
        self.state.skip();
        Ok(())
    }

    /// Hands out the open jobs that were made, or came back undone, since jobs were handed out last:
    /// those of requests in the order of acceptance, then those of versions in the order of files.
    pub fn jobs(&mut self) -> Result<List<Job<A::Doc>>, NoMemory>
        ensures jobs { IfOk result (λ jobs. map (handed_view A.text_of) jobs ≡ waiting_jobs self.old) }
        ensures leads { OnOk result (self.new ≡ hand_out self.old) }
        ensures kept { OnErr result (self.new.journal ≡ self.old.journal) }
    {
        let jobs = self.state.jobs(
            self.alloc,
            &self.analyser,
            self.handed,
            self.back.as_slice(),
        )?;
        self.handed = self.state.made();
        self.back = List::new(self.alloc);
        Ok(jobs)
    }

    /// Takes a finished job: its reply, where it is an open job, done. Where it was given up, or is of
    /// another text or work, the job waits to be handed out again. One that is no open job is dropped.
    pub fn finished(&mut self, done: Done<A>) -> Result<List<Out>, NoMemory>
        ensures finishes { IfOk result (λ outs. Finishes self.old done outs self.new) }
        ensures steps { IfOk result (λ outs. GoesOn A.has_list A.has_hover self.old [] outs self.new) }
        ensures kept { OnErr result (self.new.journal ≡ self.old.journal) }
    {
        match self.state.fit(&self.analyser, &done) {
            Fit::NoJob => Ok(List::new(self.alloc)),
            Fit::Undone => {
                self.back.push(done.number)?;
                Ok(List::new(self.alloc))
            }
            Fit::Done(version) => {
                self.state.close_work(&done.work);
                let (entry, outs) = answer(self.alloc, done, version)?;
                self.journal.push(entry)?;
                Ok(outs)
            }
        }
    }

    /// Whether no request is open and no version waits for its list.
    pub fn is_idle(&self) -> bool
        ensures { IsTrue result ↔ IsAtRest self.now.state }
    {
        self.state.is_at_rest()
    }

    /// What the session did.
    pub fn journal(&self) -> &[Entry]
        ensures { result.now ≡ self.now.journal }
    {
        self.journal.as_slice()
    }

    /// What the session did, without memory.
    pub fn into_journal(self) -> List<Entry>
        ensures { result ≡ self.journal }
    {
        let Session { journal, .. } = self;
        journal
    }
}

// The same numbers in rising order.
fn in_order(numbers: List<u64>) -> List<u64>
    ensures same { IsPermutation numbers result }
    ensures rising { IsSorted nat_cmp result }
{
    let mut numbers = numbers.into_vec();
    numbers.sort_unstable();
    List::from_vec(numbers)
}
