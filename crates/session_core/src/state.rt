//! What is open in a session, and what each line does to it.
ghost use Rattle.std.specs.Prelude.{◌≡◌, ◌<◌, ◌^◌, ◌++◌, ◌↔◌, false, IfOk, IsTrue, map};
ghost use Rattle.wire_json.specs.declared.message.WireStep.TheVariants.{Message};
ghost use Rattle.wire_json.specs.declared.message.Msg.TheVariants.{Open, Edit, Close, Cancel, End};
ghost use Rattle.wire_json.specs.declared.reply.By.TheVariants.{Edit as ByEdit};
ghost use Rattle.session_core.specs.Machine.{beginning, doc_of, refuse, pass, accept, ask, take_line, read_as, list_jobs, is_of_file, request_jobs, cancelled_outs};
ghost use Rattle.session_core.specs.Jobs.{waiting_requests, waiting_lists, open_job, close_work, handed_view};
ghost use Rattle.session_core.specs.Journal.{IsAtRest};
ghost use Rattle.session_core.specs.Parts.{Does, FitsAs};

use crate::analyser::Analyser;
use crate::files::{Files, all_published, close_file, list_jobs, mark_published, put_file};
use crate::fit::{Fit, fit_of};
use crate::job::{Done, Job, Work};
use crate::jobs::{push_list_jobs, push_request_jobs};
use crate::open_file::OpenFile;
use crate::refusals::refusal_of;
use crate::request::{Question, Request};
use crate::requests::{
    cancelled_by_edit, cancelled_by_request, close_of_file, close_of_id, push_jobs_of_file,
    push_jobs_of_id,
};
use crate::turn::Turn;
use indexmap::IndexMap;
use py_base::{List, NoMemory, Text};
use std::alloc::Global;
use std::marker::Model;
use wire_json::{Msg, Out, Read, Refusal};

/// What is open: a contract sees the state of the machine.
#[derive(Drop)]
pub struct State<A: Analyser> {
    taken: u64,
    ended: bool,
    made: u64,
    files: Files<A>,
    requests: Vec<Request>,
}

impl<A: Analyser> Model for State<A> {
    ghost use Rattle.std.specs.Prelude.{◌≤◌};
    ghost use Rattle.session_core.specs.Machine.{State as MachineState};

    ghost Value = { MachineState };

    ghost view = { λ s. record { taken = s.taken; ended = s.ended; made = s.made; docs = s.files.entries; requests = s.requests.items } };

    ghost invariant = { λ s. s.made ≤ s.taken };
}

impl<A: Analyser> State<A> {
    /// No line was taken.
    pub fn new(alloc: Global) -> State<A>
        ensures { result ≡ beginning }
    {
        State {
            taken: 0,
            ended: false,
            made: 0,
            files: IndexMap::new(alloc),
            requests: Vec::new(alloc),
        }
    }

    /// How many lines were taken.
    pub fn taken(&self) -> u64
        ensures { result ≡ self.now.taken }
    {
        self.taken
    }

    /// Takes a line.
    pub fn take_line(&mut self, alloc: Global, analyser: &A, line: Read) -> Result<Turn, NoMemory>
        requires { self.old.taken < 2 ^ 40 }
        ensures { IfOk result (Does (take_line self.old (read_as line)) self.old.ended self.new) }
    {
        match line {
            Err(refusal) => self.refuse(alloc, Refusal::Line(refusal)),
            Ok(message) => self.take_message(alloc, analyser, message),
        }
    }

    fn take_message(&mut self, alloc: Global, analyser: &A, message: Msg) -> Result<Turn, NoMemory>
        requires { self.old.taken < 2 ^ 40 }
        ensures { IfOk result (Does (take_line self.old (Message message)) self.old.ended self.new) }
    {
        match refusal_of(&self.files, self.requests.as_slice(), &message) {
            Some(refusal) => self.refuse(alloc, Refusal::Session(refusal)),
            None => self.accept(alloc, analyser, message),
        }
    }

    /// Takes a line that is no message of the session.
    pub fn skip(&mut self)
        requires { self.old.taken < 2 ^ 40 }
        ensures { self.new ≡ (pass self.old).state }
    {
        self.taken += 1;
    }

    // A refused line changes nothing.
    fn refuse(&mut self, alloc: Global, refusal: Refusal) -> Result<Turn, NoMemory>
        requires { self.old.taken < 2 ^ 40 }
        ensures { IfOk result (Does (refuse self.old refusal) self.old.ended self.new) }
    {
        let mut outs = List::new(alloc);
        outs.push(Out::Refused(self.taken, refusal))?;
        self.taken += 1;
        Ok(Turn {
            outs,
            given_up: List::new(alloc),
            ended: false,
        })
    }

    // A message that is not refused.
    fn accept(&mut self, alloc: Global, analyser: &A, message: Msg) -> Result<Turn, NoMemory>
        requires { self.old.taken < 2 ^ 40 }
        ensures { IfOk result (Does (accept self.old message) self.old.ended self.new) }
    {
        match message {
            Msg::Open(file, version, text) => self.open(alloc, analyser, file, version, text),
            Msg::Edit(file, version, text) => self.edit(alloc, analyser, file, version, text),
            Msg::Close(file) => self.close(alloc, file),
            Msg::Hover(id, file, place) => self.ask(alloc, id, file, Question::TypeAt(place)),
            Msg::Check(id, file) => self.ask(alloc, id, file, Question::Diagnostics),
            Msg::Cancel(id) => self.cancel(alloc, id),
            Msg::End => Ok(self.end(alloc)),
        }
    }

    fn open(
        &mut self,
        alloc: Global,
        analyser: &A,
        file: Text,
        version: u32,
        text: Text,
    ) -> Result<Turn, NoMemory>
        requires { self.old.taken < 2 ^ 40 }
        ensures { IfOk result (Does (accept self.old (Open file version text)) self.old.ended self.new) }
    {
        let doc = analyser.open(&text)?;
        let open = OpenFile::new(version, doc, self.made + 1);
        put_file(&mut self.files, file, open)?;
        self.taken += 1;
        self.made += 1;
        Ok(Turn::silent(alloc))
    }

    fn edit(
        &mut self,
        alloc: Global,
        analyser: &A,
        file: Text,
        version: u32,
        text: Text,
    ) -> Result<Turn, NoMemory>
        requires { self.old.taken < 2 ^ 40 }
        ensures { IfOk result (Does (accept self.old (Edit file version text)) self.old.ended self.new) }
    {
        let turn = leaving(alloc, &self.files, self.requests.as_slice(), &file)?;
        let doc = analyser.open(&text)?;
        let open = OpenFile::new(version, doc, self.made + 1);
        close_of_file(&mut self.requests, &file);
        put_file(&mut self.files, file, open)?;
        self.taken += 1;
        self.made += 1;
        Ok(turn)
    }

    fn close(&mut self, alloc: Global, file: Text) -> Result<Turn, NoMemory>
        requires { self.old.taken < 2 ^ 40 }
        ensures { IfOk result (Does (accept self.old (Close file)) self.old.ended self.new) }
    {
        let turn = leaving(alloc, &self.files, self.requests.as_slice(), &file)?;
        close_file(&mut self.files, &file);
        close_of_file(&mut self.requests, &file);
        self.taken += 1;
        Ok(turn)
    }

    fn ask(
        &mut self,
        alloc: Global,
        id: u32,
        file: Text,
        question: Question,
    ) -> Result<Turn, NoMemory>
        requires { self.old.taken < 2 ^ 40 }
        ensures { IfOk result (Does (ask self.old id file question) self.old.ended self.new) }
    {
        self.requests.push(Request {
            job: self.made + 1,
            id,
            file,
            question,
        })?;
        self.taken += 1;
        self.made += 1;
        Ok(Turn::silent(alloc))
    }

    fn cancel(&mut self, alloc: Global, id: u32) -> Result<Turn, NoMemory>
        requires { self.old.taken < 2 ^ 40 }
        ensures { IfOk result (Does (accept self.old (Cancel id)) self.old.ended self.new) }
    {
        let outs = cancelled_by_request(alloc, self.requests.as_slice(), id)?;
        let mut given_up = List::new(alloc);
        push_jobs_of_id(&mut given_up, self.requests.as_slice(), id)?;
        close_of_id(&mut self.requests, id);
        self.taken += 1;
        Ok(Turn {
            outs,
            given_up,
            ended: false,
        })
    }

    fn end(&mut self, alloc: Global) -> Turn
        requires { self.old.taken < 2 ^ 40 }
        ensures { Does (accept self.old End) self.old.ended self.new result }
    {
        self.taken += 1;
        self.ended = true;
        Turn {
            outs: List::new(alloc),
            given_up: List::new(alloc),
            ended: true,
        }
    }
}

impl<A: Analyser> State<A> {
    /// The open jobs that wait to be handed out: those above `handed`, and those in `back`.
    pub fn jobs(
        &mut self,
        alloc: Global,
        analyser: &A,
        handed: u64,
        back: &[u64],
    ) -> Result<List<Job<A::Doc>>, NoMemory>
        ensures same { self.new ≡ self.old }
        ensures jobs { IfOk result (λ jobs. map (handed_view A.text_of) jobs ≡ waiting_requests handed back.now self.old.docs self.old.requests ++ waiting_lists handed back.now self.old.docs) }
    {
        let mut jobs = List::new(alloc);
        push_request_jobs(
            &mut jobs,
            analyser,
            &mut self.files,
            self.requests.as_slice(),
            handed,
            back,
        )?;
        push_list_jobs(&mut jobs, alloc, analyser, &mut self.files, handed, back)?;
        Ok(jobs)
    }

    /// How many jobs were made.
    pub fn made(&self) -> u64
        ensures { result ≡ self.now.made }
    {
        self.made
    }

    /// What a finished job is to the open job of its number.
    pub fn fit(&self, analyser: &A, done: &Done<A>) -> Fit
        ensures { FitsAs (open_job self.now done.now.number) done.now result }
    {
        fit_of(analyser, &self.files, self.requests.as_slice(), done)
    }

    /// Closes what this work is for.
    pub fn close_work(&mut self, work: &Work)
        ensures { self.new ≡ close_work self.old work.now }
    {
        match work {
            Work::Hover(id, _) | Work::Check(id) => close_of_id(&mut self.requests, *id),
            Work::Publish(file, _) => mark_published(&mut self.files, file),
        }
    }

    /// Whether no request is open and no version waits for its list.
    pub fn is_at_rest(&self) -> bool
        ensures { IsTrue result ↔ IsAtRest self.now }
    {
        self.requests.is_empty() && all_published(&self.files)
    }
}

// The turn in which a file's version is left.
fn leaving<A: Analyser>(
    alloc: Global,
    files: &Files<A>,
    requests: &[Request],
    file: &Text,
) -> Result<Turn, NoMemory>
    ensures outs { IfOk result (λ turn. turn.outs ≡ cancelled_outs ByEdit (is_of_file file.now) requests.now) }
    ensures given_up { IfOk result (λ turn. turn.given_up ≡ list_jobs (doc_of files.now.entries file.now) ++ request_jobs (is_of_file file.now) requests.now) }
    ensures ended { IfOk result (λ turn. turn.ended ≡ false) }
{
    let outs = cancelled_by_edit(alloc, requests, file)?;
    let mut given_up = list_jobs(alloc, files, file)?;
    push_jobs_of_file(&mut given_up, requests, file)?;
    Ok(Turn {
        outs,
        given_up,
        ended: false,
    })
}
