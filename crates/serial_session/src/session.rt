//! The session of one thread: each line is taken, and what it opened is answered before the next.
ghost use Rattle.std.specs.Prelude.{◌≡◌, ◌≢◌, ◌≤◌, ◌+◌, ◌^◌, ◌<◌, [], ◌∷◌, ◌++◌, ℕ, List, OnOk, OnErr, IfOk, Result, Err, Ok, false, string_bytes, true};
ghost use Rattle.edge_io.specs.Stream.{behind};
ghost use Rattle.edge_io.specs.Line.{IsLineOf};
ghost use Rattle.py_base.specs.Causes.{Rose};
ghost use Rattle.serial_session.specs.declared.reply.Out.TheVariants.{Listed, Refused};
ghost use Rattle.serial_session.specs.declared.entry.Entry.TheVariants.{Line as TheLine, Publish};
ghost use Rattle.serial_session.specs.declared.message.Msg.TheVariants.{Open};
ghost use Rattle.serial_session.specs.Message.{read_message};
ghost use Rattle.serial_session.specs.Reply.{reply_text};
ghost use Rattle.serial_session.specs.Listing.{list_of};
ghost use Rattle.serial_session.specs.Journal.{says_end};
ghost use Rattle.serial_session.specs.Steps.{steps_of, step_of, opens, Partly, Took};

use crate::entry::Entry;
use crate::listing::list_text;
use crate::message::{LineRefusal, Msg, Read, read_line};
use crate::reply::{Out, write_out};
use edge_io::{Line, Sink, put_all};
use py_base::{List, NoMemory, Text};
use std::alloc::Global;

/// Why a session stops in the midst of a line.
#[derive(Clone, Copy, Debug, PartialEq, Eq)]
pub enum Broken {
    /// The sink failed.
    WriteFault,
    /// Memory was asked for and not had.
    Memory,
}

impl From<NoMemory> for Broken {
    ghost use Rattle.std.specs.Prelude.{◌≡◌};
    ghost use Rattle.serial_session.specs.declared.session.Broken.TheVariants.{Memory};

    ghost from_gives = { λ _ broken. broken ≡ Memory };

    fn from(_none: NoMemory) -> Broken {
        Broken::Memory
    }
}

/// A session: its journal, and whether a file is open.
#[derive(Drop)]
pub struct Session {
    pub journal: List<Entry>,
    pub opened: bool,
}

// Notes an entry in the journal, and then writes its text.
fn perform<K: Sink>(
    journal: &mut List<Entry>,
    entry: Entry,
    text: &[u8],
    sink: &mut K,
) -> Result<(), Broken>
    ensures noted { OnOk result (journal.new ≡ journal.old ++ entry ∷ []) }
    ensures written { OnOk result (K.written sink.new ≡ behind (K.written sink.old) text.now) }
    ensures broken { OnErr result (Partly (step_of entry text.now ∷ []) journal.old journal.new (K.written sink.old) (K.written sink.new)) }
    ensures later { K.faults sink.old ≤ K.faults sink.new }
    ensures cause { result ≡ Err Broken.WriteFault → Rose (K.faults sink.old) (K.faults sink.new) }
    ensures quiet { result ≢ Err Broken.WriteFault → K.faults sink.new ≡ K.faults sink.old }
{
    match journal.push(entry) {
        Ok(()) => {}
        Err(NoMemory) => return Err(Broken::Memory),
    }
    match put_all(sink, text) {
        Ok(()) => Ok(()),
        Err(_) => Err(Broken::WriteFault),
    }
}

// Notes that the version of a file is published, and writes its list.
#[tactic(auto, using(crate::proofs::Partials::partly_nothing))]
fn publish<K: Sink>(
    alloc: Global,
    journal: &mut List<Entry>,
    file: Text,
    version: u32,
    text: &str,
    sink: &mut K,
) -> Result<(), Broken>
    ensures noted { OnOk result (journal.new ≡ journal.old ++ Publish file version ∷ []) }
    ensures written { OnOk result (K.written sink.new ≡ behind (K.written sink.old) (reply_text (Listed file version (list_of text.now)))) }
    ensures broken { OnErr result (Partly (step_of (Publish file version) (reply_text (Listed file version (list_of text.now))) ∷ []) journal.old journal.new (K.written sink.old) (K.written sink.new)) }
    ensures later { K.faults sink.old ≤ K.faults sink.new }
    ensures cause { result ≡ Err Broken.WriteFault → Rose (K.faults sink.old) (K.faults sink.new) }
    ensures quiet { result ≢ Err Broken.WriteFault → K.faults sink.new ≡ K.faults sink.old }
{
    let list = list_text(alloc, text)?;
    let name = Text::from_str(alloc, file.as_str())?;
    let reply = write_out(alloc, &Out::Listed(file, version, list))?;
    perform(
        journal,
        Entry::Publish(name, version),
        reply.as_bytes(),
        sink,
    )
}

impl Session {
    /// A session that has taken no line.
    pub fn new(alloc: Global) -> Session
        ensures journal { result.journal ≡ [] }
        ensures opened { result.opened ≡ false }
    {
        Session {
            journal: List::new(alloc),
            opened: false,
        }
    }

    /// Takes the line of this number and answers what it opened, one reply a `put_all`. The answer
    /// is whether the line ends the session. `Broken` where the sink failed or memory was not had:
    /// some first steps of the line are in the journal then, and the beginning of their text is written.
    #[tactic(auto, using(crate::proofs::Partials::partly_nothing))]
    pub fn take_line<K: Sink>(
        &mut self,
        alloc: Global,
        number: u64,
        line: &Line,
        sink: &mut K,
    ) -> Result<bool, Broken>
        ensures took { (bytes : List ℕ) → IsLineOf line.now bytes → Took result (steps_of number self.old.opened (read_message bytes)) (says_end (read_message bytes)) self.old.journal self.new.journal (K.written sink.old) (K.written sink.new) }
        ensures opened { (bytes : List ℕ) → IsLineOf line.now bytes → OnOk result (self.new.opened ≡ opens self.old.opened (read_message bytes)) }
        ensures later { K.faults sink.old ≤ K.faults sink.new }
        ensures cause { result ≡ Err Broken.WriteFault → Rose (K.faults sink.old) (K.faults sink.new) }
        ensures quiet { result ≢ Err Broken.WriteFault → K.faults sink.new ≡ K.faults sink.old }
    {
        match read_line(alloc, line) {
            Ok(said) => self.take_read(alloc, number, said, sink),
            Err(NoMemory) => Err(Broken::Memory),
        }
    }

    fn take_read<K: Sink>(
        &mut self,
        alloc: Global,
        number: u64,
        said: Read,
        sink: &mut K,
    ) -> Result<bool, Broken>
        ensures took { Took result (steps_of number self.old.opened said) (says_end said) self.old.journal self.new.journal (K.written sink.old) (K.written sink.new) }
        ensures opened { OnOk result (self.new.opened ≡ opens self.old.opened said) }
        ensures later { K.faults sink.old ≤ K.faults sink.new }
        ensures cause { result ≡ Err Broken.WriteFault → Rose (K.faults sink.old) (K.faults sink.new) }
        ensures quiet { result ≢ Err Broken.WriteFault → K.faults sink.new ≡ K.faults sink.old }
    {
        match said {
            Err(refusal) => refuse(alloc, &mut self.journal, number, refusal, sink),
            Ok(Msg::End) => end(&mut self.journal, number, sink),
            Ok(Msg::Open(file, version, text)) => {
                self.take_open(alloc, number, file, version, text, sink)
            }
        }
    }

    fn take_open<K: Sink>(
        &mut self,
        alloc: Global,
        number: u64,
        file: Text,
        version: u32,
        text: Text,
        sink: &mut K,
    ) -> Result<bool, Broken>
        ensures took { Took result (steps_of number self.old.opened (Ok (Open file version text))) false self.old.journal self.new.journal (K.written sink.old) (K.written sink.new) }
        ensures opened { self.new.opened ≡ true }
        ensures later { K.faults sink.old ≤ K.faults sink.new }
        ensures cause { result ≡ Err Broken.WriteFault → Rose (K.faults sink.old) (K.faults sink.new) }
        ensures quiet { result ≢ Err Broken.WriteFault → K.faults sink.new ≡ K.faults sink.old }
    {
        if self.opened {
            return refuse(
                alloc,
                &mut self.journal,
                number,
                LineRefusal::UnknownOp,
                sink,
            );
        }
        self.opened = true;
        open_file(
            alloc,
            &mut self.journal,
            number,
            file,
            version,
            text.as_str(),
            sink,
        )
    }
}

// A line that says nothing to the session: its refusal is written.
#[tactic(auto, using(crate::proofs::Partials::partly_nothing))]
fn refuse<K: Sink>(
    alloc: Global,
    journal: &mut List<Entry>,
    number: u64,
    refusal: LineRefusal,
    sink: &mut K,
) -> Result<bool, Broken>
    ensures took { Took result (step_of (TheLine number) (reply_text (Refused number refusal)) ∷ []) false journal.old journal.new (K.written sink.old) (K.written sink.new) }
    ensures later { K.faults sink.old ≤ K.faults sink.new }
    ensures cause { result ≡ Err Broken.WriteFault → Rose (K.faults sink.old) (K.faults sink.new) }
    ensures quiet { result ≢ Err Broken.WriteFault → K.faults sink.new ≡ K.faults sink.old }
{
    let reply = write_out(alloc, &Out::Refused(number, refusal))?;
    match perform(journal, Entry::Line(number), reply.as_bytes(), sink) {
        Ok(()) => Ok(false),
        Err(broken) => Err(broken),
    }
}

// The line that ends the session.
fn end<K: Sink>(journal: &mut List<Entry>, number: u64, sink: &mut K) -> Result<bool, Broken>
    ensures took { Took result (step_of (TheLine number) [] ∷ []) true journal.old journal.new (K.written sink.old) (K.written sink.new) }
    ensures later { K.faults sink.old ≤ K.faults sink.new }
    ensures cause { result ≡ Err Broken.WriteFault → Rose (K.faults sink.old) (K.faults sink.new) }
    ensures quiet { result ≢ Err Broken.WriteFault → K.faults sink.new ≡ K.faults sink.old }
{
    match perform(journal, Entry::Line(number), b"", sink) {
        Ok(()) => Ok(true),
        Err(broken) => Err(broken),
    }
}

// A line that opens a file: its list is published.
fn open_file<K: Sink>(
    alloc: Global,
    journal: &mut List<Entry>,
    number: u64,
    file: Text,
    version: u32,
    text: &str,
    sink: &mut K,
) -> Result<bool, Broken>
    ensures took { Took result (steps_of number false (Ok (Open file version text.now))) false journal.old journal.new (K.written sink.old) (K.written sink.new) }
    ensures later { K.faults sink.old ≤ K.faults sink.new }
    ensures cause { result ≡ Err Broken.WriteFault → Rose (K.faults sink.old) (K.faults sink.new) }
    ensures quiet { result ≢ Err Broken.WriteFault → K.faults sink.new ≡ K.faults sink.old }
{
    match perform(journal, Entry::Line(number), b"", sink) {
        Ok(()) => {}
        Err(broken) => return Err(broken),
    }
    match publish(alloc, journal, file, version, text, sink) {
        Ok(()) => Ok(false),
        Err(broken) => Err(broken),
    }
}
