//! The questions that are asked, each once, with what each needs.
ghost use Rattle.std.specs.Prelude.{◌≡◌, ◌≤◌, ◌<◌, ℕ, [], true, length, IfOk, IfSome, OnOk};
ghost use Rattle.std.specs.Ordering.{is_eq};
ghost use Rattle.type_terms.specs.Asked.{Cancels};
ghost use Rattle.assign_rules.specs.declared.question.Question.{Question};
ghost use Rattle.assign_rules.specs.Members.{table_of};
ghost use Rattle.assign_rules.specs.Accepts.{SameTest};
ghost use Rattle.assign_rules.specs.Places.{IsAt, WayAt, WaysAt, ClausesAt, IsGrown, IsNoted, AreTold};

use crate::class_goes::ClassGoes;
use crate::clauses::clauses_of;
use crate::question::Question;
use crate::rules::Rules;
use py_base::{List, NoMemory, Stop};
use std::alloc::Global;
use std::cmp::Ordering;
use type_terms::Atom;
use type_terms::facts::Facts;
use type_terms::view::Types;

/// What a question needs: one way of each clause, and of a way all questions, each by its place among those that are asked.
pub(crate) type Clauses = List<List<List<usize>>>;

/// The questions that are asked so far.
#[derive(Drop)]
pub(crate) struct Asked {
    pub(crate) questions: List<Question>,
    /// What the first so many of them need.
    pub(crate) clauses: List<Clauses>,
    // Their places in the order of the questions, to find one quickly.
    order: Vec<usize>,
}

/// The order of two pairs of types, by the first one.
fn compare_pairs(low: &[Atom], high: &[Atom], source: &[Atom], target: &[Atom]) -> Ordering
    ensures { is_eq result ≡ true → (low.now ≡ source.now) × (high.now ≡ target.now) }
{
    match low.cmp(source) {
        Ordering::Equal => high.cmp(target),
        decided => decided,
    }
}

/// The order of two questions.
fn compare(left: &Question, right: &Question) -> Ordering
    ensures { is_eq result ≡ true → left.now ≡ right.now }
{
    match (left, right) {
        (Question::Accepted(low, high), Question::Accepted(source, target)) => compare_pairs(
            low.as_slice(),
            high.as_slice(),
            source.as_slice(),
            target.as_slice(),
        ),
        (Question::Same(one, other), Question::Same(own, others)) => compare_pairs(
            one.as_slice(),
            other.as_slice(),
            own.as_slice(),
            others.as_slice(),
        ),
        (Question::Accepted(_, _), Question::Same(_, _)) => Ordering::Less,
        (Question::Same(_, _), Question::Accepted(_, _)) => Ordering::Greater,
    }
}

impl Asked {
    /// One question, of which it isn't known yet what it needs.
    pub(crate) fn new(alloc: Global, first: Question) -> Result<Asked, NoMemory>
        ensures { IfOk result (λ asked. IsAt asked.questions first 0 × (asked.clauses ≡ [])) }
    {
        let mut questions = List::new(alloc);
        questions.push(first)?;
        let mut order = Vec::new(alloc);
        order.push(0)?;
        Ok(Asked {
            questions,
            clauses: List::new(alloc),
            order,
        })
    }

    /// Where a question at a place stands to another.
    fn compare_at(&self, place: usize, question: &Question) -> Ordering
        ensures { is_eq result ≡ true → IsAt self.now.questions question.now place }
    {
        match self.questions.get(place) {
            Some(there) => compare(there, question),
            None => Ordering::Greater,
        }
    }

    /// How many questions stand before one in the order of questions.
    fn rank(&self, question: &Question) -> usize
        ensures { result ≤ length self.now.order.items }
    {
        self.order
            .as_slice()
            .partition_point(|place| self.compare_at(*place, question).is_lt())
    }

    /// The place of a question that was asked before, looked for at one place of the order.
    fn known_place(&self, rank: usize, question: &Question) -> Option<usize>
        ensures { IfSome result (IsAt self.now.questions question.now) }
    {
        let place = *self.order.as_slice().get(rank)?;
        if self.compare_at(place, question).is_eq() {
            Some(place)
        } else {
            None
        }
    }

    /// The place of a question, which is the last one where it wasn't asked before.
    fn place_of(&mut self, question: Question) -> Result<usize, NoMemory>
        ensures grown { IsGrown self.old.questions self.new.questions }
        ensures clauses { self.new.clauses ≡ self.old.clauses }
        ensures at { IfOk result (IsAt self.new.questions question) }
    {
        let rank = self.rank(&question);
        if let Some(place) = self.known_place(rank, &question) {
            return Ok(place);
        }
        let place = self.questions.len();
        self.order.insert(rank, place)?;
        self.questions.push(question)?;
        Ok(place)
    }

    /// The places of the questions of a way.
    fn places(&mut self, alloc: Global, way: List<Question>) -> Result<List<usize>, NoMemory>
        ensures grown { IsGrown self.old.questions self.new.questions }
        ensures clauses { self.new.clauses ≡ self.old.clauses }
        ensures at { IfOk result (WayAt self.new.questions way) }
    {
        let mut places = List::new(alloc);
        let mut left = way;
        while let Some(question) = left.pop() {
            let place = self.place_of(question)?;
            places.push(place)?;
        }
        Ok(places)
    }

    /// Those of ways.
    fn ways(
        &mut self,
        alloc: Global,
        ways: List<List<Question>>,
    ) -> Result<List<List<usize>>, NoMemory>
        ensures grown { IsGrown self.old.questions self.new.questions }
        ensures clauses { self.new.clauses ≡ self.old.clauses }
        ensures at { IfOk result (WaysAt self.new.questions ways) }
    {
        let mut placed = List::new(alloc);
        let mut left = ways;
        while let Some(way) = left.pop() {
            let places = self.places(alloc, way)?;
            placed.push(places)?;
        }
        Ok(placed)
    }

    /// Those of clauses.
    fn all_ways(
        &mut self,
        alloc: Global,
        clauses: List<List<List<Question>>>,
    ) -> Result<Clauses, NoMemory>
        ensures grown { IsGrown self.old.questions self.new.questions }
        ensures clauses { self.new.clauses ≡ self.old.clauses }
        ensures at { IfOk result (ClausesAt self.new.questions clauses) }
    {
        let mut placed = List::new(alloc);
        let mut left = clauses;
        while let Some(ways) = left.pop() {
            let ways = self.ways(alloc, ways)?;
            placed.push(ways)?;
        }
        Ok(placed)
    }

    /// Notes what the next question needs.
    fn note(&mut self, alloc: Global, clauses: List<List<List<Question>>>) -> Result<(), NoMemory>
        ensures grown { IsGrown self.old.questions self.new.questions }
        ensures noted { OnOk result (IsNoted self.new.questions clauses self.old.clauses self.new.clauses) }
    {
        let placed = self.all_ways(alloc, clauses)?;
        self.clauses.push(placed)?;
        Ok(())
    }

    /// Asks what each question needs, and what these need in their turn.
    pub(crate) fn ask_all<F: Facts, T: Types, H: ClassGoes<T>>(
        &mut self,
        alloc: Global,
        rules: &Rules<F>,
        types: &mut T,
        by: &mut H,
    ) -> Result<(), Stop>
        requires { self.old.clauses ≡ [] }
        ensures grown { IsGrown self.old.questions self.new.questions }
        ensures told { OnOk result (AreTold (table_of rules.now.classes.now (F.names rules.now.facts.now) (F.facts rules.now.facts.now) (T.assignment types.old)) (H.test by.old (T.assignment types.old)) self.new.questions self.new.clauses) }
        ensures all { OnOk result ((q : Question) (place : ℕ) → IsAt self.new.questions q place → place < length self.new.clauses) }
        ensures test { SameTest (H.test by.new) (H.test by.old) }
        ensures same { T.assignment types.new ≡ T.assignment types.old }
        ensures stays { T.stays types.old types.new }
        ensures cancels { Cancels (T.seen types.old) (T.seen types.new) result }
    {
        while let Some(question) = self.questions.get(self.clauses.len()) {
            let clauses = clauses_of(alloc, rules, question, types, by)?;
            self.note(alloc, clauses)?;
        }
        Ok(())
    }
}
