//! Rows that go on step by step.
ghost use Rattle.std.specs.Prelude.{◌≡◌, ◌≤◌, ◌+◌, ◌++◌, ◌∷◌, [], ℕ, suc, map, List, IfOk, OnOk};
ghost use Rattle.py_base.specs.declared.key.Key.{Key};
ghost use Rattle.type_terms.specs.declared.atom.Atom.{Atom};
ghost use Rattle.value_terms.specs.Chain.{chain_rule, chain_rank, told_of_each, Extends, Reaches};
ghost use Rattle.value_terms.specs.Outcome.{Outcome};
ghost use Rattle.value_terms.specs.Ranks.{ReachAtMost, part_rank};
ghost use Rattle.value_terms.specs.Told.{Says, SaysSame, told, both_told, all_told, part_told, parts_told};
ghost use Rattle.value_terms.specs.Term.{Assignment};

use crate::part::Part;
use crate::rows::Rows;
use py_base::{Key, List, NoMemory};
use std::alloc::Global;
use std::mem::replace;
use type_terms::{Atom, Type};

/// The steps of some rules: each says something of a member, and may go on by chains of lighter steps.
pub trait Steps {
    type Step: Copy + Drop;

    /// What a step says of a member.
    ghost rule: { Self → Self.Step → Atom → Outcome Key Atom };

    /// How much it weighs: the chains that it goes on by weigh no more.
    ghost weight: { Self → Self.Step → ℕ };

    /// The parts of what a step says of a member.
    fn parts(
        &self,
        alloc: Global,
        step: Self::Step,
        atom: &Atom,
    ) -> Result<List<Part<List<Self::Step>>>, NoMemory>
        ensures says { IfOk result (λ parts. Says (chain_rule (rule self.now)) parts (rule self.now step atom.now)) }
        ensures reach { IfOk result (λ parts. ReachAtMost (chain_rank (weight self.now)) (suc (weight self.now step)) parts) };
}

/// The rows that are chains of steps.
#[derive(Drop)]
pub struct Chains<'a, S: Steps> {
    pub steps: &'a S,
}

/// Adds the parts of what a chain says of a member. Those of its last step are handed on as they are.
#[cycle(chain)]
fn push_chain<S: Steps>(
    alloc: Global,
    steps: &S,
    chain: &[S::Step],
    member: &Atom,
    out: &mut List<Part<List<S::Step>>>,
) -> Result<(), NoMemory>
    ensures says { OnOk result (Extends (S.rule steps.now) out.old (λ s. told (chain_rule (S.rule steps.now) chain.now member.now) s) out.new) }
    ensures reach { OnOk result (Reaches (S.weight steps.now) (chain_rank (S.weight steps.now) chain.now) out.old out.new) }
{
    match chain {
        [] => {
            let one = Type::one(alloc, member.copy(alloc)?)?;
            out.push(Part::Members(one))
        }
        [last] => {
            let parts = steps.parts(alloc, *last, member)?;
            append(alloc, out, parts)
        }
        [first, rest @ ..] => {
            let parts = steps.parts(alloc, *first, member)?;
            push_parts(alloc, steps, parts.as_slice(), rest, out)
        }
    }
}

/// Adds parts whose members go on by a chain.
#[cycle(chain)]
fn push_parts<S: Steps>(
    alloc: Global,
    steps: &S,
    parts: &[Part<List<S::Step>>],
    rest: &[S::Step],
    out: &mut List<Part<List<S::Step>>>,
) -> Result<(), NoMemory>
    ensures says { OnOk result (Extends (S.rule steps.now) out.old (λ s. told_of_each (parts_told (chain_rule (S.rule steps.now)) parts.now s) (λ a. told (chain_rule (S.rule steps.now) rest.now a) s)) out.new) }
    ensures reach { OnOk result ((own : ℕ) → ReachAtMost (chain_rank (S.weight steps.now)) (suc own) parts.now → Reaches (S.weight steps.now) (suc (own + chain_rank (S.weight steps.now) rest.now)) out.old out.new) }
{
    for part in parts {
        push_part(alloc, steps, part, rest, out)?;
    }
    Ok(())
}

/// Adds a part whose members go on by a chain.
#[cycle(chain)]
fn push_part<S: Steps>(
    alloc: Global,
    steps: &S,
    part: &Part<List<S::Step>>,
    rest: &[S::Step],
    out: &mut List<Part<List<S::Step>>>,
) -> Result<(), NoMemory>
    ensures says { OnOk result (Extends (S.rule steps.now) out.old (λ s. told_of_each (part_told (chain_rule (S.rule steps.now)) part.now s) (λ a. told (chain_rule (S.rule steps.now) rest.now a) s)) out.new) }
    ensures reach { OnOk result ((own : ℕ) → part_rank (chain_rank (S.weight steps.now)) part.now ≤ suc own → Reaches (S.weight steps.now) (suc (own + chain_rank (S.weight steps.now) rest.now)) out.old out.new) }
{
    match part {
        Part::Members(ty) => push_members(alloc, steps, ty.members(), rest, out),
        Part::Fault => out.push(Part::Fault),
        Part::Read(key) => {
            let row = joined(alloc, &[], rest)?;
            out.push(Part::Each(*key, row))
        }
        Part::Each(key, row) => {
            let row = joined(alloc, row.as_slice(), rest)?;
            out.push(Part::Each(*key, row))
        }
    }
}

/// Adds the parts of what a chain says of each of some members.
#[cycle(chain)]
fn push_members<S: Steps>(
    alloc: Global,
    steps: &S,
    members: &[Atom],
    rest: &[S::Step],
    out: &mut List<Part<List<S::Step>>>,
) -> Result<(), NoMemory>
    ensures says { OnOk result (Extends (S.rule steps.now) out.old (λ s. all_told (map (λ a. told (chain_rule (S.rule steps.now) rest.now a) s) members.now)) out.new) }
    ensures reach { OnOk result (Reaches (S.weight steps.now) (chain_rank (S.weight steps.now) rest.now) out.old out.new) }
{
    for member in members {
        push_chain(alloc, steps, rest, member, out)?;
    }
    Ok(())
}

/// Moves the elements of a list to the end of another.
fn append<T: Drop>(alloc: Global, out: &mut List<T>, more: List<T>) -> Result<(), NoMemory>
    ensures { OnOk result (out.new ≡ out.old ++ more) }
{
    let mut all = replace(out, List::new(alloc)).into_vec();
    let mut more = more.into_vec();
    all.append(&mut more)?;
    *out = List::from_vec(all);
    Ok(())
}

/// A chain and then another.
fn joined<T: Copy + Drop>(alloc: Global, first: &[T], second: &[T]) -> Result<List<T>, NoMemory>
    ensures { IfOk result (λ all. all ≡ first.now ++ second.now) }
{
    let mut all = Vec::new(alloc);
    all.extend_from_slice(first)?;
    all.extend_from_slice(second)?;
    Ok(List::from_vec(all))
}

/// The parts of a rule that goes on by a chain from each member that parts give.
pub fn go_on<S: Steps>(
    alloc: Global,
    steps: &S,
    parts: &[Part<List<S::Step>>],
    chain: &[S::Step],
) -> Result<List<Part<List<S::Step>>>, NoMemory>
    ensures { IfOk result (λ all. (s : Assignment Key Atom) → SaysSame (parts_told (chain_rule (S.rule steps.now)) all s) (told_of_each (parts_told (chain_rule (S.rule steps.now)) parts.now s) (λ a. told (chain_rule (S.rule steps.now) chain.now a) s))) }
{
    let mut out = List::new(alloc);
    push_parts(alloc, steps, parts, chain, &mut out)?;
    Ok(out)
}

impl<'a, S: Steps> Rows for Chains<'a, S> {
    ghost use Rattle.value_terms.specs.Chain.{chain_rule, chain_rank};

    type Row = List<S::Step>;

    ghost rule = { λ c. chain_rule (S.rule c.steps.now) };

    ghost rank = { λ c. chain_rank (S.weight c.steps.now) };

    fn parts(
        &self,
        alloc: Global,
        row: &List<S::Step>,
        atom: &Atom,
    ) -> Result<List<Part<List<S::Step>>>, NoMemory> {
        let mut out = List::new(alloc);
        push_chain(alloc, self.steps, row.as_slice(), atom, &mut out)?;
        Ok(out)
    }
}
