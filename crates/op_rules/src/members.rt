//! Which symbols count for the name of a member, and what they give.
ghost use Rattle.std.specs.Prelude.{◌≡◌, ◌∷◌, [], Option, map, true, IfOk};
ghost use Rattle.py_base.specs.declared.key.Key.TheVariants as key;
ghost use Rattle.op_rules.specs.Members as spec;
ghost use Rattle.op_rules.specs.Steps.{IsValue, IsRule, IsOwn, path_steps, path_value};
ghost use Rattle.op_rules.specs.World as worlds;
ghost use Rattle.op_rules.specs.World.{World, Value};
ghost use Rattle.value_terms.specs.declared.part.Part.TheVariants.{Each};

use crate::facts::Hiding;
use crate::parts::{Parts, joined, refused};
use crate::rules::Program;
use crate::step::{Path, Step};
use py_base::{ClassId, Key, List, NameId, NoMemory, SymId};
use std::alloc::Global;
use value_terms::Part;

/// The symbols that count, in the order of the classes that have them.
#[derive(Drop)]
pub(crate) struct Seen {
    pub symbols: List<SymId>,
    /// Whether one of them hides what stands behind it.
    pub hidden: bool,
    /// Whether that one is declared, and so stands alone.
    pub declared: bool,
}

/// A symbol that is declared.
fn declared(alloc: Global, symbol: SymId) -> Result<Seen, NoMemory>
    ensures { IfOk result (λ seen. seen ≡ record { symbols = symbol ∷ []; hidden = true; declared = true }) }
{
    let mut symbols = List::new(alloc);
    symbols.push(symbol)?;
    Ok(Seen {
        symbols,
        hidden: true,
        declared: true,
    })
}

/// The symbols that count in the classes of an order.
#[tactic(auto, using(crate::proofs::SeenLemmas::seen_from_nothing))]
fn seen_in<P: Program>(
    alloc: Global,
    program: &P,
    order: &[ClassId],
    name: NameId,
) -> Result<Seen, NoMemory>
    ensures { IfOk result (λ seen. seen ≡ spec.seen_in (P.world program.now) order.now name) }
{
    let mut symbols = List::new(alloc);
    for class in order {
        if let Some(symbol) = program.classes().own_member(*class, name) {
            match program.hiding(symbol) {
                Hiding::Joins => symbols.push(symbol)?,
                Hiding::Hides => {
                    symbols.push(symbol)?;
                    return Ok(Seen {
                        symbols,
                        hidden: true,
                        declared: false,
                    });
                }
                Hiding::Declares => return declared(alloc, symbol),
            }
        }
    }
    Ok(Seen {
        symbols,
        hidden: false,
        declared: false,
    })
}

/// The symbols that count for a name of a class.
pub(crate) fn members_seen<P: Program>(
    alloc: Global,
    program: &P,
    class: ClassId,
    name: NameId,
) -> Result<Seen, NoMemory>
    ensures { IfOk result (λ seen. seen ≡ spec.members_seen (P.world program.now) class name) }
{
    seen_in(alloc, program, program.classes().mro(class), name)
}

/// The symbols that count behind a class in its order.
pub(crate) fn seen_behind<P: Program>(
    alloc: Global,
    program: &P,
    class: ClassId,
    name: NameId,
) -> Result<Seen, NoMemory>
    ensures { IfOk result (λ seen. seen ≡ spec.members_behind (P.world program.now) class name) }
{
    match program.classes().mro(class) {
        [] => seen_in(alloc, program, &[], name),
        [_, behind @ ..] => seen_in(alloc, program, behind, name),
    }
}

/// A path as a chain of steps.
fn steps(alloc: Global, path: Path) -> Result<List<Step>, NoMemory>
    ensures { IfOk result (λ row. row ≡ path_steps path) }
{
    let mut row = List::new(alloc);
    match path {
        Path::OnInstance => row.push(Step::OnInstance)?,
        Path::OnClass => row.push(Step::OnClass)?,
        Path::Called => {
            row.push(Step::OnInstance)?;
            row.push(Step::Called)?;
        }
    }
    Ok(row)
}

/// A part for each symbol.
fn seen_by(alloc: Global, symbols: &[SymId], path: Path) -> Result<Parts, NoMemory>
    ensures { IfOk result (λ parts. parts ≡ map (λ sym. Each (key.Sym sym) (path_steps path)) symbols.now) }
{
    let mut parts = List::new(alloc);
    for symbol in symbols {
        let row = steps(alloc, path)?;
        parts.push(Part::Each(Key::Sym(*symbol), row))?;
    }
    Ok(parts)
}

/// What symbols give.
#[tactic(auto, using(crate::proofs::RuleLemmas::is_all))]
pub(crate) fn through(alloc: Global, symbols: &[SymId], path: Path) -> Result<Parts, NoMemory>
    ensures { IfOk result (λ parts. (w : World) → IsValue w parts (spec.through_all (path_value w path) symbols.now)) }
{
    let parts = seen_by(alloc, symbols, path)?;
    Ok(parts)
}

/// Parts, with others behind them where there are some.
pub(crate) fn with_behind(parts: Parts, behind: Option<Parts>) -> Result<Parts, NoMemory>
    ensures { IfOk result (λ all. (w : World) (x : Value) (y : Option Value) → IsValue w parts x → IsOwn w behind y → IsValue w all (spec.with_behind x y)) }
{
    match behind {
        Some(more) => joined(parts, more),
        None => Ok(parts),
    }
}

/// What symbols give with what stands behind them, where none hides it.
pub(crate) fn unhidden(
    alloc: Global,
    symbols: &[SymId],
    path: Path,
    behind: Option<Parts>,
) -> Result<Option<Parts>, NoMemory>
    ensures { IfOk result (λ own. (w : World) (y : Option Value) → IsOwn w behind y → IsOwn w own (spec.unhidden (path_value w path) symbols.now y y)) }
{
    match symbols {
        [] => Ok(behind),
        _ => {
            let parts = through(alloc, symbols, path)?;
            let all = with_behind(parts, behind)?;
            Ok(Some(all))
        }
    }
}

/// Parts that are there, else Unknown and a fault.
pub(crate) fn or_refused(alloc: Global, own: Option<Parts>) -> Result<Parts, NoMemory>
    ensures { IfOk result (λ parts. (w : World) (x : Option Value) → IsOwn w own x → IsRule w parts (worlds.or_refused x)) }
{
    match own {
        Some(parts) => Ok(parts),
        None => refused(alloc),
    }
}
