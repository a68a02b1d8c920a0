//! The scopes around a place.
ghost use Rattle.std.specs.Prelude.{◌≡◌, ◌==◌, ◌-◌, ◌||◌, IfOk};
ghost use Rattle.py_scopes.specs.Kinds.{is_name};
ghost use Rattle.py_scopes.specs.Scopes.{typed, owned, in_statement, in_header, in_lambda, taker, kind_around, in_parameter, in_annotated_parameter, in_star_parameter, in_parameters, in_type_alias, is_comprehension, in_brackets, is_first_for, in_for, scopes_inside, scopes_along};

use crate::scope::{Scope, ScopeKind};
use crate::way::Step;
use py_base::{List, NoMemory, NodeId, NodeKind};
use std::alloc::Global;
use std::marker::Model;

/// Scopes within one another. A contract sees them as a list, the innermost first.
#[derive(Debug, Drop)]
pub(crate) struct Nest {
    // The outermost first.
    scopes: Vec<Scope>,
}

impl Model for Nest {
    ghost use Rattle.std.specs.Prelude.{List, reverse};
    ghost use Rattle.py_scopes.specs.declared.scope.Scope.{Scope};

    ghost Value = { List Scope };

    ghost view = { λ nest. reverse nest.scopes.items };
}

impl Nest {
    ghost use Rattle.std.specs.Prelude.{◌≡◌, [], ◌∷◌, drop, slice_get, IfOk};
    ghost use Rattle.py_scopes.specs.Scopes.{opened, outside};

    fn new(alloc: Global) -> Nest
        ensures { result ≡ [] }
    {
        Nest {
            scopes: Vec::new(alloc),
        }
    }

    // Opens a scope inside of all.
    fn open(self, node: NodeId, kind: ScopeKind) -> Result<Nest, NoMemory>
        ensures { IfOk result (λ nest. nest ≡ opened node kind self) }
    {
        let mut scopes = self.scopes;
        match scopes.push(Scope { node, kind }) {
            Ok(()) => Ok(Nest { scopes }),
            Err(_) => Err(NoMemory),
        }
    }

    // What is outside of the innermost.
    fn leave(self) -> Nest
        ensures { result ≡ outside self }
    {
        let mut scopes = self.scopes;
        scopes.pop();
        Nest { scopes }
    }

    // The node of the innermost.
    fn innermost(&self) -> Option<Scope>
        ensures { result ≡ slice_get self.now 0 }
    {
        self.scopes.last().copied()
    }

    /// The scopes in a list, the innermost first.
    pub(crate) fn into_list(self) -> List<Scope>
        ensures { result ≡ self }
    {
        let mut scopes = self.scopes;
        scopes.reverse();
        List::from_vec(scopes)
    }
}

fn typed(is_generic: bool, node: NodeId, around: Nest) -> Result<Nest, NoMemory>
    ensures { IfOk result (λ nest. nest ≡ typed is_generic node around) }
{
    if is_generic {
        around.open(node, ScopeKind::TypeParameters)
    } else {
        around.open(node, ScopeKind::NoTypeParameters)
    }
}

fn owned(kind: ScopeKind, around: Nest) -> Result<Nest, NoMemory>
    ensures { IfOk result (λ nest. nest ≡ owned kind around) }
{
    match around.innermost() {
        Some(scope) => around.open(scope.node, kind),
        None => Ok(around),
    }
}

fn in_statement(kind: ScopeKind, step: &Step, around: Nest) -> Result<Nest, NoMemory>
    ensures { IfOk result (λ nest. nest ≡ in_statement kind step.now step.now.inner around) }
{
    match step.inner {
        NodeKind::Decorator => Ok(around),
        NodeKind::Block => typed(step.generic, step.around, around)?.open(step.around, kind),
        _ => typed(step.generic, step.around, around),
    }
}

fn in_header(kind: ScopeKind, part: NodeKind, around: Nest) -> Result<Nest, NoMemory>
    ensures { IfOk result (λ nest. nest ≡ in_header kind part around) }
{
    match part {
        NodeKind::Name => Ok(around.leave()),
        NodeKind::Suite => owned(kind, around),
        _ => Ok(around),
    }
}

fn is_own_of_lambda(step: &Step) -> bool
    ensures { result ≡ (step.now.part == step.now.parts - 1 || is_name step.now.inner) }
{
    step.part == step.parts.saturating_sub(1) || step.inner == NodeKind::Name
}

fn in_lambda(step: &Step, around: Nest) -> Result<Nest, NoMemory>
    ensures { IfOk result (λ nest. nest ≡ in_lambda step.now around) }
{
    let nest = typed(false, step.around, around)?;
    if is_own_of_lambda(step) {
        nest.open(step.around, ScopeKind::Lambda)
    } else {
        Ok(nest)
    }
}

fn taker(kind: NodeKind) -> ScopeKind
    ensures { result ≡ taker kind }
{
    match kind {
        NodeKind::Lambda => ScopeKind::Lambda,
        _ => ScopeKind::Def,
    }
}

/// The kind of the node around, `Fault` where there is none.
pub(crate) fn kind_around(way: &[Step]) -> NodeKind
    ensures { result ≡ kind_around way.now }
{
    match way.split_first() {
        Some((step, _)) => step.kind,
        None => NodeKind::Fault,
    }
}

fn in_parameter(kind: ScopeKind, part: usize, around: Nest) -> Result<Nest, NoMemory>
    ensures { IfOk result (λ nest. nest ≡ in_parameter kind part around) }
{
    if part == 0 {
        owned(kind, around)
    } else {
        Ok(around.leave())
    }
}

fn in_annotated_parameter(kind: ScopeKind, part: usize, around: Nest) -> Result<Nest, NoMemory>
    ensures { IfOk result (λ nest. nest ≡ in_annotated_parameter kind part around) }
{
    match part {
        0 => owned(kind, around),
        1 => Ok(around),
        _ => Ok(around.leave()),
    }
}

fn in_star_parameter(kind: ScopeKind, part: usize, around: Nest) -> Result<Nest, NoMemory>
    ensures { IfOk result (λ nest. nest ≡ in_star_parameter kind part around) }
{
    if part == 0 {
        owned(kind, around)
    } else {
        Ok(around)
    }
}

fn in_parameters(part: NodeKind, around: Nest) -> Result<Nest, NoMemory>
    ensures { IfOk result (λ nest. nest ≡ in_parameters part around) }
{
    match part {
        NodeKind::Name => owned(ScopeKind::Def, around),
        _ => Ok(around),
    }
}

fn in_type_alias(step: &Step, around: Nest) -> Result<Nest, NoMemory>
    ensures { IfOk result (λ nest. nest ≡ in_type_alias step.now around) }
{
    if step.part > 1 {
        typed(step.generic, step.around, around)
    } else {
        Ok(around)
    }
}

fn in_brackets(step: &Step, around: Nest) -> Result<Nest, NoMemory>
    ensures { IfOk result (λ nest. nest ≡ in_brackets step.now around) }
{
    if step.first_for < step.parts {
        around.open(step.around, ScopeKind::Comprehension)
    } else {
        Ok(around)
    }
}

fn is_first_for(way: &[Step]) -> bool
    ensures { result ≡ is_first_for way.now }
{
    match way.split_first() {
        Some((step, _)) => step.part == step.first_for,
        None => false,
    }
}

fn in_for(step: &Step, outward: &[Step], around: Nest) -> Nest
    ensures { result ≡ in_for step.now outward.now around }
{
    if step.part == 1 && is_first_for(outward) {
        around.leave()
    } else {
        around
    }
}

fn scopes_inside(step: &Step, outward: &[Step], around: Nest) -> Result<Nest, NoMemory>
    ensures { IfOk result (λ nest. nest ≡ scopes_inside step.now.kind step.now outward.now around) }
{
    match step.kind {
        NodeKind::Module => around.open(step.around, ScopeKind::Module),
        NodeKind::ClassStatement => in_statement(ScopeKind::Class, step, around),
        NodeKind::DefStatement => in_statement(ScopeKind::Def, step, around),
        NodeKind::Class => in_header(ScopeKind::Class, step.inner, around),
        NodeKind::Def => in_header(ScopeKind::Def, step.inner, around),
        NodeKind::Lambda => in_lambda(step, around),
        NodeKind::Parameters => in_parameters(step.inner, around),
        NodeKind::Parameter => in_parameter(taker(kind_around(outward)), step.part, around),
        NodeKind::AnnotatedParameter => {
            in_annotated_parameter(taker(kind_around(outward)), step.part, around)
        }
        NodeKind::StarParameter | NodeKind::DoubleStarParameter => {
            in_star_parameter(taker(kind_around(outward)), step.part, around)
        }
        NodeKind::TypeAlias => in_type_alias(step, around),
        NodeKind::ComprehensionFor | NodeKind::AsyncComprehensionFor => {
            Ok(in_for(step, outward, around))
        }
        _ => in_brackets(step, around),
    }
}

/// The scopes around what the way leads out from. `NoMemory` where they could not be stored.
pub(crate) fn scopes_along(alloc: Global, way: &[Step]) -> Result<Nest, NoMemory>
    ensures { IfOk result (λ nest. nest ≡ scopes_along way.now) }
{
    match way.split_first() {
        Some((step, outward)) => scopes_inside(step, outward, scopes_along(alloc, outward)?),
        None => Ok(Nest::new(alloc)),
    }
}
