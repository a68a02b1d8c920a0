//! The roles of places in a tree, and which names a role finds.
ghost use Rattle.std.specs.Prelude.{◌≡◌, if◌then◌else◌};
ghost use Rattle.py_blocks.specs.declared.role.Role.TheVariants as roles;
ghost use Rattle.py_blocks.specs.Roles.{first, second, value_part, target_part, imported_part, captured_part, suite_part, signature_part, parameter_part, nonlocal_part, declared_part, role_of_part, finds, is_name};

use py_base::NodeKind;

/// What a place of a tree does with a name that stands there.
#[derive(Clone, Copy, Debug, PartialEq, Eq)]
pub enum Role {
    /// It is a value, or a statement: names are bound in the targets inside.
    Value,
    /// It is bound.
    Target,
    /// It is imported: the first name of a dotted one is bound.
    Imported,
    /// It is captured, but for `_`.
    Captured,
    /// Nothing in there is found.
    Hidden,
    /// What the statements in the line of a def or class bind in it.
    Suite,
    /// The parameters of a def, a lambda or a list of parameters.
    Signature,
    /// It is a parameter.
    Parameter,
    /// The names of `nonlocal`.
    Nonlocal,
    /// The names of `global` and `nonlocal`.
    Declared,
}

fn first(role: Role, at: usize) -> Role
    ensures { result ≡ first role at }
{
    if at == 0 { role } else { Role::Value }
}

fn second(role: Role, at: usize) -> Role
    ensures { result ≡ second role at }
{
    if at == 1 { role } else { Role::Value }
}

fn value_unless(last: bool, role: Role) -> Role
    ensures { result ≡ (if last then roles.Value else role) }
{
    if last { Role::Value } else { role }
}

fn hidden_if(hidden: bool, role: Role) -> Role
    ensures { result ≡ (if hidden then roles.Hidden else role) }
{
    if hidden { Role::Hidden } else { role }
}

fn value_part(kind: NodeKind, at: usize, last: bool) -> Role
    ensures { result ≡ value_part kind at last }
{
    match kind {
        NodeKind::Named | NodeKind::AnnotatedAssign | NodeKind::AugmentedAssign | NodeKind::For =>
            first(Role::Target, at),
        NodeKind::Lambda => hidden_if(last, Role::Value),
        NodeKind::Assign => value_unless(last, Role::Target),
        NodeKind::Del => Role::Target,
        NodeKind::Import => Role::Imported,
        NodeKind::ImportFrom => value_unless(at == 0, Role::Imported),
        NodeKind::TypeAlias | NodeKind::WithItem => second(Role::Target, at),
        NodeKind::Except | NodeKind::ExceptStar => value_unless(last, second(Role::Target, at)),
        NodeKind::Case => first(Role::Captured, at),
        NodeKind::Def | NodeKind::Class => hidden_if(last, first(Role::Target, at)),
        _ => Role::Value,
    }
}

fn target_part(kind: NodeKind) -> Role
    ensures { result ≡ target_part kind }
{
    match kind {
        NodeKind::Attribute | NodeKind::Subscript => Role::Value,
        _ => Role::Target,
    }
}

fn imported_part(kind: NodeKind, at: usize, last: bool) -> Role
    ensures { result ≡ imported_part kind at last }
{
    match kind {
        NodeKind::DottedName => hidden_if(at != 0, Role::Imported),
        NodeKind::Alias => hidden_if(!last, Role::Target),
        _ => Role::Hidden,
    }
}

fn captured_part(kind: NodeKind, at: usize) -> Role
    ensures { result ≡ captured_part kind at }
{
    match kind {
        NodeKind::Attribute | NodeKind::Strings => Role::Hidden,
        NodeKind::OrPattern => hidden_if(at != 0, Role::Captured),
        NodeKind::PatternItem | NodeKind::ClassPattern | NodeKind::KeywordPattern => {
            hidden_if(at == 0, Role::Captured)
        }
        _ => Role::Captured,
    }
}

fn suite_part(kind: NodeKind, last: bool) -> Role
    ensures { result ≡ suite_part kind last }
{
    match kind {
        NodeKind::Async => Role::Suite,
        NodeKind::Def | NodeKind::Class => hidden_if(!last, Role::Value),
        _ => Role::Hidden,
    }
}

fn signature_part(kind: NodeKind, last: bool) -> Role
    ensures { result ≡ signature_part kind last }
{
    match kind {
        NodeKind::Async | NodeKind::Def => Role::Signature,
        NodeKind::Parameters => Role::Parameter,
        NodeKind::Lambda => hidden_if(last, Role::Parameter),
        _ => Role::Hidden,
    }
}

fn parameter_part(at: usize) -> Role
    ensures { result ≡ parameter_part at }
{
    if at == 0 {
        Role::Parameter
    } else {
        Role::Hidden
    }
}

fn nonlocal_part(kind: NodeKind) -> Role
    ensures { result ≡ nonlocal_part kind }
{
    match kind {
        NodeKind::Nonlocal => Role::Target,
        _ => Role::Nonlocal,
    }
}

fn declared_part(kind: NodeKind) -> Role
    ensures { result ≡ declared_part kind }
{
    match kind {
        NodeKind::Global | NodeKind::Nonlocal => Role::Target,
        _ => Role::Declared,
    }
}

/// The role of a part, by that of its node, the kind of its node, its place, counted from 0, and
/// whether it is the last.
pub fn role_of_part(role: Role, kind: NodeKind, at: usize, last: bool) -> Role
    ensures { result ≡ role_of_part role kind at last }
{
    match role {
        Role::Value => value_part(kind, at, last),
        Role::Target => target_part(kind),
        Role::Imported => imported_part(kind, at, last),
        Role::Captured => captured_part(kind, at),
        Role::Hidden => Role::Hidden,
        Role::Suite => suite_part(kind, last),
        Role::Signature => signature_part(kind, last),
        Role::Parameter => parameter_part(at),
        Role::Nonlocal => nonlocal_part(kind),
        Role::Declared => declared_part(kind),
    }
}

/// Whether a name in a place of this role is found.
pub fn does_find(role: Role, name: &str) -> bool
    ensures { result ≡ finds role name.now }
{
    match role {
        Role::Target | Role::Imported | Role::Parameter => true,
        Role::Captured => name != "_",
        _ => false,
    }
}

/// Whether a node is a name.
pub fn is_name(kind: NodeKind) -> bool
    ensures { result ≡ is_name kind }
{
    matches!(kind, NodeKind::Name)
}
