//! What a line is among the lines of a statement.
ghost use Rattle.std.specs.Prelude.{◌≡◌};
ghost use Rattle.py_modules.specs.Roles;
ghost use Rattle.py_modules.specs.declared.role.Form.TheVariants as forms;
ghost use Rattle.py_modules.specs.declared.role.Role.TheVariants as roles;

use py_base::NodeKind;

/// A line that goes on with a statement.
#[derive(Clone, Copy, Debug, PartialEq, Eq)]
pub enum Clause {
    Elif,
    Else,
    Except,
    ExceptStar,
    Finally,
}

/// What the last header of a statement was, as far as it decides which clause may come behind it.
#[derive(Clone, Copy, Debug, PartialEq, Eq)]
pub enum Stage {
    /// `if` or `elif`.
    Branch,
    /// `while` or `for`.
    Loop,
    /// `try`.
    Try,
    /// `try`, and an error line behind it.
    PassedTry,
    /// `except`.
    Handler,
    /// `except*`.
    StarHandler,
    /// The `else` of a `try`.
    ElseOfTry,
    /// Behind this no clause comes.
    Last,
}

/// What a line is.
#[derive(Clone, Copy, Debug, PartialEq, Eq)]
pub enum Role {
    /// A statement by itself.
    Alone,
    Decorator,
    /// The header of a statement of this kind.
    Header(NodeKind, Stage),
    /// The header of a case.
    Case,
    Clause(Clause),
    /// `async` and what isn't the header of a def, a `for` or a `with`.
    Nowhere,
    /// An error line.
    ErrorLine,
}

/// What the lines of a statement have made of it so far.
#[derive(Clone, Copy, Debug, PartialEq, Eq)]
pub enum Form {
    /// A line that is a statement by itself.
    Plain,
    /// Decorators, before a def or class.
    Decorated,
    /// A statement of this kind, with the last of its headers.
    Compound(NodeKind, Stage),
    /// Lines that no statement takes.
    Stray,
}

/// What a line is by its kind.
pub fn plain_role(kind: NodeKind) -> Role
    ensures { result ≡ Roles.role kind }
{
    match kind {
        NodeKind::If => Role::Header(NodeKind::IfStatement, Stage::Branch),
        NodeKind::While => Role::Header(NodeKind::WhileStatement, Stage::Loop),
        NodeKind::For => Role::Header(NodeKind::ForStatement, Stage::Loop),
        NodeKind::Try => Role::Header(NodeKind::TryStatement, Stage::Try),
        NodeKind::With => Role::Header(NodeKind::WithStatement, Stage::Last),
        NodeKind::Def => Role::Header(NodeKind::DefStatement, Stage::Last),
        NodeKind::Class => Role::Header(NodeKind::ClassStatement, Stage::Last),
        NodeKind::Match => Role::Header(NodeKind::MatchStatement, Stage::Last),
        NodeKind::Case => Role::Case,
        NodeKind::Decorator => Role::Decorator,
        NodeKind::Elif => Role::Clause(Clause::Elif),
        NodeKind::Else => Role::Clause(Clause::Else),
        NodeKind::Except => Role::Clause(Clause::Except),
        NodeKind::ExceptStar => Role::Clause(Clause::ExceptStar),
        NodeKind::Finally => Role::Clause(Clause::Finally),
        NodeKind::Async => Role::Nowhere,
        NodeKind::Fault => Role::ErrorLine,
        _ => Role::Alone,
    }
}

/// What a line is by the kind of the header behind its `async`.
pub fn async_role(kind: NodeKind) -> Role
    ensures { result ≡ Roles.async_role kind }
{
    match kind {
        NodeKind::Def => Role::Header(NodeKind::DefStatement, Stage::Last),
        NodeKind::For => Role::Header(NodeKind::ForStatement, Stage::Loop),
        NodeKind::With => Role::Header(NodeKind::WithStatement, Stage::Last),
        _ => Role::Nowhere,
    }
}

pub fn is_async(kind: NodeKind) -> bool
    ensures { result ≡ Roles.is_async kind }
{
    kind == NodeKind::Async
}

fn clause_behind(stage: Stage, clause: Clause) -> Option<Stage>
    ensures { result ≡ Roles.clause_behind stage clause }
{
    match (stage, clause) {
        (Stage::Branch, Clause::Elif) => Some(Stage::Branch),
        (Stage::Branch | Stage::Loop, Clause::Else) => Some(Stage::Last),
        (Stage::Try | Stage::PassedTry | Stage::Handler, Clause::Except) => Some(Stage::Handler),
        (Stage::Try | Stage::PassedTry | Stage::StarHandler, Clause::ExceptStar) => {
            Some(Stage::StarHandler)
        }
        (Stage::PassedTry | Stage::Handler | Stage::StarHandler, Clause::Else) => Some(
            Stage::ElseOfTry,
        ),
        (
            Stage::Try | Stage::PassedTry | Stage::Handler | Stage::StarHandler | Stage::ElseOfTry,
            Clause::Finally,
        ) => Some(Stage::Last),
        _ => None,
    }
}

fn passed_behind(stage: Stage) -> Option<Stage>
    ensures { result ≡ Roles.passed_behind stage }
{
    match stage {
        Stage::Last => None,
        Stage::Try => Some(Stage::PassedTry),
        other => Some(other),
    }
}

fn may_be_decorated(kind: NodeKind) -> bool
    ensures { result ≡ Roles.may_be_decorated kind }
{
    matches!(kind, NodeKind::DefStatement | NodeKind::ClassStatement)
}

/// The form of a statement whose first line this is, in the block of a `match` or in another one.
pub fn begins(role: Role, of_match: bool) -> Form
    ensures { result ≡ Roles.begins role of_match }
{
    match (role, of_match) {
        (Role::Alone, false) => Form::Plain,
        (Role::Header(kind, stage), false) => Form::Compound(kind, stage),
        (Role::Case, true) => Form::Compound(NodeKind::CaseStatement, Stage::Last),
        (Role::Decorator, false) => Form::Decorated,
        (Role::ErrorLine, _) => Form::Plain,
        _ => Form::Stray,
    }
}

fn decorated(kind: NodeKind, stage: Stage) -> Option<Form>
    ensures { result ≡ Roles.goes_on forms.Decorated (roles.Header kind stage) }
{
    may_be_decorated(kind).then_some(Form::Compound(kind, stage))
}

fn at_stage(kind: NodeKind, stage: Option<Stage>) -> Option<Form>
    ensures { result ≡ Roles.at_stage kind stage }
{
    Some(Form::Compound(kind, stage?))
}

/// The form of a statement once this line has come behind those that made it so; `None` where the
/// line isn't one of the statement.
pub fn goes_on(form: Form, role: Role) -> Option<Form>
    ensures { result ≡ Roles.goes_on form role }
{
    match (form, role) {
        (Form::Decorated, Role::Decorator) => Some(Form::Decorated),
        (Form::Decorated, Role::Header(kind, stage)) => decorated(kind, stage),
        (Form::Compound(kind, stage), Role::Clause(clause)) => {
            at_stage(kind, clause_behind(stage, clause))
        }
        (Form::Compound(kind, stage), Role::ErrorLine) => at_stage(kind, passed_behind(stage)),
        _ => None,
    }
}

/// The form of a statement once a block has come behind its last line.
pub fn with_block(form: Form) -> Form
    ensures { result ≡ Roles.with_block form }
{
    match form {
        Form::Compound(kind, stage) => Form::Compound(kind, stage),
        Form::Plain | Form::Decorated | Form::Stray => Form::Stray,
    }
}

/// The kind of a whole statement of this form; `None` for a line that is one by itself.
pub fn whole_kind(form: Form) -> Option<NodeKind>
    ensures { result ≡ Roles.whole_kind form }
{
    match form {
        Form::Plain => None,
        Form::Compound(kind, _) => Some(kind),
        Form::Decorated | Form::Stray => Some(NodeKind::Fault),
    }
}

/// Whether the block of such a statement holds cases.
pub fn holds_cases(form: Form) -> bool
    ensures { result ≡ Roles.holds_cases form }
{
    match form {
        Form::Compound(kind, _) => kind == NodeKind::MatchStatement,
        Form::Plain | Form::Decorated | Form::Stray => false,
    }
}
