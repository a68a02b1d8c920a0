//! Whose a name is.
ghost use Rattle.std.specs.Prelude.{◌≡◌, ◌<◌, IfSome};
ghost use Rattle.py_scopes.specs.Table.{unbound_owner, owner_as};

use py_base::{NameId, SymId};

/// Whose the name at a node is.
#[derive(Clone, Copy, Debug, PartialEq, Eq)]
pub enum Owner {
    /// A symbol whose scope runs in the graph of the use. The module, each def and each lambda has a
    /// graph; what stands in a class body, a comprehension or a list of type parameters runs in the
    /// graph around it.
    Local(SymId),
    /// A symbol whose scope runs in another graph.
    Outer(SymId),
    /// A name that nobody binds and that every module sees.
    Builtin(NameId),
    /// A name that nobody binds, and a node that is no name.
    Undefined,
}

/// The owner of a name that nobody binds, if it is that of a builtin.
pub(crate) fn unbound_owner(builtin: Option<NameId>) -> Owner
    ensures { result ≡ unbound_owner builtin }
{
    match builtin {
        Some(name) => Owner::Builtin(name),
        None => Owner::Undefined,
    }
}

/// The owner by the number of a symbol, whose scope runs in the graph of the use, or it doesn't.
pub(crate) fn owner_as(is_local: bool, number: Option<usize>) -> Owner
    requires { IfSome number (λ k. k < 33554432) }
    ensures { result ≡ owner_as is_local number }
{
    match number {
        Some(number) if is_local => Owner::Local(SymId(number as u32)),
        Some(number) => Owner::Outer(SymId(number as u32)),
        None => Owner::Undefined,
    }
}
