//! What a rule of an operation asks for.
use py_base::{FuncId, SiteId, SymId};

/// What a rule of an operation may ask the type of. A key has no arguments in it, so the value of a call is a
/// term by what stands for each of them.
#[derive(Clone, Copy)]
pub enum Ask {
    /// A plain argument of the call, counted from 0.
    Argument(usize),
    /// What a function returns.
    Ret(FuncId),
    /// A symbol as other scopes see it.
    Sym(SymId),
    /// The type in a slot, counted from 0, of the value that is made at a site.
    Elem(SiteId, u32),
}
