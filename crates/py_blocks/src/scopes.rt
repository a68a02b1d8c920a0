//! The rules on the names of defs, by the names of all defs and classes and the open blocks at a line.
ghost use Rattle.std.specs.Prelude.{◌≡◌, ◌<◌, ◌&&◌, ◌||◌, not, length};
ghost use Rattle.std.specs.List.{list_any};
ghost use Rattle.py_blocks.specs.Facts.{among};
ghost use Rattle.py_blocks.specs.Enclosing.{line_at, is_a};
ghost use Rattle.py_blocks.specs.Innermost.{scopes_of, open_at};
ghost use Rattle.py_blocks.specs.Names.{binds_at, binds_in, declares_in, is_owned_around, is_nonlocal_astray, is_parameter_around, declares_parameter, breaks_names};
ghost use Rattle.py_blocks.specs.Search.{some_below};
ghost use Rattle.py_blocks.specs.NameSets.{AreNameSets, lies_outside, owns_open};
ghost use Rattle.py_blocks.specs.declared.sort.Sort.TheVariants as sorts;

use crate::facts::LineFacts;
use crate::innermost::scope_in;
use crate::lines::is_a;
use crate::name_sets::{NameSets, body_in, has_name};
use crate::open_blocks::is_behind;
use crate::sort::Sort;
use py_base::Text;

fn is_own_parameter<'a>(
    lines: &'a [LineFacts],
    names: &NameSets<'a>,
    name: &'a str,
    def: usize,
) -> bool
    requires { AreNameSets lines.now names.now }
    ensures { result ≡ among name.now (line_at lines.now def).parameters }
{
    let _count = lines.len();
    has_name(&names.parameters, name, def)
}

fn is_bound_in_line<'a>(
    lines: &'a [LineFacts],
    names: &NameSets<'a>,
    name: &'a str,
    def: usize,
) -> bool
    requires { AreNameSets lines.now names.now }
    ensures { result ≡ among name.now (line_at lines.now def).suite }
{
    let _count = lines.len();
    has_name(&names.suites, name, def)
}

fn is_bound_inside<'a>(
    lines: &'a [LineFacts],
    names: &NameSets<'a>,
    name: &'a str,
    def: usize,
) -> bool
    requires { AreNameSets lines.now names.now }
    ensures { result ≡ some_below (length lines.now) (λ i. binds_at lines.now name.now def i) }
{
    let _count = lines.len();
    has_name(&names.bound, name, def)
}

fn binds_in<'a>(lines: &'a [LineFacts], names: &NameSets<'a>, name: &'a str, def: usize) -> bool
    requires { AreNameSets lines.now names.now }
    ensures { result ≡ binds_in lines.now name.now def }
{
    is_own_parameter(lines, names, name, def)
        || is_bound_in_line(lines, names, name, def)
        || is_bound_inside(lines, names, name, def)
}

fn declares_in<'a>(lines: &'a [LineFacts], names: &NameSets<'a>, name: &'a str, def: usize) -> bool
    requires { AreNameSets lines.now names.now }
    ensures { result ≡ declares_in lines.now name.now def }
{
    let _count = lines.len();
    has_name(&names.declared, name, def)
}

// Whether an open block is a def around the def or class in whose body the statements of a line stand.
fn lies_outside(lines: &[LineFacts], scope: Option<usize>, at: usize, def: usize) -> bool
    ensures { result ≡ lies_outside lines.now scope at def }
{
    is_a(lines, def, Sort::Def) && (is_a(lines, at, Sort::Scope) || is_behind(scope, def))
}

fn owns_open<'a>(
    lines: &'a [LineFacts],
    names: &NameSets<'a>,
    scope: Option<usize>,
    at: usize,
    name: &'a str,
    def: usize,
) -> bool
    requires { AreNameSets lines.now names.now }
    ensures { result ≡ owns_open lines.now scope name.now at def }
{
    lies_outside(lines, scope, at, def)
        && binds_in(lines, names, name, def)
        && !declares_in(lines, names, name, def)
}

// Whether some open block has the name as its own.
fn is_owned_by_one<'a>(
    lines: &'a [LineFacts],
    names: &NameSets<'a>,
    scope: Option<usize>,
    blocks: &[usize],
    at: usize,
    name: &'a str,
) -> bool
    requires { AreNameSets lines.now names.now }
    ensures { result ≡ list_any (λ d. owns_open lines.now scope name.now at d) blocks.now }
{
    for def in blocks {
        if owns_open(lines, names, scope, at, name, *def) {
            return true;
        }
    }
    false
}

fn is_owned_around<'a>(
    lines: &'a [LineFacts],
    names: &NameSets<'a>,
    scopes: &[Option<usize>],
    blocks: &[usize],
    at: usize,
    name: &'a str,
) -> bool
    requires within { at < length lines.now }
    requires scopes { scopes.now ≡ scopes_of lines.now }
    requires names { AreNameSets lines.now names.now }
    requires blocks { blocks.now ≡ open_at lines.now at }
    ensures { result ≡ is_owned_around lines.now at name.now }
{
    is_owned_by_one(lines, names, scope_in(scopes, at), blocks, at, name)
}

fn is_any_unowned<'a>(
    lines: &'a [LineFacts],
    names: &NameSets<'a>,
    scopes: &[Option<usize>],
    blocks: &[usize],
    at: usize,
    nonlocals: &'a [Text],
) -> bool
    requires within { at < length lines.now }
    requires scopes { scopes.now ≡ scopes_of lines.now }
    requires names { AreNameSets lines.now names.now }
    requires blocks { blocks.now ≡ open_at lines.now at }
    ensures { result ≡ list_any (λ n. not (is_owned_around lines.now at n)) nonlocals.now }
{
    for name in nonlocals {
        if !is_owned_around(lines, names, scopes, blocks, at, name.as_str()) {
            return true;
        }
    }
    false
}

fn is_nonlocal_astray<'a>(
    lines: &'a [LineFacts],
    names: &NameSets<'a>,
    scopes: &[Option<usize>],
    blocks: &[usize],
    at: usize,
) -> bool
    requires within { at < length lines.now }
    requires scopes { scopes.now ≡ scopes_of lines.now }
    requires names { AreNameSets lines.now names.now }
    requires blocks { blocks.now ≡ open_at lines.now at }
    ensures { result ≡ is_nonlocal_astray lines.now at }
{
    match lines.get(at) {
        Some(line) => is_any_unowned(lines, names, scopes, blocks, at, line.nonlocals.as_slice()),
        None => false,
    }
}

fn is_parameter_around<'a>(
    lines: &'a [LineFacts],
    scopes: &[Option<usize>],
    names: &NameSets<'a>,
    at: usize,
    name: &'a Text,
) -> bool
    requires within { at < length lines.now }
    requires scopes { scopes.now ≡ scopes_of lines.now }
    requires names { AreNameSets lines.now names.now }
    ensures { result ≡ is_parameter_around lines.now at name.now }
{
    match body_in(lines, scopes, at) {
        Some(scope) => is_own_parameter(lines, names, name.as_str(), scope),
        None => false,
    }
}

fn is_any_parameter<'a>(
    lines: &'a [LineFacts],
    scopes: &[Option<usize>],
    names: &NameSets<'a>,
    at: usize,
    declared: &'a [Text],
) -> bool
    requires within { at < length lines.now }
    requires scopes { scopes.now ≡ scopes_of lines.now }
    requires names { AreNameSets lines.now names.now }
    ensures { result ≡ list_any (λ n. is_parameter_around lines.now at n) declared.now }
{
    for name in declared {
        if is_parameter_around(lines, scopes, names, at, name) {
            return true;
        }
    }
    false
}

fn declares_parameter<'a>(
    lines: &'a [LineFacts],
    scopes: &[Option<usize>],
    names: &NameSets<'a>,
    at: usize,
) -> bool
    requires within { at < length lines.now }
    requires scopes { scopes.now ≡ scopes_of lines.now }
    requires names { AreNameSets lines.now names.now }
    ensures { result ≡ declares_parameter lines.now at }
{
    match lines.get(at) {
        Some(line) => is_any_parameter(lines, scopes, names, at, line.declared.as_slice()),
        None => false,
    }
}

/// Whether a line breaks a rule on global and nonlocal names. `blocks` are the open blocks at the line.
pub fn breaks_names<'a>(
    lines: &'a [LineFacts],
    scopes: &[Option<usize>],
    names: &NameSets<'a>,
    blocks: &[usize],
    at: usize,
) -> bool
    requires within { at < length lines.now }
    requires scopes { scopes.now ≡ scopes_of lines.now }
    requires names { AreNameSets lines.now names.now }
    requires blocks { blocks.now ≡ open_at lines.now at }
    ensures { result ≡ breaks_names lines.now at }
{
    is_nonlocal_astray(lines, names, scopes, blocks, at)
        || declares_parameter(lines, scopes, names, at)
}
