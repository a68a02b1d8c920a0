//! Texts of types, worked by hand, and a widened type.

use crate::compare::compare;
use py_base::{ClassId, FuncId, InnerTuple, Key, List, NameId, NodeId, SiteId, Text};
use sqlite_items::{Boxed, Items};
use std::alloc::Global;
use std::collections::BTreeMap;
use std::test::Fail;
use type_terms::atom::{Atom, Slots};
use type_terms::facts::{FuncKind, FuncRow, Param, ParamKind, SiteSlots};
use type_terms::literal::Literal;
use type_terms::plain::{PlainFacts, PlainTypes, PlainView};
use type_terms::text::type_text;
use type_terms::types::Type;

const BOOL: ClassId = ClassId(5);

const CALLABLE: ClassId = ClassId(18);

const DICT: ClassId = ClassId(13);

const FUNCTION: ClassId = ClassId(2);

const INT: ClassId = ClassId(4);

const LIST: ClassId = ClassId(10);

const STR: ClassId = ClassId(8);

const TUPLE: ClassId = ClassId(11);

/// A class of the file, an enum with the members `A` and `B`.
const COLOUR: ClassId = ClassId(60);

const DISPLAY: SiteId = SiteId {
    node: NodeId(7),
    class: LIST,
    inner: InnerTuple::None,
};

const LAMBDA: SiteId = SiteId {
    node: NodeId(8),
    class: FUNCTION,
    inner: InnerTuple::None,
};

/// `def (a: int, b: str) -> int`
const PLAIN: FuncId = FuncId(0);

/// `def (*a, **b)` without a `return`
const STARS: FuncId = FuncId(1);

const EMPTY: FuncId = FuncId(2);

/// An atom, as a row of the table of texts names it.
#[derive(Clone, Copy)]
enum Sample {
    Int(i128),
    Bool(bool),
    Str(&'static str),
    HighByte,
    Member(usize),
    Inst(ClassId),
    Dict,
    NoEntries,
    ManyEntries,
    AnyCall,
    IntCall,
    Deep,
    Site(SiteId),
    Class(ClassId),
    Func(FuncId),
    Bound(FuncId),
    Method,
    Builtin,
    Super(ClassId),
    Module,
    Special,
    Unknown,
    Nothing,
    Unbound,
    Open,
    Here,
}

fn int_slot(alloc: Global) -> Result<Items<Atom>, Fail> {
    Ok(Type::one(alloc, Atom::Inst(INT))?.into_slot())
}

fn str_slot(alloc: Global) -> Result<Items<Atom>, Fail> {
    Ok(Type::one(alloc, Atom::Inst(STR))?.into_slot())
}

fn str_literal(alloc: Global, value: &str) -> Result<Atom, Fail> {
    Ok(Atom::Lit(Literal::Str(Text::from_str(alloc, value)?)))
}

fn high_byte(alloc: Global) -> Result<Atom, Fail> {
    let bytes = Vec::from_slice(alloc, &[97, 200, 34])?;
    Ok(Atom::Lit(Literal::Bytes(List::from_vec(bytes))))
}

fn dict(alloc: Global) -> Result<Atom, Fail> {
    let mut slots = Items::new(alloc);
    slots.push(str_slot(alloc)?)?;
    slots.push(int_slot(alloc)?)?;
    Ok(Atom::Gen(DICT, Slots::Each(slots)))
}

fn many_entries(alloc: Global) -> Result<Atom, Fail> {
    Ok(Atom::Gen(TUPLE, Slots::Endless(int_slot(alloc)?)))
}

fn any_call(alloc: Global) -> Result<Atom, Fail> {
    Ok(Atom::Gen(CALLABLE, Slots::AnyArguments(str_slot(alloc)?)))
}

fn int_call(alloc: Global) -> Result<Atom, Fail> {
    let mut slots = Items::new(alloc);
    slots.push(int_slot(alloc)?)?;
    Ok(Atom::Gen(CALLABLE, Slots::Arguments(slots, str_slot(alloc)?)))
}

fn list_of(alloc: Global, atom: Atom) -> Result<Atom, Fail> {
    let mut slots = Items::new(alloc);
    slots.push(Type::one(alloc, atom)?.into_slot())?;
    Ok(Atom::Gen(LIST, Slots::Each(slots)))
}

fn deep(alloc: Global) -> Result<Atom, Fail> {
    let mut atom = Atom::Inst(INT);
    for _ in 0..4 {
        atom = list_of(alloc, atom)?;
    }
    Ok(atom)
}

fn method(alloc: Global) -> Result<Atom, Fail> {
    Ok(Atom::BuiltMethod(0, Boxed::new(alloc, Atom::Inst(STR))?))
}

fn atom(alloc: Global, sample: Sample) -> Result<Atom, Fail> {
    match sample {
        Sample::Int(value) => Ok(Atom::Lit(Literal::Int(value))),
        Sample::Bool(value) => Ok(Atom::Lit(Literal::Bool(value))),
        Sample::Str(value) => str_literal(alloc, value),
        Sample::HighByte => high_byte(alloc),
        Sample::Member(place) => Ok(Atom::Lit(Literal::Member(COLOUR, place))),
        Sample::Inst(class) => Ok(Atom::Inst(class)),
        Sample::Dict => dict(alloc),
        Sample::NoEntries => Ok(Atom::Gen(TUPLE, Slots::Each(Items::new(alloc)))),
        Sample::ManyEntries => many_entries(alloc),
        Sample::AnyCall => any_call(alloc),
        Sample::IntCall => int_call(alloc),
        Sample::Deep => deep(alloc),
        Sample::Site(site) => Ok(Atom::Site(site)),
        Sample::Class(class) => Ok(Atom::Class(class)),
        Sample::Func(func) => Ok(Atom::Func(func)),
        Sample::Bound(func) => Ok(Atom::Bound(func)),
        Sample::Method => method(alloc),
        Sample::Builtin => Ok(Atom::BuiltFunc(1)),
        Sample::Super(class) => Ok(Atom::Super(class)),
        Sample::Module => Ok(Atom::Mod(NameId(3))),
        Sample::Special => Ok(Atom::Special(NameId(4))),
        Sample::Unknown => Ok(Atom::Unknown),
        Sample::Nothing => Ok(Atom::None),
        Sample::Unbound => Ok(Atom::Unbound),
        Sample::Open => Ok(Atom::Open),
        Sample::Here => Ok(Atom::Here),
    }
}

fn with(alloc: Global, ty: &Type, sample: Sample) -> Result<Type, Fail> {
    let one = Type::one(alloc, atom(alloc, sample)?)?;
    Ok(ty.join(alloc, &one)?)
}

fn type_of(alloc: Global, samples: &[Sample]) -> Result<Type, Fail> {
    let mut ty = Type::empty(alloc);
    for sample in samples {
        ty = with(alloc, &ty, *sample)?;
    }
    Ok(ty)
}

fn param(name: u32, kind: ParamKind) -> Param {
    Param {
        name: NameId(name),
        kind,
        default: false,
        ty: None,
    }
}

fn params(alloc: Global, first: ParamKind, second: ParamKind) -> Result<List<Param>, Fail> {
    let mut params = List::new(alloc);
    params.push(param(1, first))?;
    params.push(param(2, second))?;
    Ok(params)
}

fn func_row(params: List<Param>, gives: Option<Type>) -> FuncRow {
    FuncRow {
        kind: FuncKind::Plain,
        params,
        result: gives,
        guard: false,
        is_async: false,
        is_generator: false,
    }
}

fn put_plain(alloc: Global, funcs: &mut BTreeMap<FuncId, FuncRow>) -> Result<(), Fail> {
    let gives = type_of(alloc, &[Sample::Inst(INT)])?;
    let params = params(alloc, ParamKind::Plain, ParamKind::Plain)?;
    funcs.insert(PLAIN, func_row(params, Some(gives)))?;
    Ok(())
}

fn put_stars(alloc: Global, funcs: &mut BTreeMap<FuncId, FuncRow>) -> Result<(), Fail> {
    let params = params(alloc, ParamKind::Star, ParamKind::StarStar)?;
    funcs.insert(STARS, func_row(params, None))?;
    Ok(())
}

fn put_members(alloc: Global, enums: &mut BTreeMap<ClassId, List<NameId>>) -> Result<(), Fail> {
    let mut members = List::new(alloc);
    members.push(NameId(10))?;
    members.push(NameId(11))?;
    enums.insert(COLOUR, members)?;
    Ok(())
}

fn put_facts(alloc: Global, facts: &mut PlainFacts) -> Result<(), Fail> {
    put_plain(alloc, &mut facts.funcs)?;
    put_stars(alloc, &mut facts.funcs)?;
    put_members(alloc, &mut facts.enums)?;
    facts.func_nodes.insert(NodeId(8), EMPTY)?;
    facts.slots.insert(DISPLAY, SiteSlots::Filled(1))?;
    Ok(())
}

fn put_types(alloc: Global, types: &mut BTreeMap<Key, Type>) -> Result<(), Fail> {
    let entries = [
        Sample::Int(1),
        Sample::Int(2),
        Sample::Int(3),
        Sample::Int(4),
        Sample::Int(5),
    ];
    types.insert(Key::Elem(DISPLAY, 0), type_of(alloc, &entries)?)?;
    types.insert(Key::Ret(STARS), type_of(alloc, &[Sample::Nothing])?)?;
    Ok(())
}

fn put_param(
    alloc: Global,
    params: &mut BTreeMap<(FuncId, u32), Type>,
    func: FuncId,
    place: u32,
    sample: Sample,
) -> Result<(), Fail> {
    params.insert((func, place), type_of(alloc, &[sample])?)?;
    Ok(())
}

fn put_params(alloc: Global, params: &mut BTreeMap<(FuncId, u32), Type>) -> Result<(), Fail> {
    put_param(alloc, params, PLAIN, 0, Sample::Inst(INT))?;
    put_param(alloc, params, PLAIN, 1, Sample::Inst(STR))?;
    put_param(alloc, params, STARS, 0, Sample::ManyEntries)?;
    put_param(alloc, params, STARS, 1, Sample::Dict)
}

fn put_class(
    alloc: Global,
    words: &mut BTreeMap<ClassId, Text>,
    class: ClassId,
    word: &str,
) -> Result<(), Fail> {
    words.insert(class, Text::from_str(alloc, word)?)?;
    Ok(())
}

fn put_classes(alloc: Global, words: &mut BTreeMap<ClassId, Text>) -> Result<(), Fail> {
    put_class(alloc, words, INT, "int")?;
    put_class(alloc, words, BOOL, "bool")?;
    put_class(alloc, words, STR, "str")?;
    put_class(alloc, words, LIST, "list")?;
    put_class(alloc, words, DICT, "dict")?;
    put_class(alloc, words, TUPLE, "tuple")?;
    put_class(alloc, words, CALLABLE, "Callable")?;
    put_class(alloc, words, COLOUR, "E")
}

fn put_word(
    alloc: Global,
    words: &mut BTreeMap<NameId, Text>,
    name: u32,
    word: &str,
) -> Result<(), Fail> {
    words.insert(NameId(name), Text::from_str(alloc, word)?)?;
    Ok(())
}

fn put_words(alloc: Global, words: &mut BTreeMap<NameId, Text>) -> Result<(), Fail> {
    put_word(alloc, words, 1, "a")?;
    put_word(alloc, words, 2, "b")?;
    put_word(alloc, words, 3, "sys")?;
    put_word(alloc, words, 4, "Any")?;
    put_word(alloc, words, 10, "A")?;
    put_word(alloc, words, 11, "B")
}

fn put_rows(alloc: Global, words: &mut BTreeMap<u32, Text>) -> Result<(), Fail> {
    words.insert(0, Text::from_str(alloc, "upper")?)?;
    words.insert(1, Text::from_str(alloc, "len")?)?;
    Ok(())
}

fn no_facts(alloc: Global) -> PlainFacts {
    PlainFacts {
        classes: BTreeMap::new(alloc),
        members: BTreeMap::new(alloc),
        specials: BTreeMap::new(alloc),
        enums: BTreeMap::new(alloc),
        func_nodes: BTreeMap::new(alloc),
        funcs: BTreeMap::new(alloc),
        other_func: func_row(List::new(alloc), None),
        around: BTreeMap::new(alloc),
        slots: BTreeMap::new(alloc),
    }
}

fn nothing_known(alloc: Global) -> PlainView {
    PlainView {
        types: PlainTypes {
            types: BTreeMap::new(alloc),
        },
        facts: no_facts(alloc),
        params: BTreeMap::new(alloc),
        words: BTreeMap::new(alloc),
        class_words: BTreeMap::new(alloc),
        row_words: BTreeMap::new(alloc),
    }
}

fn fill(alloc: Global, view: &mut PlainView) -> Result<(), Fail> {
    put_types(alloc, &mut view.types.types)?;
    put_facts(alloc, &mut view.facts)?;
    put_params(alloc, &mut view.params)?;
    put_words(alloc, &mut view.words)?;
    put_classes(alloc, &mut view.class_words)?;
    put_rows(alloc, &mut view.row_words)
}

/// The members of a type and its text; the table of atoms comes first.
const TEXTS: [(&[Sample], &str); 37] = [
    (&[Sample::Int(-7)], "Literal[-7]"),
    (&[Sample::Bool(true)], "Literal[True]"),
    (&[Sample::Str("a\"b\n")], "Literal[\"a\\\"b\\n\"]"),
    (&[Sample::Str("\\\r\t")], "Literal[\"\\\\\\r\\t\"]"),
    (
        &[Sample::Str("aaaaaaaaaabbbbbbbbbbccccccccccddddddddddeeeeeeeeeef")],
        "Literal[\"aaaaaaaaaabbbbbbbbbbccccccccccddddddddddeeeeeeeeee...\"]",
    ),
    (&[Sample::HighByte], "Literal[b\"a\\xc8\\\"\"]"),
    (&[Sample::Member(0)], "Literal[E.A]"),
    (&[Sample::Inst(INT)], "int"),
    (&[Sample::Dict], "dict[str, int]"),
    (&[Sample::NoEntries], "tuple[()]"),
    (&[Sample::ManyEntries], "tuple[int, ...]"),
    (&[Sample::AnyCall], "Callable[..., str]"),
    (&[Sample::IntCall], "Callable[[int], str]"),
    (&[Sample::Deep], "list[list[list[list[...]]]]"),
    (
        &[Sample::Site(DISPLAY)],
        "list[Literal[1] | Literal[2] | Literal[3] | Literal[4] | ...]",
    ),
    (&[Sample::Site(LAMBDA)], "() -> Never"),
    (&[Sample::Class(INT)], "type[int]"),
    (&[Sample::Func(PLAIN)], "(a: int, b: str) -> int"),
    (
        &[Sample::Func(STARS)],
        "(*a: tuple[int, ...], **b: dict[str, int]) -> None",
    ),
    (&[Sample::Bound(PLAIN)], "(b: str) -> int"),
    (&[Sample::Method], "def upper"),
    (&[Sample::Builtin], "def len"),
    (&[Sample::Super(INT)], "super"),
    (&[Sample::Module], "Module(\"sys\")"),
    (&[Sample::Special], "Any"),
    (&[Sample::Unknown], "Unknown"),
    (&[Sample::Nothing], "None"),
    (&[Sample::Unbound], "Never"),
    (&[Sample::Open], "Never"),
    (&[Sample::Here], "Never"),
    (&[], "Never"),
    (
        &[Sample::Unbound, Sample::Nothing, Sample::Unknown],
        "Unknown | None",
    ),
    (
        &[Sample::Bool(true), Sample::Nothing, Sample::Bool(false)],
        "bool | None",
    ),
    (&[Sample::Member(1), Sample::Member(0)], "E"),
    (
        &[Sample::Int(1), Sample::Str("a"), Sample::Inst(INT)],
        "Literal[\"a\"] | int",
    ),
    (
        &[Sample::Module, Sample::Super(INT), Sample::Super(STR)],
        "super | Module(\"sys\")",
    ),
    (
        &[
            Sample::Int(17),
            Sample::Int(16),
            Sample::Int(15),
            Sample::Int(14),
            Sample::Int(13),
            Sample::Int(12),
            Sample::Int(11),
            Sample::Int(10),
            Sample::Int(9),
            Sample::Int(8),
            Sample::Int(7),
            Sample::Int(6),
            Sample::Int(5),
            Sample::Int(4),
            Sample::Int(3),
            Sample::Int(2),
            Sample::Int(1),
        ],
        "Literal[1] | Literal[2] | Literal[3] | Literal[4] | Literal[5] | Literal[6] | Literal[7] | Literal[8] | Literal[9] | Literal[10] | Literal[11] | Literal[12] | Literal[13] | Literal[14] | Literal[15] | Literal[16] | ...",
    ),
];

fn view_of(alloc: Global) -> Result<PlainView, Fail> {
    let mut view = nothing_known(alloc);
    fill(alloc, &mut view)?;
    Ok(view)
}

fn text_of(alloc: Global, samples: &[Sample]) -> Result<Text, Fail> {
    let ty = type_of(alloc, samples)?;
    Ok(type_text(alloc, &ty, &mut view_of(alloc)?)?)
}

#[test]
fn texts_of_types(rt: HostRuntime) -> Result<(), Fail> {
    for (samples, wanted) in TEXTS {
        compare(&rt, wanted, text_of(rt.alloc(), samples)?.as_str(), wanted);
    }
    Ok(())
}

const NARROW: [Sample; 3] = [Sample::Int(1), Sample::Bool(true), Sample::Member(1)];

#[test]
fn widens(rt: HostRuntime) -> Result<(), Fail> {
    let mut view = view_of(rt.alloc())?;
    let wide = type_of(rt.alloc(), &NARROW)?.widen(rt.alloc(), &view)?;
    let found = type_text(rt.alloc(), &wide, &mut view)?;
    compare(&rt, "widened", found.as_str(), "bool | E | int");
    Ok(())
}
