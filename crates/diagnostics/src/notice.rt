//! What is said without a type.
ghost use Rattle.std.specs.Prelude.{◌≡◌, ◌++◌, IfOk, codes};
ghost use Rattle.diagnostics.specs.Messages.{notice_row, diagnostic};

use crate::joined::three;
use py_base::{Diag, NoMemory, Rule, Text};
use std::alloc::Global;

/// What a diagnostic can say without a type. Faults of a logical line stand at its span, the limits of
/// the whole text at `WHOLE_TEXT`.
#[derive(Drop)]
pub enum Notice {
    /// No token begins in the line at some character.
    BadCharacter,
    UnclosedString,
    UnclosedBracket,
    /// The line's column is that of no open block.
    BadDedent,
    /// No tree spells the line.
    NotAStatement,
    /// A rule of blocks is broken at the line.
    MisplacedBlock,
    /// Brackets, fields of f-strings or blocks are too deep in one another.
    NestingLimit,
    /// An integer literal is too wide.
    WideLiteral,
    /// The text has too many bytes.
    TextLimit,
    /// The text has too many points for its references.
    FlowLimit,
    /// A construct that is accepted, and not checked.
    OutsideProfile,
    /// A name that nobody binds.
    UndefinedName(Text),
    /// A name without a value.
    Unbound(Text),
    /// A name that on some path has no value.
    PossiblyUnbound(Text),
    /// An attribute's name, of a value that can be `None`.
    NoneAttribute(Text),
    /// A call whose arguments do not match the parameters.
    Arguments,
    /// A class whose bases have no order.
    BaseOrder,
    /// A part of an annotation that is no type.
    NotAType,
}

/// Where the limits of a whole text stand.
pub const WHOLE_TEXT: [u32; 4] = [0, 0, 0, 0];

impl Notice {
    /// Its rule.
    pub fn rule(&self) -> Rule
        ensures { result ≡ (notice_row self.now).rule }
    {
        match self {
            Notice::BadCharacter | Notice::UnclosedString | Notice::UnclosedBracket => Rule::Syntax,
            Notice::BadDedent | Notice::NotAStatement | Notice::MisplacedBlock => Rule::Syntax,
            Notice::NestingLimit | Notice::WideLiteral => Rule::Limit,
            Notice::TextLimit | Notice::FlowLimit => Rule::Limit,
            Notice::OutsideProfile => Rule::OutsideProfile,
            Notice::UndefinedName(_) => Rule::UndefinedName,
            Notice::Unbound(_) => Rule::Unbound,
            Notice::PossiblyUnbound(_) => Rule::PossiblyUnbound,
            Notice::NoneAttribute(_) => Rule::NoneAttribute,
            Notice::Arguments => Rule::Arguments,
            Notice::BaseOrder => Rule::BaseOrder,
            Notice::NotAType => Rule::Annotation,
        }
    }

    /// Its text. `NoMemory` where it could not be stored.
    pub fn text(&self, alloc: Global) -> Result<Text, NoMemory>
        ensures { IfOk result (λ text. text ≡ (notice_row self.now).text) }
    {
        match self {
            Notice::BadCharacter => Text::from_str(alloc, "Invalid character in source"),
            Notice::UnclosedString => Text::from_str(alloc, "String is not closed"),
            Notice::UnclosedBracket => Text::from_str(alloc, "Bracket is not closed"),
            Notice::BadDedent => {
                Text::from_str(alloc, "Indentation does not match any outer block")
            }
            Notice::NotAStatement => Text::from_str(alloc, "Statement is not valid"),
            Notice::MisplacedBlock => Text::from_str(alloc, "Block is not valid here"),
            Notice::NestingLimit => Text::from_str(alloc, "Nesting is deeper than 64"),
            Notice::WideLiteral => Text::from_str(alloc, "Integer is wider than 128 bits"),
            Notice::TextLimit => Text::from_str(alloc, "Text is longer than 524288 bytes"),
            Notice::FlowLimit => Text::from_str(alloc, "Flow analysis is larger than 2000000"),
            Notice::OutsideProfile => Text::from_str(alloc, "Outside the checked profile"),
            Notice::UndefinedName(name) => of_name(alloc, name, "\" is not defined"),
            Notice::Unbound(name) => of_name(alloc, name, "\" is unbound"),
            Notice::PossiblyUnbound(name) => of_name(alloc, name, "\" is possibly unbound"),
            Notice::NoneAttribute(name) => of_name(
                alloc,
                name,
                "\" is not an attribute of \"None\"",
            ),
            Notice::Arguments => Text::from_str(alloc, "Arguments do not match the parameters"),
            Notice::BaseOrder => Text::from_str(alloc, "Base classes have no consistent order"),
            Notice::NotAType => Text::from_str(alloc, "Not a type"),
        }
    }

    /// The diagnostic that says so at this place: line and column of its beginning, and then of its end.
    pub fn diagnostic(&self, alloc: Global, at: [u32; 4]) -> Result<Diag, NoMemory>
        ensures { IfOk result (λ d. d ≡ diagnostic at (notice_row self.now)) }
    {
        let text = self.text(alloc)?;
        let rule = self.rule();
        Ok(Diag { at, rule, text })
    }
}

/// What is said of a name, which stands before it in quotes.
fn of_name(alloc: Global, name: &Text, said: &str) -> Result<Text, NoMemory>
    ensures { IfOk result (λ text. text ≡ codes "\"" ++ name.now ++ said.now) }
{
    three(alloc, "\"", name.as_str(), said)
}
