//! Functions, statics and the whole program.

ghost use Rattle.std.specs.Prelude.{◌≡◌, ℕ, ◌+◌, List, length, map, IfOk, Ok};
ghost use Rattle.base.specs.Limits.{most_functions, most_statics};
ghost use Rattle.scan.specs.Spelling.{Spells};
ghost use Rattle.syntax.specs.Tree.{SourceUnit};
ghost use Rattle.syntax.specs.Views.{parameter_tree, block_tree, function_tree, static_tree, item_tree, unit_tree};
ghost use Rattle.parse_lexemes.specs.Results.{Gives};
ghost use Rattle.parse_lexemes.specs.Lexemes.{views, lexemes};
ghost use Rattle.parse.specs.Spelling.{SpellsUnit};
ghost use Rattle.parse.specs.Steps.{function_item_at, static_item_at};
ghost use Rattle.parse.specs.Reading.{head_at, body_at, signature_at, function_at, static_at, item_at, items_at, unit_at};

use crate::parameters::{NAMES, parameters};
use base::limits::{MOST_FUNCTIONS, MOST_STATICS};
use parse_lexemes::{Cursor, Fixed, ParseError, ParseRule, Source};
use parse_statements::block;
use scan::{Mark, Token, Word, one_spelling};
use std::alloc::{AllocError, Global};
use syntax::{
    Block, ExprStack, Function, Item, Name, Parameter, ReferenceType, ResultType, Static, Unit,
};

/// How high the trees in a function's block may be, which counts one itself.
const ROOM: u32 = 31;

/// What comes after the parameters that each function has.
#[tactic(auto, unfolding(crate::specs::Reading::head_at))]
fn head(lexemes: Cursor<'_>) -> Result<Cursor<'_>, ParseError>
    ensures { Gives (λ x. views x) result (head_at (views lexemes.entry)) }
{
    lexemes
        .expect(Fixed::Mark(Mark::OpenParen))?
        .expect(Fixed::Word(Word::JniEnv))?
        .expect(Fixed::Mark(Mark::Star))?
        .expect(Fixed::Word(Word::Env))?
        .expect(Fixed::Mark(Mark::Comma))?
        .expect(Fixed::Word(Word::Jclass))
}

/// A function's block, with what closes its parameters, where `free` more names may be declared.
#[tactic(auto, unfolding(crate::specs::Reading::body_at))]
fn body<'t>(
    stack: &mut ExprStack,
    free: usize,
    lexemes: Cursor<'t>,
) -> Result<(Block, Cursor<'t>), ParseError>
    ensures { Gives (λ x. (block_tree x.0, views x.1)) result (body_at free (views lexemes.entry)) }
{
    let rest = lexemes
        .expect(Fixed::Mark(Mark::CloseParen))?
        .expect(Fixed::Mark(Mark::OpenBrace))?;
    let (body, _, rest) = block(stack, ROOM, free, rest)?;
    Ok((body, rest))
}

/// What is read of a function before its parameters.
#[derive(Clone, Copy)]
struct Heading<'t> {
    result: ResultType,
    name: &'t [u8],
    /// The name of its class.
    class_name: &'t [u8],
}

/// The result, the name and the class of a function, and what comes after them.
#[tactic(auto, unfolding(crate::specs::Reading::signature_at))]
fn signature(lexemes: Cursor<'_>) -> Result<(Heading<'_>, Cursor<'_>), ParseError>
    ensures { Gives (λ x. (x.0.result, x.0.name.now, x.0.class_name.now, views x.1)) result
        (signature_at (views lexemes.entry)) }
{
    let rest = lexemes.expect(Fixed::Word(Word::JniExport))?;
    let Some(result) = rest.result_type() else {
        return Err(rest.unexpected());
    };
    let rest = rest.skip().expect(Fixed::Word(Word::JniCall))?;
    let (name, rest) = rest.name()?;
    let (class_name, rest) = head(rest)?.name()?;
    let heading = Heading {
        result,
        name,
        class_name,
    };
    Ok((heading, rest))
}

/// A function (JNI Specification, chapter 2, "Native Method Arguments").
#[tactic(auto, unfolding(crate::specs::Reading::function_at))]
fn function<'t>(
    stack: &mut ExprStack,
    lexemes: Cursor<'t>,
) -> Result<(Function, Cursor<'t>), ParseError>
    ensures { Gives (λ x. (function_tree x.0, views x.1)) result (function_at (views lexemes.entry)) }
{
    let line = lexemes.line();
    let (heading, rest) = signature(lexemes)?;
    let (parameters, rest) = parameters(stack.alloc(), rest)?;
    let (body, rest) = body(stack, NAMES - parameters.len(), rest)?;
    let function = made(stack.alloc(), line, heading, parameters, body)?;
    Ok((function, rest))
}

/// A function of its parts.
#[inline]
fn made(
    alloc: Global,
    line: usize,
    heading: Heading<'_>,
    parameters: Vec<Parameter>,
    body: Block,
) -> Result<Function, AllocError>
    ensures { IfOk result (λ f. function_tree f ≡ record {
      line = line;
      result = heading.entry.result;
      name = heading.entry.name.now;
      class_name = heading.entry.class_name.now;
      parameters = map parameter_tree parameters.items;
      body = block_tree body;
    }) }
{
    let name = Name::new(alloc, heading.name)?;
    let class_name = Name::new(alloc, heading.class_name)?;
    Ok(Function {
        line,
        result: heading.result,
        name,
        class_name,
        parameters,
        body,
    })
}

/// A reference that all functions share.
#[tactic(auto, unfolding(crate::specs::Reading::static_at))]
fn static_reference(alloc: Global, lexemes: Cursor<'_>) -> Result<(Static, Cursor<'_>), ParseError>
    ensures { Gives (λ x. (static_tree x.0, views x.1)) result (static_at (views lexemes.entry)) }
{
    let line = lexemes.line();
    let rest = lexemes.expect(Fixed::Word(Word::Static))?;
    let Some(kind) = rest.static_type() else {
        return Err(rest.unexpected());
    };
    let (name, rest) = rest.skip().name()?;
    let rest = rest
        .expect(Fixed::Mark(Mark::Assign))?
        .expect(Fixed::Word(Word::Null))?
        .expect(Fixed::Mark(Mark::Semicolon))?;
    let name = Name::new(alloc, name)?;
    Ok((Static { line, kind, name }, rest))
}

/// An item, how many more functions and statics there may be after it, and what comes after it.
type ReadItem<'t> = (Item, usize, usize, Cursor<'t>);

/// A function, where there may be this many more functions and statics.
#[inline]
#[tactic(auto, unfolding(crate::specs::Steps::function_item_at))]
fn function_item<'t>(
    stack: &mut ExprStack,
    functions: usize,
    statics: usize,
    lexemes: Cursor<'t>,
) -> Result<ReadItem<'t>, ParseError>
    ensures { Gives (λ x. (item_tree x.0, x.1, x.2, views x.3)) result (function_item_at functions statics (views lexemes.entry)) }
{
    if functions == 0 {
        return Err(lexemes.fault(ParseRule::TooMany));
    }
    let (function, rest) = function(stack, lexemes)?;
    Ok((Item::Function(function), functions - 1, statics, rest))
}

/// A static, where there may be this many more functions and statics.
#[inline]
#[tactic(auto, unfolding(crate::specs::Steps::static_item_at))]
fn static_item(
    alloc: Global,
    functions: usize,
    statics: usize,
    lexemes: Cursor<'_>,
) -> Result<ReadItem<'_>, ParseError>
    ensures { Gives (λ x. (item_tree x.0, x.1, x.2, views x.3)) result (static_item_at functions statics (views lexemes.entry)) }
{
    if statics == 0 {
        return Err(lexemes.fault(ParseRule::TooMany));
    }
    let (shared, rest) = static_reference(alloc, lexemes)?;
    Ok((Item::Static(shared), functions, statics - 1, rest))
}

/// An item, where there may be this many more functions and statics.
#[tactic(auto, unfolding(crate::specs::Reading::item_at, crate::specs::Steps::function_item_at, crate::specs::Steps::static_item_at))]
fn item<'t>(
    stack: &mut ExprStack,
    functions: usize,
    statics: usize,
    lexemes: Cursor<'t>,
) -> Result<ReadItem<'t>, ParseError>
    ensures { Gives (λ x. (item_tree x.0, x.1, x.2, views x.3)) result (item_at functions statics (views lexemes.entry)) }
{
    if lexemes.starts_with(Fixed::Word(Word::JniExport)) {
        return function_item(stack, functions, statics, lexemes);
    }
    if lexemes.starts_with(Fixed::Word(Word::Static)) {
        return static_item(stack.alloc(), functions, statics, lexemes);
    }
    Err(lexemes.unexpected())
}

/// All items of a program.
fn items(alloc: Global, lexemes: Cursor<'_>) -> Result<Vec<Item>, ParseError>
    ensures { Gives (λ v. map item_tree v.items) result (items_at (length (views lexemes.entry) + 1) most_functions most_statics (views lexemes.entry)) }
{
    let mut stack = ExprStack::new(alloc);
    let mut items = Vec::new(alloc);
    let mut rest = lexemes;
    let mut functions = MOST_FUNCTIONS;
    let mut statics = MOST_STATICS;
    'items: while !rest.starts_with(Fixed::End) {
        let (item, functions_left, statics_left, after) = item(
            &mut stack, functions, statics, rest,
        )?;
        items.push(item)?;
        functions = functions_left;
        statics = statics_left;
        rest = after;
    }
    Ok(items)
}

/// The syntax tree that the text spells by these tokens, which are the text's (ISO/IEC 9899:1999,
/// 6.5, 6.8 and 6.9, of which the language is a part). The time is linear in the text.
pub fn parse(alloc: Global, text: &[u8], tokens: &[Token]) -> Result<Unit, ParseError>
    requires { Spells text.now tokens.now }
    // What is found is spelled by the text.
    ensures found { IfOk result (λ unit. SpellsUnit text.now (unit_tree unit)) }
    // What the text spells is found, unless memory runs out.
    ensures only { (unit : SourceUnit) → SpellsUnit text.now unit → Gives unit_tree result (Ok unit) }
    // Which fault it is, and at which line.
    ensures exact { Gives unit_tree result (unit_at (lexemes text.now 1 tokens.now)) }
{
    one_spelling();
    let source = Source { text, tokens };
    let items = items(alloc, Cursor::start(&source))?;
    Ok(Unit::new(items))
}

/// The law that no text spells two units, for the proofs of callers.
pub fn one_unit()
    ensures { (text : List ℕ) (a b : SourceUnit) → SpellsUnit text a → SpellsUnit text b → a ≡ b }
{
    one_spelling();
}
