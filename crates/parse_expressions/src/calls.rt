//! Calls of JNI functions, what variables are set to, and what is tested.

ghost use Rattle.std.specs.Prelude.{◌≡◌, ◌≤◌, ◌+◌, length, map};
ghost use Rattle.syntax.specs.Views.{argument_tree, call_tree, right_side_tree, test_tree};
ghost use Rattle.parse_lexemes.specs.Results.{Gives};
ghost use Rattle.parse_lexemes.specs.Lexemes.{views};
ghost use Rattle.parse_expressions.specs.Reading.{interface_at, value_at, argument_at, arguments_at, call_at, starts_call, right_at, setting_at, test_at};

use crate::expressions::{expression, owned_name, right_expression};
use parse_lexemes::{Cursor, Fixed, ParseError};
use scan::{Mark, Word};
use syntax::{Argument, Call, ExprStack, Name, RightSide, Test};

/// What comes after `(*env)->`.
#[tactic(auto, unfolding(crate::specs::Reading::interface_at))]
fn interface(lexemes: Cursor<'_>) -> Result<Cursor<'_>, ParseError>
    ensures { Gives (λ x. views x) result (interface_at (views lexemes.entry)) }
{
    lexemes
        .expect(Fixed::Mark(Mark::OpenParen))?
        .expect(Fixed::Mark(Mark::Star))?
        .expect(Fixed::Word(Word::Env))?
        .expect(Fixed::Mark(Mark::CloseParen))?
        .expect(Fixed::Mark(Mark::Arrow))
}

/// An argument that is no string.
#[tactic(auto, unfolding(crate::specs::Reading::value_at))]
fn value<'t>(
    stack: &mut ExprStack,
    room: u32,
    lexemes: Cursor<'t>,
) -> Result<(Argument, Cursor<'t>), ParseError>
    requires { room ≤ 32 }
    ensures { Gives (λ x. (argument_tree x.0, views x.1)) result (value_at room (views lexemes.entry)) }
{
    if lexemes.starts_with(Fixed::Mark(Mark::Ampersand)) {
        let (name, rest) = owned_name(stack.alloc(), lexemes.skip())?;
        return Ok((Argument::AddressOf(name), rest));
    }
    let (value, _, rest) = expression(stack, room, 0, lexemes)?;
    Ok((Argument::Value(value), rest))
}

/// An argument.
#[tactic(auto, unfolding(crate::specs::Reading::argument_at))]
fn argument<'t>(
    stack: &mut ExprStack,
    room: u32,
    lexemes: Cursor<'t>,
) -> Result<(Argument, Cursor<'t>), ParseError>
    requires { room ≤ 32 }
    ensures { Gives (λ x. (argument_tree x.0, views x.1)) result (argument_at room (views lexemes.entry)) }
{
    match lexemes.text() {
        Some(bytes) => {
            let bytes = Vec::from_slice(stack.alloc(), bytes)?;
            Ok((Argument::Text(bytes), lexemes.skip()))
        }
        None => value(stack, room, lexemes),
    }
}

/// For how many arguments memory is taken at most before they are read.
const MOST_AHEAD: usize = 16;

/// For how many arguments, each with the comma before it, memory is taken before they are read: all where each is one token,
/// and otherwise up to the first that is more.
fn arguments_ahead(lexemes: Cursor<'_>) -> usize {
    let mut rest = lexemes;
    for count in 0..MOST_AHEAD {
        if !rest.starts_with(Fixed::Mark(Mark::Comma)) {
            return count;
        }
        rest = rest.skip().skip();
    }
    MOST_AHEAD
}

/// Arguments, each with the comma before it.
fn arguments<'t>(
    stack: &mut ExprStack,
    room: u32,
    lexemes: Cursor<'t>,
) -> Result<(Vec<Argument>, Cursor<'t>), ParseError>
    requires { room ≤ 32 }
    ensures { Gives (λ x. (map argument_tree x.0.items, views x.1)) result (arguments_at room (length (views lexemes.entry) + 1) (views lexemes.entry)) }
{
    let mut arguments = Vec::with_capacity(stack.alloc(), arguments_ahead(lexemes))?;
    let mut rest = lexemes;
    'arguments: while rest.starts_with(Fixed::Mark(Mark::Comma)) {
        let (argument, after) = argument(stack, room, rest.skip())?;
        arguments.push(argument)?;
        rest = after;
    }
    Ok((arguments, rest))
}

/// A call of a JNI function, and what comes after it.
#[tactic(auto, unfolding(crate::specs::Reading::call_at))]
pub fn call<'t>(
    stack: &mut ExprStack,
    room: u32,
    lexemes: Cursor<'t>,
) -> Result<(Call, Cursor<'t>), ParseError>
    requires { room ≤ 32 }
    ensures { Gives (λ x. (call_tree x.0, views x.1)) result (call_at room (views lexemes.entry)) }
{
    let (function, rest) = interface(lexemes)?.name()?;
    let rest = rest
        .expect(Fixed::Mark(Mark::OpenParen))?
        .expect(Fixed::Word(Word::Env))?;
    let (arguments, rest) = arguments(stack, room, rest)?;
    let rest = rest.expect(Fixed::Mark(Mark::CloseParen))?;
    let function = Name::new(stack.alloc(), function)?;
    let call = Call {
        function,
        arguments,
    };
    Ok((call, rest))
}

/// Whether a call comes next: no expression begins with `(*`.
fn starts_call(lexemes: Cursor<'_>) -> bool
    ensures { result ≡ starts_call (views lexemes.entry) }
{
    lexemes.starts_with(Fixed::Mark(Mark::OpenParen))
        && lexemes.skip().starts_with(Fixed::Mark(Mark::Star))
}

/// An expression or a call.
#[tactic(auto, unfolding(crate::specs::Reading::right_at))]
pub(crate) fn right_side<'t>(
    stack: &mut ExprStack,
    room: u32,
    lexemes: Cursor<'t>,
) -> Result<(RightSide, Cursor<'t>), ParseError>
    requires { room ≤ 32 }
    ensures { Gives (λ x. (right_side_tree x.0, views x.1)) result (right_at room (views lexemes.entry)) }
{
    if starts_call(lexemes) {
        let (call, rest) = call(stack, room, lexemes)?;
        return Ok((RightSide::Call(call), rest));
    }
    let (value, _, rest) = right_expression(stack, room, lexemes)?;
    Ok((RightSide::Expr(value), rest))
}

/// A name, what it is set to, and what comes after the semicolon.
#[tactic(auto, unfolding(crate::specs::Reading::setting_at))]
pub fn setting<'t>(
    stack: &mut ExprStack,
    room: u32,
    lexemes: Cursor<'t>,
) -> Result<(Name, RightSide, Cursor<'t>), ParseError>
    requires { room ≤ 32 }
    ensures { Gives (λ x. (x.0, right_side_tree x.1, views x.2)) result (setting_at room (views lexemes.entry)) }
{
    let (name, rest) = lexemes.name()?;
    let rest = rest.expect(Fixed::Mark(Mark::Assign))?;
    let (right, rest) = right_side(stack, room, rest)?;
    let rest = rest.expect(Fixed::Mark(Mark::Semicolon))?;
    Ok((Name::new(stack.alloc(), name)?, right, rest))
}

/// An expression, or a call that is tested for 0.
#[tactic(auto, unfolding(crate::specs::Reading::test_at))]
pub fn test<'t>(
    stack: &mut ExprStack,
    room: u32,
    lexemes: Cursor<'t>,
) -> Result<(Test, Cursor<'t>), ParseError>
    requires { room ≤ 32 }
    ensures { Gives (λ x. (test_tree x.0, views x.1)) result (test_at room (views lexemes.entry)) }
{
    if starts_call(lexemes) {
        let (call, rest) = call(stack, room, lexemes)?;
        let (_, rest) = rest.expect(Fixed::Mark(Mark::Equal))?.number(0, 0)?;
        return Ok((Test::Call(call), rest));
    }
    let (value, _, rest) = expression(stack, room, 0, lexemes)?;
    Ok((Test::Expr(value), rest))
}
