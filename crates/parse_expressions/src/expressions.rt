//! Expressions, by the levels of their operators (ISO/IEC 9899:1999, 6.5).

ghost use Rattle.std.specs.Prelude.{◌≡◌, ℕ, ◌+◌, ◌≤◌, ◌<◌, ◌∷◌, length, Ok, IfOk, OnOk, IfSome, IsTrue, is_ok};
ghost use Rattle.std.specs.Option.{option_map};
ghost use Rattle.syntax.specs.Limits.{operator_level};
ghost use Rattle.syntax.specs.Tree.{Number};
ghost use Rattle.syntax.specs.Nodes.{top, on_top};
ghost use Rattle.syntax.specs.Stacks.{stacked};
ghost use Rattle.syntax.specs.Views.{expr_tree};
ghost use Rattle.parse_lexemes.specs.Results.{Gives};
ghost use Rattle.parse_expressions.specs.Steps.{variable_at, right_by, within, opening_view, level_inside, around, ending_at, operand_of, cast_at, paren_opening_at, bracket_at, element_opening_at, starts_deep, opening_at};
ghost use Rattle.parse_lexemes.specs.Lexemes.{views, name_at};
ghost use Rattle.parse_expressions.specs.Reading.{ReadExpr, operator_at, binary_of_mark, named_of, primary_at, starts_element, starts_inside, index_at, operand_at, expr_at, right_expr_at, deeper};
ghost use Rattle.parse_lexemes.specs.Reading.{constant_of_word, rest_of};

use parse_lexemes::{Cursor, Fixed, ParseError, ParseRule, Shape};
use scan::{Mark, Word};
use std::alloc::{AllocError, Global};
use syntax::{BinaryOp, Constant, Expr, ExprStack, Name, PrefixOp};

/// An expression, its height, and what comes after it.
type ReadExpr<'t> = (Expr, u32, Cursor<'t>);

/// The height of an expression that is on a stack, and what comes after it.
type Pushed<'t> = (u32, Cursor<'t>);

/// What comes in an operand before an expression inside it.
#[derive(Clone, Copy)]
enum Opening<'t> {
    Prefix(PrefixOp),
    Paren,
    /// The name before an opening bracket.
    Element(&'t [u8]),
}

/// How an operand opens that has an expression inside, and what comes after that.
type ReadOpening<'t> = Option<(Opening<'t>, Cursor<'t>)>;

/// The level of prefixes, which bind tighter than all operators between two operands.
const PREFIX_LEVEL: u32 = 11;

/// The level of an operator between two operands: the higher, the tighter it binds.
fn level(op: BinaryOp) -> u32
    ensures { result ≡ operator_level op }
{
    match op {
        BinaryOp::LogicalOr => 1,
        BinaryOp::LogicalAnd => 2,
        BinaryOp::BitOr => 3,
        BinaryOp::BitXor => 4,
        BinaryOp::BitAnd => 5,
        BinaryOp::Equal | BinaryOp::NotEqual => 6,
        BinaryOp::Less | BinaryOp::LessEqual | BinaryOp::Greater | BinaryOp::GreaterEqual => 7,
        BinaryOp::ShiftLeft | BinaryOp::ShiftRight => 8,
        BinaryOp::Add | BinaryOp::Subtract => 9,
        BinaryOp::Multiply | BinaryOp::Divide | BinaryOp::Remainder => 10,
    }
}

/// The operator between two operands of a mark.
fn binary_of(mark: Mark) -> Option<BinaryOp>
    ensures { result ≡ binary_of_mark mark }
{
    match mark {
        Mark::LogicalOr => Some(BinaryOp::LogicalOr),
        Mark::LogicalAnd => Some(BinaryOp::LogicalAnd),
        Mark::Bar => Some(BinaryOp::BitOr),
        Mark::Caret => Some(BinaryOp::BitXor),
        Mark::Ampersand => Some(BinaryOp::BitAnd),
        Mark::Equal => Some(BinaryOp::Equal),
        Mark::NotEqual => Some(BinaryOp::NotEqual),
        Mark::Less => Some(BinaryOp::Less),
        Mark::LessEqual => Some(BinaryOp::LessEqual),
        Mark::Greater => Some(BinaryOp::Greater),
        Mark::GreaterEqual => Some(BinaryOp::GreaterEqual),
        Mark::ShiftLeft => Some(BinaryOp::ShiftLeft),
        Mark::ShiftRight => Some(BinaryOp::ShiftRight),
        Mark::Plus => Some(BinaryOp::Add),
        Mark::Minus => Some(BinaryOp::Subtract),
        Mark::Star => Some(BinaryOp::Multiply),
        Mark::Slash => Some(BinaryOp::Divide),
        Mark::Percent => Some(BinaryOp::Remainder),
        _ => None,
    }
}

/// The operator that comes next.
fn operator(rest: Cursor<'_>) -> Option<BinaryOp>
    ensures { result ≡ operator_at (views rest.entry) }
{
    binary_of(rest.mark()?)
}

/// The named constant of a word.
fn constant_of(word: Word) -> Option<Constant>
    ensures { result ≡ constant_of_word word }
{
    match word {
        Word::JniTrue => Some(Constant::True),
        Word::JniFalse => Some(Constant::False),
        Word::JniCommit => Some(Constant::Commit),
        Word::JniAbort => Some(Constant::Abort),
        Word::Null => Some(Constant::Null),
        _ => None,
    }
}

/// A name, and what comes after it.
pub fn owned_name(alloc: Global, lexemes: Cursor<'_>) -> Result<(Name, Cursor<'_>), ParseError>
    ensures { Gives (λ x. (x.0, views x.1)) result (name_at (views lexemes.entry)) }
{
    let (name, rest) = lexemes.name()?;
    let name = Name::new(alloc, name)?;
    Ok((name, rest))
}

/// Pushes a named constant.
#[inline(always)]
fn named<'t>(
    stack: &mut ExprStack,
    word: Word,
    lexemes: Cursor<'t>,
) -> Result<Pushed<'t>, ParseError>
    ensures pushed { OnOk result (stacked stack.new ≡ top (stacked stack.new) ∷ stacked stack.old) }
    ensures low { IfOk result (λ x. x.0 ≡ 0) }
    ensures gives { Gives {Y = ReadExpr} (λ x. (top (stacked stack.new), x.0, views x.1)) result
        (named_of (constant_of_word word) (views lexemes.entry) (rest_of (views lexemes.entry))) }
{
    match constant_of(word) {
        Some(constant) => {
            stack.named(constant)?;
            Ok((0, lexemes.skip()))
        }
        None => Err(lexemes.unexpected()),
    }
}

/// Pushes a name.
#[inline(always)]
fn variable<'t>(stack: &mut ExprStack, lexemes: Cursor<'t>) -> Result<Pushed<'t>, ParseError>
    ensures pushed { OnOk result (stacked stack.new ≡ top (stacked stack.new) ∷ stacked stack.old) }
    ensures low { IfOk result (λ x. x.0 ≡ 0) }
    ensures gives { Gives (λ x. (top (stacked stack.new), x.0, views x.1)) result (variable_at (views lexemes.entry)) }
{
    let (name, rest) = owned_name(stack.alloc(), lexemes)?;
    stack.variable(name)?;
    Ok((0, rest))
}

/// Pushes a number, a named constant or a name.
#[tactic(auto, unfolding(crate::specs::Reading::primary_at))]
fn primary<'t>(stack: &mut ExprStack, lexemes: Cursor<'t>) -> Result<Pushed<'t>, ParseError>
    ensures pushed { OnOk result (stacked stack.new ≡ top (stacked stack.new) ∷ stacked stack.old) }
    ensures low { IfOk result (λ x. x.0 ≡ 0) }
    ensures gives { Gives (λ x. (top (stacked stack.new), x.0, views x.1)) result (primary_at (views lexemes.entry)) }
{
    match lexemes.shape() {
        Shape::Number { value, unsigned } => {
            stack.number(value, unsigned)?;
            Ok((0, lexemes.skip()))
        }
        Shape::Name => variable(stack, lexemes),
        Shape::Fixed(Fixed::Word(word)) => named(stack, word, lexemes),
        _ => Err(lexemes.unexpected()),
    }
}

/// Puts around the last expression what it is inside of.
fn around(stack: &mut ExprStack, opening: Opening<'_>) -> Result<(), AllocError>
    requires { 1 ≤ length (stacked stack.old) }
    ensures { OnOk result (stacked stack.new ≡ on_top (around (opening_view opening.entry)) (stacked stack.old)) }
{
    match opening {
        Opening::Prefix(op) => stack.prefix(op),
        Opening::Paren => stack.paren(),
        Opening::Element(name) => {
            let name = Name::new(stack.alloc(), name)?;
            stack.element(name)
        }
    }
}

/// What comes after the end of an operand which opened so.
#[inline(always)]
fn ending<'t>(opening: Opening<'t>, lexemes: Cursor<'t>) -> Result<Cursor<'t>, ParseError>
    ensures { Gives views result (ending_at (opening_view opening.entry) (views lexemes.entry)) }
{
    match opening {
        Opening::Prefix(_) => Ok(lexemes),
        Opening::Paren => lexemes.expect(Fixed::Mark(Mark::CloseParen)),
        Opening::Element(_) => lexemes.expect(Fixed::Mark(Mark::CloseBracket)),
    }
}

/// Makes an operand of the last expression, which was read inside it, and gives what comes after it.
#[inline(always)]
fn operand_of<'t>(
    stack: &mut ExprStack,
    opening: Opening<'t>,
    inside: Pushed<'t>,
) -> Result<Pushed<'t>, ParseError>
    requires some { 1 ≤ length (stacked stack.old) }
    requires low { inside.0 < 32 }
    ensures pushed { OnOk result (stacked stack.new ≡ on_top (around (opening_view opening.entry)) (stacked stack.old)) }
    ensures low { IfOk result (λ x. x.0 ≡ 1 + inside.entry.0) }
    ensures gives { Gives (λ x. (top (stacked stack.new), x.0, views x.1)) result
        (operand_of (opening_view opening.entry) (top (stacked stack.old), inside.entry.0, views inside.entry.1)) }
{
    let (height, rest) = inside;
    let rest = ending(opening, rest)?;
    around(stack, opening)?;
    Ok((1 + height, rest))
}

/// The operator that comes next, where it is of this level or tighter.
#[inline(always)]
fn operator_within(least: u32, rest: Cursor<'_>) -> Option<BinaryOp>
    ensures { result ≡ within least (operator_at (views rest.entry)) }
{
    match operator(rest) {
        Some(op) if level(op) >= least => Some(op),
        _ => None,
    }
}

/// The number that comes next, where no operator of this level or tighter comes after it: its value, and whether it ends in `u`.
#[inline(always)]
fn lone_number(least: u32, lexemes: Cursor<'_>) -> Option<(u32, bool)>
    ensures { IfSome result (λ n. (room : ℕ) → expr_at room least (views lexemes.entry)
        ≡ Ok (Number n.0 n.1, 0, rest_of (views lexemes.entry))) }
{
    match lexemes.shape() {
        Shape::Number { value, unsigned } => match operator_within(least, lexemes.skip()) {
            Some(_) => None,
            None => Some((value, unsigned)),
        },
        _ => None,
    }
}

/// Whether a name is the whole expression of this level or tighter that comes next.
#[inline(always)]
fn is_lone_name(least: u32, lexemes: Cursor<'_>) -> bool
    ensures { IsTrue result → (room : ℕ) → expr_at room least (views lexemes.entry) ≡ variable_at (views lexemes.entry) }
{
    match lexemes.shape() {
        Shape::Name => {
            let rest = lexemes.skip();
            !rest.starts_with(Fixed::Mark(Mark::OpenBracket))
                && operator_within(least, rest).is_none()
        }
        _ => false,
    }
}

/// Whether an operand begins here that holds another expression.
fn starts_deep(lexemes: Cursor<'_>) -> bool
    ensures { result ≡ starts_deep (views lexemes.entry) }
{
    lexemes.starts_with(Fixed::Mark(Mark::Tilde))
        || lexemes.starts_with(Fixed::Mark(Mark::Exclamation))
        || lexemes.starts_with(Fixed::Mark(Mark::OpenParen))
}

/// Whether a name with an index comes next.
pub fn starts_element(lexemes: Cursor<'_>) -> bool
    ensures { result ≡ starts_element (views lexemes.entry) }
{
    lexemes.starts_name() && lexemes.skip().starts_with(Fixed::Mark(Mark::OpenBracket))
}

/// A cast, of which all but the closing parenthesis is read already.
#[inline(always)]
fn cast(op: PrefixOp, lexemes: Cursor<'_>) -> Result<ReadOpening<'_>, ParseError>
    ensures { Gives (option_map (λ x. (opening_view x.0, views x.1))) result (cast_at op (views lexemes.entry)) }
{
    let rest = lexemes.expect(Fixed::Mark(Mark::CloseParen))?;
    Ok(Some((Opening::Prefix(op), rest)))
}

/// What opens with a parenthesis: a cast, or an expression.
#[inline(always)]
#[tactic(auto, unfolding(crate::specs::Steps::paren_opening_at))]
fn paren_opening(lexemes: Cursor<'_>) -> Result<ReadOpening<'_>, ParseError>
    ensures { Gives (option_map (λ x. (opening_view x.0, views x.1))) result (paren_opening_at (views lexemes.entry)) }
{
    if lexemes.starts_with(Fixed::Word(Word::Uint32)) {
        return cast(PrefixOp::ToWord, lexemes.skip());
    }
    if lexemes.starts_with(Fixed::Word(Word::Jint)) {
        return cast(PrefixOp::ToInt, lexemes.skip());
    }
    Ok(Some((Opening::Paren, lexemes)))
}

/// What comes after the opening bracket of an index, which counts one of the height.
#[inline(always)]
#[tactic(auto, unfolding(crate::specs::Steps::bracket_at))]
fn bracket(room: u32, lexemes: Cursor<'_>) -> Result<Cursor<'_>, ParseError>
    ensures some { IfOk result (λ _. 1 ≤ room) }
    ensures gives { Gives views result (bracket_at room (views lexemes.entry)) }
{
    if room == 0 {
        return Err(lexemes.fault(ParseRule::TooHigh));
    }
    lexemes.expect(Fixed::Mark(Mark::OpenBracket))
}

/// The name of an element, and its opening bracket.
#[inline(always)]
#[tactic(auto, unfolding(crate::specs::Steps::element_opening_at))]
fn element_opening(room: u32, lexemes: Cursor<'_>) -> Result<ReadOpening<'_>, ParseError>
    ensures some { IfOk result (λ _. 1 ≤ room) }
    ensures gives { Gives (option_map (λ x. (opening_view x.0, views x.1))) result (element_opening_at room (views lexemes.entry)) }
{
    let (name, rest) = lexemes.name()?;
    let rest = bracket(room, rest)?;
    Ok(Some((Opening::Element(name), rest)))
}

/// How an operand opens that has an expression inside, for which there is room, and what comes after that.
#[inline(always)]
#[tactic(auto, unfolding(crate::specs::Steps::opening_at))]
fn operand_opening(room: u32, lexemes: Cursor<'_>) -> Result<ReadOpening<'_>, ParseError>
    ensures some { IfOk result (λ x. IfSome x (λ _. 1 ≤ room)) }
    ensures gives { Gives (option_map (λ x. (opening_view x.0, views x.1))) result (opening_at room (views lexemes.entry)) }
{
    if room == 0 && starts_deep(lexemes) {
        return Err(lexemes.fault(ParseRule::TooHigh));
    }
    if lexemes.starts_with(Fixed::Mark(Mark::Tilde)) {
        let prefix = Opening::Prefix(PrefixOp::Complement);
        return Ok(Some((prefix, lexemes.skip())));
    }
    if lexemes.starts_with(Fixed::Mark(Mark::Exclamation)) {
        let prefix = Opening::Prefix(PrefixOp::LogicalNot);
        return Ok(Some((prefix, lexemes.skip())));
    }
    if lexemes.starts_with(Fixed::Mark(Mark::OpenParen)) {
        return paren_opening(lexemes.skip());
    }
    if starts_element(lexemes) {
        return element_opening(room, lexemes);
    }
    Ok(None)
}

/// The level of the expression inside an operand that opens so.
#[inline(always)]
fn level_inside(opening: Opening<'_>) -> u32
    ensures { result ≡ level_inside (opening_view opening.entry) }
{
    match opening {
        Opening::Prefix(_) => PREFIX_LEVEL,
        Opening::Paren | Opening::Element(_) => 0,
    }
}

/// Pushes an expression of this level or tighter, no higher than there is room.
#[cycle(expressions)]
fn push_expression<'t>(
    stack: &mut ExprStack,
    room: u32,
    least: u32,
    lexemes: Cursor<'t>,
) -> Result<Pushed<'t>, ParseError>
    requires { room ≤ 32 }
    ensures pushed { OnOk result (stacked stack.new ≡ top (stacked stack.new) ∷ stacked stack.old) }
    ensures low { IfOk result (λ x. x.0 ≤ room) }
    ensures gives { Gives (λ x. (top (stacked stack.new), x.0, views x.1)) result (expr_at room least (views lexemes.entry)) }
{
    let (mut height, mut rest) = operand(stack, room, lexemes)?;
    while let Some(op) = operator_within(least, rest) {
        let start = stack.len();
        let (right_height, after) = right_operand(stack, room, height, op, rest)?;
        stack.binary(op, start)?;
        height = 1 + height.max(right_height);
        rest = after;
    }
    Ok((height, rest))
}

/// Pushes the right operand of an operator whose left one has this height.
#[cycle(expressions)]
fn right_operand<'t>(
    stack: &mut ExprStack,
    room: u32,
    height: u32,
    op: BinaryOp,
    lexemes: Cursor<'t>,
) -> Result<Pushed<'t>, ParseError>
    requires { room ≤ 32 }
    ensures pushed { OnOk result (stacked stack.new ≡ top (stacked stack.new) ∷ stacked stack.old) }
    ensures low { IfOk result (λ x. (x.0 < room) × (height < room)) }
    ensures gives { Gives (λ x. (top (stacked stack.new), x.0, views x.1)) result (right_by (deeper room) room height op (views lexemes.entry)) }
{
    if height >= room {
        return Err(lexemes.fault(ParseRule::TooHigh));
    }
    let operand = lexemes.skip();
    // Most right operands are numbers, which no call is needed for.
    if let Some((value, unsigned)) = lone_number(level(op) + 1, operand) {
        stack.number(value, unsigned)?;
        return Ok((0, operand.skip()));
    }
    push_expression(stack, room - 1, level(op) + 1, operand)
}

/// Pushes a prefix with its operand, parentheses, an element, or a primary expression. Most are numbers, and are told at once.
#[cycle(expressions)]
fn operand<'t>(
    stack: &mut ExprStack,
    room: u32,
    lexemes: Cursor<'t>,
) -> Result<Pushed<'t>, ParseError>
    requires { room ≤ 32 }
    ensures pushed { OnOk result (stacked stack.new ≡ top (stacked stack.new) ∷ stacked stack.old) }
    ensures low { IfOk result (λ x. x.0 ≤ room) }
    ensures gives { Gives (λ x. (top (stacked stack.new), x.0, views x.1)) result (operand_at room (views lexemes.entry)) }
{
    match lexemes.shape() {
        Shape::Number { value, unsigned } => {
            stack.number(value, unsigned)?;
            Ok((0, lexemes.skip()))
        }
        _ => other_operand(stack, room, lexemes),
    }
}

/// Pushes an operand, whatever it begins with.
#[cycle(expressions)]
fn other_operand<'t>(
    stack: &mut ExprStack,
    room: u32,
    lexemes: Cursor<'t>,
) -> Result<Pushed<'t>, ParseError>
    requires { room ≤ 32 }
    ensures pushed { OnOk result (stacked stack.new ≡ top (stacked stack.new) ∷ stacked stack.old) }
    ensures low { IfOk result (λ x. x.0 ≤ room) }
    ensures gives { Gives (λ x. (top (stacked stack.new), x.0, views x.1)) result (operand_at room (views lexemes.entry)) }
{
    let Some((opening, rest)) = operand_opening(room, lexemes)? else {
        return primary(stack, lexemes);
    };
    let inside = push_expression(stack, room - 1, level_inside(opening), rest)?;
    operand_of(stack, opening, inside)
}

/// An expression of this level or tighter, no higher than there is room. It is read on the stack, which has afterwards what it had before, unless there is a fault.
pub fn expression<'t>(
    stack: &mut ExprStack,
    room: u32,
    least: u32,
    lexemes: Cursor<'t>,
) -> Result<ReadExpr<'t>, ParseError>
    requires { room ≤ 32 }
    ensures low { IfOk result (λ x. x.1 ≤ room) }
    ensures gives { Gives (λ x. (expr_tree x.0, x.1, views x.2)) result (expr_at room least (views lexemes.entry)) }
{
    let start = stack.len();
    // Most expressions are names, which no call is needed for.
    if is_lone_name(least, lexemes) {
        let (height, rest) = variable(stack, lexemes)?;
        return Ok((stack.take(start)?, height, rest));
    }
    let (height, rest) = push_expression(stack, room, least, lexemes)?;
    Ok((stack.take(start)?, height, rest))
}

/// An index in its brackets, which counts one of the height.
pub fn index<'t>(
    stack: &mut ExprStack,
    room: u32,
    lexemes: Cursor<'t>,
) -> Result<ReadExpr<'t>, ParseError>
    requires { room ≤ 32 }
    ensures low { IfOk result (λ x. x.1 < room) }
    ensures gives { Gives (λ x. (expr_tree x.0, x.1, views x.2)) result (index_at room (views lexemes.entry)) }
{
    let rest = bracket(room, lexemes)?;
    let start = stack.len();
    let (height, rest) = push_expression(stack, room - 1, 0, rest)?;
    let rest = rest.expect(Fixed::Mark(Mark::CloseBracket))?;
    Ok((stack.take(start)?, height, rest))
}

/// Whether a number, a named constant or a name comes next.
#[tactic(auto, unfolding(crate::specs::Reading::primary_at))]
fn starts_primary(lexemes: Cursor<'_>) -> bool
    ensures { result ≡ is_ok (primary_at (views lexemes.entry)) }
{
    match lexemes.shape() {
        Shape::Number { .. } | Shape::Name => true,
        Shape::Fixed(Fixed::Word(word)) => constant_of(word).is_some(),
        _ => false,
    }
}

/// Whether what comes next may follow the opening parenthesis of an operand.
#[tactic(auto, unfolding(crate::specs::Reading::starts_inside))]
fn starts_inside(lexemes: Cursor<'_>) -> bool
    ensures { result ≡ starts_inside (views lexemes.entry) }
{
    starts_primary(lexemes)
        || lexemes.starts_with(Fixed::Mark(Mark::OpenParen))
        || lexemes.starts_with(Fixed::Mark(Mark::Tilde))
        || lexemes.starts_with(Fixed::Mark(Mark::Exclamation))
        || lexemes.starts_with(Fixed::Word(Word::Uint32))
        || lexemes.starts_with(Fixed::Word(Word::Jint))
}

/// The expression of a right side. Where no height is left, its parenthesis may still be that of a
/// call: the token after it is the first that can't be there.
#[tactic(auto, unfolding(crate::specs::Reading::right_expr_at))]
pub(crate) fn right_expression<'t>(
    stack: &mut ExprStack,
    room: u32,
    lexemes: Cursor<'t>,
) -> Result<ReadExpr<'t>, ParseError>
    requires { room ≤ 32 }
    ensures { Gives (λ x. (expr_tree x.0, x.1, views x.2)) result (right_expr_at room (views lexemes.entry)) }
{
    if lexemes.starts_with(Fixed::Mark(Mark::OpenParen)) && room == 0 {
        let rest = lexemes.skip();
        if starts_inside(rest) {
            return Err(rest.fault(ParseRule::TooHigh));
        }
        return Err(rest.unexpected());
    }
    expression(stack, room, 0, lexemes)
}
