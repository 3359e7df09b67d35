//! An expression: an operator and two operands, the last three fields of a `T` or `E` line.
ghost use Rattle.std.specs.Prelude.{◌≡◌};
ghost use Rattle.chart.specs.Expressions.{expression_in, is_always, is_sound, operand_in, operator_in, tagged};
ghost use Rattle.text.specs.Unread.{unread};

use linefile::{FieldForm, end_fields, take_field};
use text::{Fields, parse_word};

/// What is worked out of the left and the right operand.
#[derive(Clone, Copy, PartialEq, Eq, Debug)]
pub enum Operator {
    /// The left word.
    Left,
    /// The sum, or the largest word where that is smaller.
    Sum,
    /// Left minus right, or 0 where right is larger.
    Difference,
    /// The bits set in both.
    Both,
    /// The bits set in either.
    Either,
    /// 1 where they are equal, else 0.
    Equal,
    /// 1 where left is smaller, else 0.
    Smaller,
}

// Operators are numbers in the file, and this is where they stop being numbers.
impl FieldForm for Operator {
    ghost form = { operator_in };

    fn parse(field: &[u8]) -> Option<Operator> {
        match parse_word(field)? {
            0 => Some(Operator::Left),
            1 => Some(Operator::Sum),
            2 => Some(Operator::Difference),
            3 => Some(Operator::Both),
            4 => Some(Operator::Either),
            5 => Some(Operator::Equal),
            6 => Some(Operator::Smaller),
            _ => None,
        }
    }
}

/// A constant, or the variable of that number.
#[derive(Clone, Copy, PartialEq, Eq, Debug)]
pub enum Operand {
    Constant(u32),
    Variable(u32),
}

// The operand of a tag and a number.
fn tag_number(tag: u8, number: u32) -> Option<Operand>
    ensures { result ≡ tagged tag number }
{
    match tag {
        b'c' => Some(Operand::Constant(number)),
        b'v' => Some(Operand::Variable(number)),
        _ => None,
    }
}

impl FieldForm for Operand {
    ghost form = { operand_in };

    fn parse(field: &[u8]) -> Option<Operand> {
        match field {
            [tag, digits @ ..] => tag_number(*tag, parse_word(digits)?),
            [] => None,
        }
    }
}

/// An operator with its operands.
#[derive(Clone, Copy, PartialEq, Eq, Debug)]
pub struct Expression {
    pub operator: Operator,
    pub left: Operand,
    pub right: Operand,
}

// The expression `0,c1,c0`.
const ALWAYS: Expression = Expression {
    operator: Operator::Left,
    left: Operand::Constant(1),
    right: Operand::Constant(0),
};

impl Expression {
    /// Is it `0,c1,c0`, which is always 1?
    pub fn is_always(self) -> bool
        ensures { result ≡ is_always self }
    {
        self == ALWAYS
    }
}

// An operator without a right operand has `c0` in its place.
fn is_sound(expression: Expression) -> bool
    ensures { result ≡ is_sound expression }
{
    expression.operator != Operator::Left || expression.right == Operand::Constant(0)
}

// The expression that the last three fields of a line are.
pub(crate) fn parse_expression(mut fields: Fields) -> Option<Expression>
    ensures { result ≡ expression_in (unread fields.entry) }
{
    let operator = take_field(&mut fields)?;
    let left = take_field(&mut fields)?;
    let right = take_field(&mut fields)?;
    end_fields(fields)?;
    let expression = Expression {
        operator,
        left,
        right,
    };
    is_sound(expression).then_some(expression)
}
