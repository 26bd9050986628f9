// The tree of a rule, its names resolved to places.

use crate::arrays::Array;

/// An operator on two numbers of 64 bits without sign. A comparison and a truth value are 1 if they
/// hold and 0 if not, and every number but 0 counts as true.
#[derive(Clone, Copy, Debug, PartialEq, Eq)]
pub enum Operator {
    /// `x + y`, at most 2^64 - 1.
    Plus,
    /// `x - y`, at least 0.
    Minus,
    /// `x * y`, at most 2^64 - 1.
    Times,
    /// `x / y`, or 0 if `y` is 0.
    Over,
    /// `x % y`, or 0 if `y` is 0.
    Modulo,
    /// `x << y`: high bits are lost, and the result is 0 if `y` is 64 or more.
    ShiftLeft,
    /// `x >> y`: the result is 0 if `y` is 64 or more.
    ShiftRight,
    /// `x & y`, bit by bit.
    BitAnd,
    /// `x ^ y`, bit by bit.
    BitXor,
    /// `x | y`, bit by bit.
    BitOr,
    /// `x == y`.
    Same,
    /// `x != y`.
    Different,
    /// `x < y`.
    Below,
    /// `x <= y`.
    AtMost,
    /// `x > y`.
    Above,
    /// `x >= y`.
    AtLeast,
    /// `x && y`. Both sides are computed.
    Both,
    /// `x || y`. Both sides are computed.
    Either,
    /// `min(x, y)`.
    Least,
    /// `max(x, y)`.
    Greatest,
}

/// The distribution of a drawn number that has one parameter.
#[derive(Clone, Copy, Debug, PartialEq, Eq)]
pub enum Law {
    /// `draw(n)`: the word mod `n`, or 0 if `n` is 0.
    Uniform,
    /// `exponential(mean)`: rounded to the nearest number, at most 2^64 - 1.
    Exponential,
    /// `geometric(mean)`: the failures before the first success, where this is their mean; at most
    /// 2^64 - 1, and 0 if the mean is 0.
    Geometric,
}

/// A number that a rule can read about the handling.
#[derive(Clone, Copy, Debug, PartialEq, Eq)]
pub enum Known {
    /// `self`: the number of the process.
    Process,
    /// `sender`: the process that sent the message; at the start, the process itself.
    Sender,
    /// `now`: the message's time in ticks; at the start 0.
    Now,
    /// `lps`: the number of processes.
    Processes,
}

/// An expression, whose value is a number of 64 bits without sign.
#[derive(Debug, Drop)]
pub enum Expression {
    /// The number itself.
    Number(u64),
    /// The word of the state at a place, or 0 if the place is above 15.
    Word(u8),
    /// The word of the message's content at a place, or 0 if the place is above 3. It is 0 at the
    /// start.
    Content(u8),
    /// The value that a `let` or a `repeat` gave a place, or 0 if none did.
    Local(u8),
    /// A number about the handling.
    Read(Known),
    /// `!x`: 1 if the value is 0, otherwise 0.
    Not(Box<Expression>),
    /// An operator on two values. The left one is computed first.
    Two(Operator, Box<Expression>, Box<Expression>),
    /// The number of a table, by the table's place and an index in it. It is 0 if there is no such
    /// table or no such index.
    Entry(u32, Box<Expression>),
    /// `draw(x)`, `exponential(x)`, `geometric(x)`: a number by this law from the next drawn word.
    /// A word is drawn for every value.
    Draw(Law, Box<Expression>),
    /// `normal(x, y)`: a number by the normal law with this mean and this standard deviation, from
    /// the next drawn word; rounded to the nearest number, at least 0 and at most 2^64 - 1.
    Normal(Box<Expression>, Box<Expression>),
    /// `triangular(x, y, z)`: a number by the triangular law with this least value, this mode and
    /// this greatest value, from the next two drawn words; rounded to the nearest number. A
    /// greatest value below the least one counts as that, and a mode outside as the nearer end.
    Triangular(Box<Expression>, Box<Expression>, Box<Expression>),
    /// `choose(TABLE)`: an index of the table at this place by its weights, from the next drawn
    /// word. It is 0 if there is no such table or all its weights are 0.
    Choose(u32),
    /// The element of an array in the state at an index, or 0 if there is no such element.
    Element(Array, Box<Expression>),
}

/// A message to send. Its values are computed in the order of the fields.
#[derive(Debug, Drop)]
pub struct Sending {
    /// The receiver, which is taken mod the number of processes.
    pub to: Expression,
    /// The delay in ticks. A delay of 0 counts as 1, and one above 2^32 - 1 as that.
    pub after: Expression,
    /// The first word of its content.
    pub a: Expression,
    /// The second word of its content.
    pub b: Expression,
    /// The third word of its content.
    pub c: Expression,
    /// The fourth word of its content.
    pub d: Expression,
}

/// A statement of a rule.
#[derive(Debug, Drop)]
pub enum Statement {
    /// Gives the local name at a place the value. Does nothing if the place is above 15.
    Let(u8, Expression),
    /// Gives the word of the state at a place the value. Does nothing if the place is above 15.
    Set(u8, Expression),
    /// Sends a message.
    Send(Sending),
    /// Runs the first block if the value is not 0, otherwise the second.
    If(Expression, Vec<Statement>, Vec<Statement>),
    /// Runs the block a number of times. The local name at the place has the number of the turn,
    /// from 0 on.
    Repeat(u8, u32, Vec<Statement>),
    /// Runs the block at most a number of times. Before each turn the local name at the place gets
    /// the number of the turn, from 0 on, and the value is computed: once it is not 0, the repeat
    /// ends.
    RepeatUntil(u8, u32, Expression, Vec<Statement>),
    /// Gives the element of an array in the state at an index, the first value, the second value.
    /// Does nothing if there is no such element.
    Put(Array, Expression, Expression),
}
