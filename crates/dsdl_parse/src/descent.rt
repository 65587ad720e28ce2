//! Reading expressions by descent: each function reads one rule of the grammar (Cyphal
//! Specification, section 3.2) from the front of the words. `depth` is the number of levels of
//! nesting that may still be opened.
ghost use Rattle.std.specs.Prelude.{◌≡◌, ◌≤◌, length, true};
ghost use Rattle.std.specs.Bool.{OnTrue};
ghost use Rattle.dsdl_parse.specs.Words.{alone, seen};
ghost use Rattle.dsdl_parse.specs.Reading as r;
ghost use Rattle.dsdl_parse.specs.Levels.{operand_of, level_of, Deeper};
ghost use Rattle.dsdl_parse.specs.Answers.{Gives};

use crate::expr::Expr;
use crate::leaf::leaf;
use crate::level::Level;
use crate::read_error::ReadError;
use crate::words::{WordRef, Words};
use cy_bits::List;
use dsdl_lex::TokenKind;
use std::alloc::Global;

/// The deepest nesting of an expression.
pub const MOST_NESTING: u32 = 64;

/// One level of nesting less, where there is one.
fn deeper(depth: u32) -> Option<u32>
    ensures { Deeper depth result }
{
    if depth == 0 { None } else { Some(depth - 1) }
}

/// Whether a word of this kind is a name.
pub fn is_name(kind: TokenKind) -> bool
    ensures { result ≡ r.is_name_kind kind }
{
    match kind {
        TokenKind::Name => true,
        _ => false,
    }
}

/// Operands of a level with its operators between them, grouped from the left.
#[cycle(descent)]
fn chain(alloc: Global, words: &mut Words<'_>, depth: u32, level: Level) -> Result<Expr, ReadError>
    ensures value { Gives (level_of (r.within depth) level words.old) result words.new }
    ensures shorter { length words.new ≤ length words.old }
{
    let mut left = operand(alloc, words, depth, level)?;
    while let Some(op) = level.take(words) {
        let right = operand(alloc, words, depth, level)?;
        left = Expr::binary(alloc, op, left, right)?;
    }
    Ok(left)
}

/// The next word as a leaf.
fn one(alloc: Global, words: &mut Words<'_>) -> Result<Expr, ReadError>
    ensures value { Gives (r.read_one words.old) result words.new }
    ensures shorter { length words.new ≤ length words.old }
{
    let Some(first) = words.next() else {
        return Err(ReadError::Syntax);
    };
    match leaf(alloc, first)? {
        Some(x) => Ok(x),
        None => Err(ReadError::Syntax),
    }
}

/// Whether what stands between the operators of a level is the next word alone. Asked only where an
/// expression begins and beside a comparison, so that the links of a long chain cost no more.
fn is_one(words: &Words<'_>, level: Level) -> bool
    ensures { OnTrue result (alone words.now ≡ true) }
{
    match level {
        Level::Logic | Level::Order => words.is_alone(),
        _ => false,
    }
}

/// What stands between the operators of a level. A word that stands alone is read at once.
#[cycle(descent)]
fn operand(
    alloc: Global,
    words: &mut Words<'_>,
    depth: u32,
    level: Level,
) -> Result<Expr, ReadError>
    ensures value { Gives (operand_of (r.within depth) level words.old) result words.new }
    ensures shorter { length words.new ≤ length words.old }
{
    if is_one(words, level) {
        return one(alloc, words);
    }
    match level {
        Level::Logic => not(alloc, words, depth),
        Level::Order => chain(alloc, words, depth, Level::Bits),
        Level::Bits => chain(alloc, words, depth, Level::Sum),
        Level::Sum => chain(alloc, words, depth, Level::Product),
        Level::Product => sign(alloc, words, depth),
    }
}

/// `!` and what it applies to, or a comparison.
#[cycle(descent)]
fn not(alloc: Global, words: &mut Words<'_>, depth: u32) -> Result<Expr, ReadError>
    ensures value { Gives (r.not_of (r.within depth) words.old) result words.new }
    ensures shorter { length words.new ≤ length words.old }
{
    let Some(op) = words.take_sign(b"!") else {
        return chain(alloc, words, depth, Level::Order);
    };
    let Some(below) = deeper(depth) else {
        return Err(ReadError::Syntax);
    };
    let inner = not(alloc, words, below)?;
    Ok(Expr::unary(alloc, op, inner)?)
}

/// A sign and what it applies to, or a power.
#[cycle(descent)]
fn sign(alloc: Global, words: &mut Words<'_>, depth: u32) -> Result<Expr, ReadError>
    ensures value { Gives (r.sign_of (r.within depth) words.old) result words.new }
    ensures shorter { length words.new ≤ length words.old }
{
    let Some(op) = Level::Sum.take(words) else {
        return power(alloc, words, depth);
    };
    let Some(below) = deeper(depth) else {
        return Err(ReadError::Syntax);
    };
    let inner = power(alloc, words, below)?;
    Ok(Expr::unary(alloc, op, inner)?)
}

/// A base, and its exponent behind `**` or none.
#[cycle(descent)]
fn power(alloc: Global, words: &mut Words<'_>, depth: u32) -> Result<Expr, ReadError>
    ensures value { Gives (r.power_of (r.within depth) words.old) result words.new }
    ensures shorter { length words.new ≤ length words.old }
{
    let left = member(alloc, words, depth)?;
    let Some(op) = words.take_sign(b"**") else {
        return Ok(left);
    };
    let Some(below) = deeper(depth) else {
        return Err(ReadError::Syntax);
    };
    let right = sign(alloc, words, below)?;
    Ok(Expr::binary(alloc, op, left, right)?)
}

/// An atom with the names behind points that follow it.
#[cycle(descent)]
fn member(alloc: Global, words: &mut Words<'_>, depth: u32) -> Result<Expr, ReadError>
    ensures value { Gives (r.read_member (r.atom_of (r.within depth)) words.old) result words.new }
    ensures shorter { length words.new ≤ length words.old }
{
    let mut left = atom(alloc, words, depth)?;
    while let Some(_) = words.take_sign(b".") {
        let Some(name) = words.next() else {
            return Err(ReadError::Syntax);
        };
        if !is_name(name.kind) {
            return Err(ReadError::Syntax);
        }
        left = Expr::member(alloc, left, name)?;
    }
    Ok(left)
}

/// An expression in parentheses, a set or a leaf.
#[cycle(descent)]
fn atom(alloc: Global, words: &mut Words<'_>, depth: u32) -> Result<Expr, ReadError>
    ensures value { Gives (r.atom_of (r.within depth) words.old) result words.new }
    ensures shorter { length words.new ≤ length words.old }
{
    if let Some(_) = words.take_sign(b"(") {
        return parens(alloc, words, depth);
    }
    if let Some(from) = words.take_sign(b"{") {
        return braces(alloc, words, depth, from);
    }
    one(alloc, words)
}

/// What stands behind a `(`, with its `)`.
#[cycle(descent)]
fn parens(alloc: Global, words: &mut Words<'_>, depth: u32) -> Result<Expr, ReadError>
    ensures value { Gives (r.in_parens (r.within depth).expression words.old) result words.new }
    ensures shorter { length words.new ≤ length words.old }
{
    let Some(below) = deeper(depth) else {
        return Err(ReadError::Syntax);
    };
    let inner = chain(alloc, words, below, Level::Logic)?;
    match words.take_sign(b")") {
        Some(_) => Ok(inner),
        None => Err(ReadError::Syntax),
    }
}

/// What stands behind the `{` that was taken, with its `}`.
#[cycle(descent)]
fn braces(
    alloc: Global,
    words: &mut Words<'_>,
    depth: u32,
    from: WordRef<'_>,
) -> Result<Expr, ReadError>
    ensures value { Gives (r.braced (r.within depth) (seen from.entry) words.old) result words.new }
    ensures shorter { length words.new ≤ length words.old }
{
    let Some(below) = deeper(depth) else {
        return Err(ReadError::Syntax);
    };
    if let Some(to) = words.take_sign(b"}") {
        return Ok(Expr::set_of(from, List::empty(alloc), to));
    }
    let members = set_members(alloc, words, below)?;
    match words.take_sign(b"}") {
        Some(to) => Ok(Expr::set_of(from, members, to)),
        None => Err(ReadError::Syntax),
    }
}

/// One member of a set or more, with commas between them.
#[cycle(descent)]
fn set_members(alloc: Global, words: &mut Words<'_>, depth: u32) -> Result<List<Expr>, ReadError>
    ensures value { Gives (r.read_items (r.expression_of (r.within depth)) words.old) result
        words.new }
    ensures shorter { length words.new ≤ length words.old }
{
    let mut members = List::empty(alloc);
    loop {
        members.push(chain(alloc, words, depth, Level::Logic)?)?;
        let Some(_) = words.take_sign(b",") else {
            return Ok(members);
        };
    }
}

/// Reads an expression from the front of the words, the longest one there.
pub fn expression(alloc: Global, words: &mut Words<'_>) -> Result<Expr, ReadError>
    ensures value { Gives (r.read_expression words.old) result words.new }
    ensures shorter { length words.new ≤ length words.old }
{
    chain(alloc, words, MOST_NESTING, Level::Logic)
}
