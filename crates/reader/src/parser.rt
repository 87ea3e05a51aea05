// The parser: recursive descent over the tokens of a text, which writes records as it goes.
//
//     expression := let name = expression in expression | \ name -> expression | atom calls
//     atom       := name | number | ( expression )
//     calls      := (. member ( arguments )) calls or nothing
//     arguments  := nothing or expression (, expression) ..
//
// Each function is the reader of its name in descent's Descent, run with any fuel that is enough. Of an atom and of a call, though, they read up
// to its end, where descent's readers go on with the calls: those are the one loop in calls, so that an open mark takes one frame of the stack.
ghost use Rattle.std.specs.Prelude.{◌≡◌, ◌-◌, ◌≤◌};
ghost use Rattle.language.specs.Limits.{text_parts};
ghost use Rattle.lexer.specs.declared.tokens.TokenKind.{TokenKind};
ghost use Rattle.descent.specs.Descent.{first_given, next_given, in_expression, in_calls, in_arguments, in_more};
ghost use Rattle.steps.specs.Scratch.{call_of};
ghost use Rattle.reader.specs.Parsing.{Ready, ReadyAt, ReadyAtom, Parses, Continues};
ghost use Rattle.reader.specs.Results.{ReadsInto};

use crate::answer::Read;
use language::limits::Text;
use language::refusals::{Refusal, Refused};
use layout::nodes::{Shape, TEXT_WORDS};
use lexer::tokens;
use lexer::tokens::{Lexed, TokenKind};
use steps::cursor::{Cursor, SCOPE_CELLS};
use steps::scratch::Call;
use steps::{cursor, scratch};

// The call behind its first argument.
fn first_given(root: u16, k: Call) -> Call
    requires { root ≤ text_parts }
    ensures { call_of result ≡ first_given root (call_of k) }
{
    Call {
        takes: k.takes.saturating_sub(1),
        argument: root + 1,
        ..k
    }
}

// The call behind another argument.
fn next_given(k: Call) -> Call
    ensures { call_of result ≡ next_given (call_of k) }
{
    Call {
        takes: k.takes.saturating_sub(1),
        ..k
    }
}

// The lent arrays and the scope are three parameters: in one struct behind a `&mut` each contract would have to say besides that its references
// are still the same ones.

// An expression; w: one begins where a member takes no argument.
#[cycle(arguments_atom_call_calls_expression_more_read_bracket_read_lambda_read_let)]
fn expression(
    text: &[u8],
    w: bool,
    marks: usize,
    depth: usize,
    c: Cursor,
    records: &mut [u64; TEXT_WORDS],
    places: &mut [u16; Text::PARTS],
    scope: &mut [u64; SCOPE_CELLS],
) -> Result<Cursor, Refused>
    requires { Ready (in_expression w marks depth) text.now c records.old places.old scope.old }
    ensures { Parses (in_expression w marks depth) text.now c
        records.old places.old scope.old
        result records.new places.new scope.new }
{
    let x = tokens::token(text, c.at);
    match x.kind {
        TokenKind::Let => read_let(text, x, w, marks, depth, c, records, places, scope),
        TokenKind::Lambda => read_lambda(text, x, w, marks, depth, c, records, places, scope),
        _ => {
            let a = atom(text, x, w, marks, depth, c, records, places, scope)?;
            calls(text, marks, depth, a, records, places, scope)
        }
    }
}

// What calls may follow, from the token x on.
#[cycle(arguments_atom_call_calls_expression_more_read_bracket_read_lambda_read_let)]
fn atom(
    text: &[u8],
    x: Lexed,
    w: bool,
    marks: usize,
    depth: usize,
    c: Cursor,
    records: &mut [u64; TEXT_WORDS],
    places: &mut [u16; Text::PARTS],
    scope: &mut [u64; SCOPE_CELLS],
) -> Result<Cursor, Refused>
    requires { ReadyAtom x (in_expression w marks depth) text.now c records.old places.old scope.old }
    ensures { Continues (in_expression w marks depth) marks depth text.now c
        records.old places.old scope.old
        result records.new places.new scope.new }
{
    match x.kind {
        TokenKind::Open => read_bracket(text, x, w, marks, depth, c, records, places, scope),
        TokenKind::Word => scratch::read_name(text, x, w, depth, c, scope, records, places),
        TokenKind::Number => scratch::read_number(text, x, w, c, records, places),
        _ => Err(cursor::refused(x.start, Refusal::Ungrammatical)),
    }
}

// let name = expression in expression
#[cycle(arguments_atom_call_calls_expression_more_read_bracket_read_lambda_read_let)]
fn read_let(
    text: &[u8],
    x: Lexed,
    w: bool,
    marks: usize,
    depth: usize,
    c: Cursor,
    records: &mut [u64; TEXT_WORDS],
    places: &mut [u16; Text::PARTS],
    scope: &mut [u64; SCOPE_CELLS],
) -> Result<Cursor, Refused>
    requires { ReadyAt TokenKind.Let x (in_expression w marks depth) text.now c records.old places.old scope.old }
    ensures { Parses (in_expression w marks depth) text.now c
        records.old places.old scope.old
        result records.new places.new scope.new }
{
    let h = cursor::let_head(text, x, w, marks, c)?;
    let v = expression(text, false, marks + 1, depth, h, records, places, scope)?;
    let b = cursor::need(text, TokenKind::In, v)?;
    scratch::enter(depth, h.name, v.root as u64 + 1, scope);
    let r = expression(text, false, marks + 1, depth + 1, b, records, places, scope)?;
    scratch::mark(c.parts, r.root, places);
    Ok(r)
}

// \ name -> expression
#[cycle(arguments_atom_call_calls_expression_more_read_bracket_read_lambda_read_let)]
fn read_lambda(
    text: &[u8],
    x: Lexed,
    w: bool,
    marks: usize,
    depth: usize,
    c: Cursor,
    records: &mut [u64; TEXT_WORDS],
    places: &mut [u16; Text::PARTS],
    scope: &mut [u64; SCOPE_CELLS],
) -> Result<Cursor, Refused>
    requires { ReadyAt TokenKind.Lambda x (in_expression w marks depth) text.now c records.old places.old scope.old }
    ensures { Parses (in_expression w marks depth) text.now c
        records.old places.old scope.old
        result records.new places.new scope.new }
{
    let level = cursor::lambdas_in(scope, depth);
    let h = cursor::lambda_head(text, x, w, marks, level, c)?;
    scratch::enter(depth, h.name, 0, scope);
    let r = expression(text, false, marks + 1, depth + 1, h, records, places, scope)?;
    let record = Shape {
        kind: Shape::FUNCTION,
        key: h.name,
        first: r.root + 1,
        second: 0,
        level,
    };
    Ok(scratch::put(r, c.parts, record, records, places))
}

// ( expression )
#[cycle(arguments_atom_call_calls_expression_more_read_bracket_read_lambda_read_let)]
fn read_bracket(
    text: &[u8],
    x: Lexed,
    w: bool,
    marks: usize,
    depth: usize,
    c: Cursor,
    records: &mut [u64; TEXT_WORDS],
    places: &mut [u16; Text::PARTS],
    scope: &mut [u64; SCOPE_CELLS],
) -> Result<Cursor, Refused>
    requires { ReadyAt TokenKind.Open x (in_expression w marks depth) text.now c records.old places.old scope.old }
    ensures { Continues (in_expression w marks depth) marks depth text.now c
        records.old places.old scope.old
        result records.new places.new scope.new }
{
    let h = cursor::judged(x.start, x.end, cursor::at_bracket(w, marks), c)?;
    let e = expression(text, false, marks + 1, depth, h, records, places, scope)?;
    cursor::need(text, TokenKind::Shut, e)
}

// The calls on the record last read. A chain of them is a loop, so that its length takes no stack; it ends at a token, not at a count.
#[cycle(arguments_atom_call_calls_expression_more_read_bracket_read_lambda_read_let)]
fn calls(
    text: &[u8],
    marks: usize,
    depth: usize,
    c: Cursor,
    records: &mut [u64; TEXT_WORDS],
    places: &mut [u16; Text::PARTS],
    scope: &mut [u64; SCOPE_CELLS],
) -> Result<Cursor, Refused>
    requires { Ready (in_calls marks depth) text.now c records.old places.old scope.old }
    ensures { Parses (in_calls marks depth) text.now c
        records.old places.old scope.old
        result records.new places.new scope.new }
{
    let mut a = c;
    loop {
        let x = tokens::token(text, a.at);
        match x.kind {
            TokenKind::Dot => a = call(text, x, marks, depth, a, records, places, scope)?,
            _ => return Ok(a),
        }
    }
}

// One call, up to the bracket that ends it.
#[cycle(arguments_atom_call_calls_expression_more_read_bracket_read_lambda_read_let)]
fn call(
    text: &[u8],
    x: Lexed,
    marks: usize,
    depth: usize,
    c: Cursor,
    records: &mut [u64; TEXT_WORDS],
    places: &mut [u16; Text::PARTS],
    scope: &mut [u64; SCOPE_CELLS],
) -> Result<Cursor, Refused>
    requires { ReadyAt TokenKind.Dot x (in_calls marks depth) text.now c records.old places.old scope.old }
    ensures { Continues (in_calls marks depth) marks depth text.now c
        records.old places.old scope.old
        result records.new places.new scope.new }
{
    let h = cursor::call_head(text, x, marks, c)?;
    let k = Call {
        kind: h.name as u8,
        takes: h.takes,
        receiver: c.root,
        place: c.parts,
        argument: 0,
    };
    arguments(text, k, marks, depth, h, records, places, scope)
}

// What stands behind the bracket of a call, up to the one that ends it.
#[cycle(arguments_atom_call_calls_expression_more_read_bracket_read_lambda_read_let)]
fn arguments(
    text: &[u8],
    k: Call,
    marks: usize,
    depth: usize,
    c: Cursor,
    records: &mut [u64; TEXT_WORDS],
    places: &mut [u16; Text::PARTS],
    scope: &mut [u64; SCOPE_CELLS],
) -> Result<Cursor, Refused>
    requires { Ready (in_arguments (call_of k) marks depth) text.now c records.old places.old scope.old }
    ensures { Continues (in_arguments (call_of k) marks depth) marks depth text.now c
        records.old places.old scope.old
        result records.new places.new scope.new }
{
    let x = tokens::token(text, c.at);
    match x.kind {
        TokenKind::Shut => scratch::read_shut(x.start, x.end, k, c, records, places),
        _ => {
            let w = k.takes == 0;
            let a = expression(text, w, marks + 1, depth, c, records, places, scope)?;
            let given = first_given(a.root, k);
            more(text, given, marks, depth, a, records, places, scope)
        }
    }
}

// What stands behind an argument, up to the bracket that ends the call.
#[cycle(arguments_atom_call_calls_expression_more_read_bracket_read_lambda_read_let)]
fn more(
    text: &[u8],
    k: Call,
    marks: usize,
    depth: usize,
    c: Cursor,
    records: &mut [u64; TEXT_WORDS],
    places: &mut [u16; Text::PARTS],
    scope: &mut [u64; SCOPE_CELLS],
) -> Result<Cursor, Refused>
    requires { Ready (in_more (call_of k) marks depth) text.now c records.old places.old scope.old }
    ensures { Continues (in_more (call_of k) marks depth) marks depth text.now c
        records.old places.old scope.old
        result records.new places.new scope.new }
{
    let x = tokens::token(text, c.at);
    match x.kind {
        TokenKind::Shut => scratch::read_shut(x.start, x.end, k, c, records, places),
        TokenKind::Comma => {
            let h = cursor::judged(x.start, x.end, cursor::at_comma(k.takes), c)?;
            let a = expression(text, false, marks + 1, depth, h, records, places, scope)?;
            more(text, next_given(k), marks, depth, a, records, places, scope)
        }
        _ => Err(cursor::refused(x.start, Refusal::Ungrammatical)),
    }
}

// Reads a whole text, over scratch arrays of any contents: an expression, and then the end. 01's refusals 5 to 12 are given by the lowest number
// at the first place.
pub fn read(
    text: &[u8],
    records: &mut [u64; TEXT_WORDS],
    places: &mut [u16; Text::PARTS],
) -> Result<Read, Refused>
    ensures { ReadsInto text.now records.old places.old result records.new places.new }
{
    let mut scope = [0u64; SCOPE_CELLS];
    let start = Cursor {
        at: 0,
        name: 0,
        parts: 0,
        count: 0,
        root: 0,
        takes: 0,
        number: 0,
        place: 0,
    };
    let a = expression(text, false, 0, 0, start, records, places, &mut scope)?;
    let x = tokens::token(text, a.at);
    match x.kind {
        TokenKind::End => Ok(Read {
            parts: a.parts,
            records: a.count,
            root: a.root,
        }),
        _ => Err(cursor::refused(x.start, Refusal::Ungrammatical)),
    }
}
