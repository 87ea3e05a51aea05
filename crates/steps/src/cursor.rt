// The cursor over a text, and what is refused at a token. Each function that descent's Cursor has by name is that function, but `binder_name`,
// which is `binder_named`; the tokens that are left are those from the cursor's place on. A token that is given, as x or by its start and its end,
// is the one at the cursor, which the caller has lexed. A refusal has the lowest number that applies. The clauses `whole` speak of all that
// descent's cursor holds, of the tokens that are left too: where there is a token and it is passed, a refusal that stood already is not given as
// that token's. The three private functions that have no such clause are given no cursor with a refusal.
ghost use Rattle.std.specs.Prelude.{◌≡◌, cond, not, List, ℕ, suc, ◌≤◌, ◌<◌, eqb, leb, length};
ghost use Rattle.language.specs.Limits.{text_parts, open_marks, open_lambdas};
ghost use Rattle.lexer.specs.Lexing.{kind_number};
ghost use Rattle.descent.specs.Cursor.{binder_link, binder_of, lambdas_in};
ghost use Rattle.descent.specs.Cursor.{at_part, at_let, at_lambda, at_bracket, at_shut, at_comma, need, let_head, lambda_head, call_head};
ghost use Rattle.steps.specs.Cursors.{cursor_of, passed_to, part_to, named_to, refused_at, passed_or_refused, part_or_refused, fault_of, came_to, Comes, KeepsRefusal, PartAhead, binder_named, member_named, call_opened};

use language::limits::Text;
use language::names;
use language::refusals::{Refusal, Refused};
use layout::nodes::Shape;
use lexer::tokens;
use lexer::tokens::{Lexed, TokenKind};
use members;

// Two cells for each binder that can be open.
pub const SCOPE_CELLS: usize = 2 * Text::MARKS;

// Where the text is read from, how many parts and records there are, the record of the expression last read, and the packed name read last or
// the kind of the member read last and how many arguments that takes. The two share a field, as in descent: each is what the next record's cell
// is made of. The number and the place are of a refusal that was given before, 0 for none, and are taken along; a token that is refused here gives
// an `Err`.
#[derive(Clone, Copy)]
pub struct Cursor {
    pub at: usize,
    pub name: u64,
    pub place: usize,
    pub parts: u16,
    pub count: u16,
    pub root: u16,
    pub takes: u8,
    pub number: u8,
}

impl Cursor {
    // Whether something was refused before: then no token behind the first is read.
    pub fn is_refused(&self) -> bool
        ensures { result ≡ not (eqb self.now.number 0) }
    {
        self.number != 0
    }
}

// The cursor at another place of the text.
fn moved(c: Cursor, at: usize) -> Cursor
    ensures { result ≡ passed_to c at }
{
    Cursor { at, ..c }
}

// The same behind the token of a part.
fn counted(c: Cursor, at: usize) -> Cursor
    requires { c.parts ≤ text_parts }
    ensures { result ≡ part_to c at }
{
    Cursor {
        at,
        parts: c.parts + 1,
        ..c
    }
}

// The same behind a name that is bound or a member's name.
fn named(c: Cursor, at: usize, name: u64, takes: u8) -> Cursor
    ensures { result ≡ named_to c at name takes }
{
    Cursor {
        at,
        name,
        takes,
        ..c
    }
}

// A token that begins at the place is refused.
pub fn refused(place: usize, refusal: Refusal) -> Refused
    ensures { result ≡ refused_at place refusal }
{
    Refused { refusal, place }
}

// A token that begins at start and ends before end is refused by the verdict, or passed.
pub fn judged(
    start: usize,
    end: usize,
    verdict: Result<(), Refusal>,
    c: Cursor,
) -> Result<Cursor, Refused>
    ensures { result ≡ passed_or_refused start end verdict c }
{
    match verdict {
        Ok(()) => Ok(moved(c, end)),
        Err(refusal) => Err(refused(start, refusal)),
    }
}

// The same, for a token that is a part. A function that takes `moved` or `counted` would be no shorter than the two arms.
pub fn judged_part(
    start: usize,
    end: usize,
    verdict: Result<(), Refusal>,
    c: Cursor,
) -> Result<Cursor, Refused>
    requires { c.parts ≤ text_parts }
    ensures { result ≡ part_or_refused start end verdict c }
{
    match verdict {
        Ok(()) => Ok(counted(c, end)),
        Err(refusal) => Err(refused(start, refusal)),
    }
}

// A token of one kind is due.
pub fn need(text: &[u8], kind: TokenKind, c: Cursor) -> Result<Cursor, Refused>
    ensures comes { Comes text.now result (need (length text.now) (kind_number kind) (cursor_of text.now c)) }
    ensures kept { KeepsRefusal c result }
    ensures whole { came_to text.now c result ≡ need (length text.now) (kind_number kind) (cursor_of text.now c) }
{
    let x = tokens::token(text, c.at);
    if x.kind == kind {
        Ok(moved(c, x.end))
    } else {
        Err(refused(x.start, Refusal::Ungrammatical))
    }
}

#[tactic(auto, unfolding(descent::specs::Cursor::at_part))]
pub fn at_part(parts: u16) -> Result<(), Refusal>
    ensures { fault_of result ≡ at_part parts }
{
    if Text::PARTS <= parts as usize {
        return Err(Refusal::TextLimit);
    }
    Ok(())
}

// An expression, where w says that the member takes no argument.
fn at_argument(w: bool) -> Result<(), Refusal>
    ensures { fault_of result ≡ cond w 9 0 }
{
    if w {
        return Err(Refusal::WrongCall);
    }
    Ok(())
}

// One open mark more.
fn at_open_mark(marks: usize) -> Result<(), Refusal>
    ensures { fault_of result ≡ cond (leb open_marks marks) 12 0 }
{
    if Text::MARKS <= marks {
        return Err(Refusal::TextLimit);
    }
    Ok(())
}

// One open lambda more.
fn at_open_lambda(lambdas: u16) -> Result<(), Refusal>
    ensures { fault_of result ≡ cond (leb open_lambdas lambdas) 10 0 }
{
    if Text::LAMBDAS <= lambdas as usize {
        return Err(Refusal::ThirdLambda);
    }
    Ok(())
}

// A name in use or a number.
pub fn at_atom(w: bool, parts: u16) -> Result<(), Refusal>
    ensures { fault_of result ≡ cond w 9 (at_part parts) }
{
    at_argument(w)?;
    at_part(parts)
}

#[tactic(auto, unfolding(descent::specs::Cursor::at_let))]
pub fn at_let(w: bool, marks: usize, parts: u16) -> Result<(), Refusal>
    ensures { fault_of result ≡ at_let w marks parts }
{
    at_argument(w)?;
    at_open_mark(marks)?;
    at_part(parts)
}

#[tactic(auto, unfolding(descent::specs::Cursor::at_lambda))]
pub fn at_lambda(w: bool, lambdas: u16, marks: usize, parts: u16) -> Result<(), Refusal>
    ensures { fault_of result ≡ at_lambda w lambdas marks parts }
{
    at_argument(w)?;
    at_open_lambda(lambdas)?;
    at_open_mark(marks)?;
    at_part(parts)
}

#[tactic(auto, unfolding(descent::specs::Cursor::at_bracket))]
pub fn at_bracket(w: bool, marks: usize) -> Result<(), Refusal>
    ensures { fault_of result ≡ at_bracket w marks }
{
    at_argument(w)?;
    at_open_mark(marks)
}

#[tactic(auto, unfolding(descent::specs::Cursor::at_shut))]
pub fn at_shut(more: u8) -> Result<(), Refusal>
    ensures { fault_of result ≡ at_shut more }
{
    if 1 <= more {
        return Err(Refusal::WrongCall);
    }
    Ok(())
}

#[tactic(auto, unfolding(descent::specs::Cursor::at_comma))]
pub fn at_comma(more: u8) -> Result<(), Refusal>
    ensures { fault_of result ≡ at_comma more }
{
    if more == 0 {
        return Err(Refusal::WrongCall);
    }
    Ok(())
}

// One more than the number of the innermost binder of the name, 0 for none: descent's definition of it is that number.
#[tactic(auto, using(crate::proofs::CursorPaths::scope_rules))]
pub fn binder_of(scope: &[u64; SCOPE_CELLS], x: u64, depth: usize) -> usize
    requires { depth ≤ open_marks }
    ensures { result ≡ binder_of scope.now x depth }
{
    for b in (0..depth).rev() {
        if x == scope[2 * b] {
            return b + 1;
        }
    }
    0
}

// Whether a binder is a lambda's.
fn is_lambda(scope: &[u64; SCOPE_CELLS], b: usize) -> bool
    requires { b < open_marks }
    ensures { result ≡ eqb (binder_link scope.now b) 0 }
{
    scope[2 * b + 1] == 0
}

// One more, where the binder is a lambda's.
fn with_lambda(scope: &[u64; SCOPE_CELLS], b: usize, n: u16) -> u16
    requires { (b < open_marks) × (n ≤ b) }
    ensures { result ≡ cond (eqb (binder_link scope.now b) 0) (suc n) n }
{
    if is_lambda(scope, b) { n + 1 } else { n }
}

// How many lambdas are open. A lambda's level is that at its own mark.
#[tactic(auto, using(crate::proofs::CursorPaths::scope_rules))]
pub fn lambdas_in(scope: &[u64; SCOPE_CELLS], depth: usize) -> u16
    requires { depth ≤ open_marks }
    ensures { result ≡ lambdas_in scope.now depth }
{
    let mut n = 0;
    for b in 0..depth {
        n = with_lambda(scope, b, n);
    }
    n
}

// The name that a let or a lambda binds.
fn binder_name(text: &[u8], c: Cursor) -> Result<Cursor, Refused>
    ensures comes { Comes text.now result (binder_named text.now c) }
    ensures kept { KeepsRefusal c result }
{
    let x = tokens::token(text, c.at);
    match x.kind {
        TokenKind::Word => {
            if x.is_long(text) {
                return Err(refused(x.start, Refusal::NameTooLong));
            }
            let name = x.name(text);
            if names::is_data(name) {
                return Err(refused(x.start, Refusal::DataBound));
            }
            Ok(named(c, x.end, name, c.takes))
        }
        _ => Err(refused(x.start, Refusal::Ungrammatical)),
    }
}

// The name of a member.
fn member_name(text: &[u8], c: Cursor) -> Result<Cursor, Refused>
    ensures comes { Comes text.now result (member_named text.now c) }
    ensures kept { KeepsRefusal c result }
{
    let x = tokens::token(text, c.at);
    match x.kind {
        TokenKind::Word => match x.member(text) {
            Some(m) => Ok(named(
                c,
                x.end,
                Shape::MEMBERS as u64 + members::number_of(m) as u64,
                members::arguments(m),
            )),
            None => Err(refused(x.start, Refusal::WrongCall)),
        },
        _ => Err(refused(x.start, Refusal::Ungrammatical)),
    }
}

// The bracket of a call.
fn call_open(text: &[u8], marks: usize, c: Cursor) -> Result<Cursor, Refused>
    ensures comes { Comes text.now result (call_opened text.now marks c) }
    ensures kept { KeepsRefusal c result }
{
    let x = tokens::token(text, c.at);
    match x.kind {
        TokenKind::Open => judged(x.start, x.end, at_open_mark(marks), c),
        _ => Err(refused(x.start, Refusal::Ungrammatical)),
    }
}

// In the three heads `whole` is of a cursor with a refusal: of one that is clear a later token may be refused, and `came_to` takes the cursor
// before the first.

// let name =
pub fn let_head(text: &[u8], x: Lexed, w: bool, marks: usize, c: Cursor) -> Result<Cursor, Refused>
    requires { PartAhead text.now x c }
    ensures comes { Comes text.now result (let_head (length text.now) w marks (cursor_of text.now c)) }
    ensures kept { KeepsRefusal c result }
    ensures whole { (c.number ≡ 0 → ⊥) → came_to text.now c result ≡ let_head (length text.now) w marks (cursor_of text.now c) }
{
    let a = judged_part(x.start, x.end, at_let(w, marks, c.parts), c)?;
    if a.is_refused() {
        return Ok(a);
    }
    let b = binder_name(text, a)?;
    need(text, TokenKind::Equals, b)
}

// \ name -> for a lambda of a level: how many lambdas are open around it.
pub fn lambda_head(
    text: &[u8],
    x: Lexed,
    w: bool,
    marks: usize,
    level: u16,
    c: Cursor,
) -> Result<Cursor, Refused>
    requires { PartAhead text.now x c }
    ensures comes { (scope : List ℕ) (depth : ℕ) → level ≡ lambdas_in scope depth
        → Comes text.now result (lambda_head (length text.now) w marks depth scope (cursor_of text.now c)) }
    ensures kept { KeepsRefusal c result }
    ensures whole { (c.number ≡ 0 → ⊥) → (scope : List ℕ) (depth : ℕ) → level ≡ lambdas_in scope depth
        → came_to text.now c result ≡ lambda_head (length text.now) w marks depth scope (cursor_of text.now c) }
{
    let a = judged_part(x.start, x.end, at_lambda(w, level, marks, c.parts), c)?;
    if a.is_refused() {
        return Ok(a);
    }
    let b = binder_name(text, a)?;
    need(text, TokenKind::Arrow, b)
}

// . member (
pub fn call_head(text: &[u8], x: Lexed, marks: usize, c: Cursor) -> Result<Cursor, Refused>
    requires { PartAhead text.now x c }
    ensures comes { Comes text.now result (call_head (length text.now) marks (cursor_of text.now c)) }
    ensures kept { KeepsRefusal c result }
    ensures whole { (c.number ≡ 0 → ⊥) → came_to text.now c result ≡ call_head (length text.now) marks (cursor_of text.now c) }
{
    let a = judged_part(x.start, x.end, at_part(c.parts), c)?;
    if a.is_refused() {
        return Ok(a);
    }
    let b = member_name(text, a)?;
    call_open(text, marks, b)
}
