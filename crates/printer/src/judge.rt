// Whether the text of an entry's form would be read back as that form (02, T-04), without reading it: a walk over the form counts its parts, tests
// what is open where more opens, and looks each name up among the functions around it, with its level (02, T-05). A chain of receivers is a
// loop; an argument or a function's body is walked over in a call of its own, with a mark more open. So at most 129 parts are counted, and at
// most 17 calls are open, however large and deep the form is.
ghost use Rattle.std.specs.Prelude.{◌≡◌, true, map, ◌≤◌, ◌<◌, eqb, length};
ghost use Rattle.language.specs.Limits.{open_marks, open_lambdas};
ghost use Rattle.layout.specs.Held.{shaped};
ghost use Rattle.layout.specs.Nodes.{is_name};
ghost use Rattle.table.specs.WellFormed.{key_right};
ghost use Rattle.meaning.specs.Forms.{with_level, name_in};
ghost use Rattle.meaning.specs.Evaluation.{has_name};
ghost use Rattle.printing.specs.Bound.{is_innermost};
ghost use Rattle.printing.specs.Judging.{declined, counted, looked, opening, admits, admits_function, walked, verdict};
ghost use Rattle.writer.specs.Writing.{form_in, Tabled};
ghost use Rattle.printer.specs.Printing.{verdict_number};
ghost use Rattle.printer.specs.Walking.{variables, Low, leaf_walked};

use language::limits::Text;
use language::refusals::Refusal;
use layout::nodes::{Shape, entry_of, node_at};

// What is open around an entry: so many marks, and the functions among them: the inner one's name and level, and the outer one's. A name of 0 is
// none: no name is 0, so that one comparison looks a name up, whether or not a function is open.
#[derive(Clone, Copy)]
pub struct Scope {
    pub marks: u16,
    pub inner: u64,
    pub near: u16,
    pub outer: u64,
    pub far: u16,
}

// The reader would decline the text. Any other finding is twice the parts met, plus 1 if a name was met that would be read as something else. It is
// one number, as in the definition of the walk, so that each step's contract is one equation.
const DECLINED: u16 = 2 * (Text::PARTS as u16 + 1) + 1;

// A part more.
#[tactic(auto, unfolding(printing::specs::Judging::counted))]
fn count_part(found: u16) -> u16
    ensures { result ≡ counted found }
{
    if found < 2 * Text::PARTS as u16 {
        found + 2
    } else {
        DECLINED
    }
}

// A name is met that is read as what it is, or as something else.
#[tactic(auto, unfolding(printing::specs::Judging::looked))]
fn look(same: bool, found: u16) -> u16
    requires { found ≤ declined }
    ensures { result ≡ looked same found }
{
    if same { found } else { found - found % 2 + 1 }
}

// A function of this name is around.
#[tactic(auto, using(crate::specs::WalkingLaws::bound_names))]
fn is_bound(x: u64, s: Scope) -> bool
    requires { (is_name x ≡ true) × Low s }
    ensures { result ≡ has_name x (map name_in (variables s)) }
{
    (x == s.inner) | (x == s.outer)
}

// The innermost function of this name has the level, so that the variable is its own.
#[tactic(auto, using(crate::specs::WalkingLaws::own_inner, crate::specs::WalkingLaws::own_outer))]
fn is_own(x: u64, level: u16, s: Scope) -> bool
    requires { (is_name x ≡ true) × (level < open_lambdas) × Low s }
    ensures { result ≡ is_innermost (with_level x level) (variables s) }
{
    if x == s.inner {
        return level == s.near;
    }
    (x == s.outer) & (level == s.far)
}

// How many functions are around.
#[tactic(auto, using(crate::specs::WalkingLaws::depths))]
fn depth(s: Scope) -> u16
    ensures { result ≡ length (variables s) }
{
    if s.outer != 0 {
        return 2;
    }
    if s.inner != 0 {
        return 1;
    }
    0
}

// A call's brackets open.
#[tactic(auto, unfolding(printing::specs::Judging::opening))]
fn open_call(marks: u16, found: u16) -> u16
    ensures { result ≡ opening (admits marks) (counted found) }
{
    if marks < Text::MARKS as u16 {
        count_part(found)
    } else {
        DECLINED
    }
}

// A function of this level opens where so many marks are open. It is read with the number of functions around it as its level.
fn open_function(level: u16, marks: u16, s: Scope, found: u16) -> u16
    ensures { result ≡ looked (eqb level (length (variables s))) (opening (admits_function marks (variables s)) (counted found)) }
{
    if (marks < Text::MARKS as u16) & (s.outer == 0) {
        look(level == depth(s), count_part(found))
    } else {
        DECLINED
    }
}

// A number, a name, or `data`.
fn walk_leaf(n: Shape, s: Scope, found: u16) -> u16
    requires { (key_right (shaped n) ≡ true) × (n.level < open_lambdas) × Low s }
    ensures { result ≡ leaf_walked (shaped n) (variables s) found }
{
    let met = count_part(found);
    if n.kind == Shape::VARIABLE {
        return look(is_own(n.key, n.level, s), met);
    }
    if n.kind == Shape::UNBOUND {
        return look(!is_bound(n.key, s), met);
    }
    met
}

// The form of an entry, after what was found before.
fn walk(links: &[u16], cells: &[u64], count: u16, entry: u16, s: Scope, found: u16) -> u16
    requires { Tabled links.now cells.now count × (entry < count) × (s.marks ≤ open_marks) × (found ≤ declined) × Low s }
    ensures { result ≡ walked s.marks (variables s) (form_in links.now cells.now count entry) found }
{
    let mut at = entry;
    let mut n = node_at(links, cells, entry);
    let mut marks = s.marks;
    let mut met = found;
    // No `for`: it goes from receiver to receiver.
    while Shape::FUNCTION < n.kind {
        met = open_call(s.marks, met);
        if met == DECLINED {
            return DECLINED;
        }
        if n.second != 0 {
            let inside = Scope {
                marks: s.marks + 1,
                ..s
            };
            met = walk(links, cells, count, entry_of(n.second), inside, met);
        }
        at = entry_of(n.first);
        n = node_at(links, cells, at);
        marks = s.marks + 1;
    }
    if n.kind == Shape::FUNCTION {
        met = open_function(n.level, marks, s, met);
        if met == DECLINED {
            return DECLINED;
        }
        let inside = Scope {
            marks: marks + 1,
            inner: n.key,
            near: n.level,
            outer: s.inner,
            far: s.near,
        };
        return walk(links, cells, count, entry_of(n.first), inside, met);
    }
    walk_leaf(n, s, met)
}

// Whether the text of an entry's form may be printed: 15, the reader would decline it; 16, read by itself it would have another form.
#[tactic(auto, using(crate::specs::WalkingLaws::verdicts))]
pub fn judge(links: &[u16], cells: &[u64], count: u16, entry: u16) -> Result<(), Refusal>
    requires { Tabled links.now cells.now count × (entry < count) }
    ensures { verdict_number result ≡ verdict (form_in links.now cells.now count entry) }
{
    let whole = Scope {
        marks: 0,
        inner: 0,
        near: 0,
        outer: 0,
        far: 0,
    };
    let found = walk(links, cells, count, entry, whole, 0);
    if found == DECLINED {
        return Err(Refusal::TextUnfit);
    }
    if found % 2 != 0 {
        return Err(Refusal::OtherForm);
    }
    Ok(())
}
