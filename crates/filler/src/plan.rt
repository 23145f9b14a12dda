// The plan of a call: each node at or below a listed expression once, operands first, so that a row is one loop. Constants and challenges are in their
// entries before the first row, and a new column's input takes its expression's entry, so that neither costs anything in a row.
ghost use Rattle.std.specs.Prelude.{◌≡◌, ◌+◌, ◌*◌, ◌<◌, ◌≤◌, length};
ghost use Rattle.layout.specs.Words.{column};
ghost use Rattle.layout.specs.declared.node.Position.{Position};
ghost use Rattle.layout.specs.declared.node.Expression.TheVariants.{Input};
ghost use Rattle.filler.specs.Planning.{source_of, op_of, joined, item_of, planned, pushed, pushed_many, Small, Deciding, Plannable, Planned};

use crate::run::Instruction;
use circuit::place::expression_at;
use layout::node::{Expression, Op, Position};

// The old main columns, the new ones, and all that a row has; the old auxiliary columns, and all that a row has; the new columns of both lists.
#[derive(Clone, Copy)]
pub struct Shape {
    pub main: u64,
    pub fresh: u64,
    pub row: u64,
    pub aux: u64,
    pub wide: u64,
    pub items: u64,
}

// Where a node's value comes from: it is the same in every row; a cell of the main row; one of the auxiliary row; a new column's expression, by its
// place in the two lists; or two operands.
#[derive(Clone, Copy)]
pub enum Source {
    Fixed,
    Word(u64),
    Wide(u64),
    Item(u64),
    Join(Op, u64, u64),
}

// An input's: the next row's cells are given, and stand after the current row's.
fn input_source(s: Shape, q: Position) -> Source
    requires { Small s × (column q ≤ 65535) }
    ensures { result ≡ source_of s (Input q) }
{
    match q {
        Position::Main(c) => {
            if c < s.main {
                return Source::Word(c);
            }
            Source::Item(c - s.main)
        }
        Position::Aux(c) => {
            if c < s.aux {
                return Source::Wide(c);
            }
            Source::Item(s.fresh + (c - s.aux))
        }
        Position::NextMain(c) => Source::Word(s.row + c),
        Position::NextAux(c) => Source::Wide(s.wide + c),
    }
}

fn source_of(s: Shape, e: Expression) -> Source
    requires { Small s × ((q : Position) → e ≡ Input q → column q ≤ 65535) }
    ensures { result ≡ source_of s e }
{
    match e {
        Expression::Base(_) => Source::Fixed,
        Expression::Extension(_) => Source::Fixed,
        Expression::Challenge(_) => Source::Fixed,
        Expression::Operation(o, l, r) => Source::Join(o, l, r),
        Expression::Input(q) => input_source(s, q),
    }
}

fn op_of(o: Op) -> u64
    ensures { result ≡ op_of o }
{
    match o {
        Op::Add => 1,
        Op::Multiply => 2,
    }
}

// Node i from its operands' entries a and b, whose base tests are x and y. Of a word and a triple, the word stands left: both operations commute.
fn join(i: u64, o: Op, x: u64, y: u64, a: u64, b: u64) -> Instruction
    ensures { result ≡ joined i o x y a b }
{
    let op = op_of(o);
    let straight = Instruction {
        op: op + 5,
        to: i,
        left: a,
        right: b,
    };
    if x == y {
        if x == 1 {
            return Instruction {
                op: op,
                to: i,
                left: a,
                right: b,
            };
        }
        return Instruction {
            op: op + 3,
            to: i,
            left: a,
            right: b,
        };
    }
    if x == 1 {
        return straight;
    }
    Instruction {
        op: op + 5,
        to: i,
        left: b,
        right: a,
    }
}

// A new column's input i, whose expression is e.
fn plan_item(bases: &[u64], alias: &[u64], i: u64, e: u64) -> Instruction
    requires { (i < length bases.now) × ((e < length bases.now) × (e < length alias.now)) }
    ensures { result ≡ item_of bases.now alias.now i e }
{
    let node = i as usize;
    let place = e as usize;
    let entry = alias[place];
    if bases[node] == bases[place] {
        return Instruction {
            op: 9,
            to: entry,
            left: 0,
            right: 0,
        };
    }
    Instruction {
        op: 8,
        to: i,
        left: entry,
        right: 0,
    }
}

// The instruction for node i, whose operands or expression are planned: `alias` has the entries in which their values stand.
fn plan_node(
    m: &[u64],
    bases: &[u64],
    targets: &[u64],
    alias: &[u64],
    s: Shape,
    i: u64,
) -> Instruction
    requires { Deciding s m.now bases.now targets.now alias.now i }
    ensures { result ≡ planned s m.now bases.now targets.now alias.now i }
{
    let source = source_of(s, expression_at(m, i));
    match source {
        Source::Fixed => Instruction {
            op: 9,
            to: i,
            left: 0,
            right: 0,
        },
        Source::Word(c) => Instruction {
            op: 0,
            to: i,
            left: c,
            right: 0,
        },
        Source::Wide(c) => Instruction {
            op: 3,
            to: i,
            left: c,
            right: 0,
        },
        Source::Item(k) => plan_item(bases, alias, i, targets[k as usize]),
        Source::Join(o, l, r) => join(
            i,
            o,
            bases[l as usize],
            bases[r as usize],
            alias[l as usize],
            alias[r as usize],
        ),
    }
}

// One more instruction, unless it is none: how many there are then.
fn push(plan: &mut [u64], many: u64, x: Instruction) -> u64
    requires { 4 * many + 3 < length plan.old }
    ensures { (plan.new ≡ pushed plan.old many x) × (result ≡ pushed_many many x) }
{
    if x.op == 9 {
        return many;
    }
    let place = 4 * (many as usize);
    plan[place] = x.op;
    plan[place + 1] = x.to;
    plan[place + 2] = x.left;
    plan[place + 3] = x.right;
    many + 1
}

// The plan of the nodes in their order: how many instructions it has. The rank is not read: it says why the order serves.
pub(crate) fn make_plan(
    m: &[u64],
    order: &[u64],
    rank: &[u64],
    bases: &[u64],
    targets: &[u64],
    challenges: &[u64],
    s: Shape,
    done: u64,
    alias: &mut [u64],
    plan: &mut [u64],
) -> u64
    requires { Plannable s m.now bases.now targets.now order.now rank.now done × ((4096 ≤ length alias.old) × (16384 ≤ length plan.old)) }
    ensures { Planned s m.now bases.now targets.now challenges.now order.now rank.now alias.new plan.new done result }
{
    let mut many: u64 = 0;
    for &i in &order[..done as usize] {
        let x = plan_node(m, bases, targets, alias, s, i);
        alias[i as usize] = x.to;
        many = push(plan, many, x);
    }
    many
}
