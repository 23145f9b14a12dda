// One substitution: a new input for the chosen node, the redirect, and the constraint, by building's own inner calls.
ghost use Rattle.std.specs.Prelude.{◌≡◌};
ghost use Rattle.layout.specs.Tree.{tree};
ghost use Rattle.building.specs.Building.{find_or_make, subtracted};
ghost use Rattle.reading.specs.Readings.{is_base};
ghost use Rattle.lower.specs.Substituting.{input_at, Fresh, Differing, Gives, Substitutable, Replaced};

use crate::redirect::{redirect, rename_roots};
use build::several::{class_anew, subtract};
use circuit::place::make;
use layout::node::{Expression, Position};

// The constraint of a substitution, and whether it goes to the main list.
#[derive(Clone, Copy)]
pub struct Constraint {
    pub id: u64,
    pub main: bool,
}

// A current-row input: main if the base test says yes, else auxiliary.
fn input_at(main: bool, main_column: u64, aux_column: u64) -> Expression
    ensures { result ≡ input_at main main_column aux_column }
{
    if main {
        return Expression::Input(Position::Main(main_column));
    }
    Expression::Input(Position::Aux(aux_column))
}

// Makes an input that no node is: nothing has to be looked for.
fn make_input(m: &mut [u64], e: Expression) -> u64
    requires { Fresh m.old e }
    ensures { Gives (find_or_make m.old e) m.new result }
{
    let n = m[1];
    make(m, e);
    n
}

// Makes n - s, which there is room for. The class tables are made anew: the redirect before has changed the structure.
fn make_difference(m: &mut [u64], n: u64, s: u64) -> u64
    requires { Differing m.old n s }
    ensures { Gives (subtracted m.old n s) m.new result }
{
    let mut numbers = [0u64; 4096];
    let mut table = [0u64; 24574];
    let mut least = [0u64; 4097];
    class_anew(m, &mut numbers, &mut table, &mut least);
    subtract(m, &mut numbers, &mut table, &mut least, n, s).unwrap()
}

// Node s is replaced by a new input, a main one if s passes the base test. The redirect comes before the constraint: the constraint keeps naming the chosen node.
pub(crate) fn substitute(
    m: &mut [u64],
    roots: &mut [u64],
    s: u64,
    main: bool,
    main_column: u64,
    aux_column: u64,
) -> Constraint
    requires { Substitutable m.old s main_column aux_column × (main ≡ is_base (tree m.old s)) }
    ensures { Replaced m.old s main_column aux_column roots.old m.new roots.new result }
{
    let n = make_input(m, input_at(main, main_column, aux_column));
    redirect(m, s, n);
    rename_roots(roots, s, n);
    let id = make_difference(m, n, s);
    Constraint { id: id, main: main }
}
