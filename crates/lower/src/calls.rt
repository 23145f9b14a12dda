// The public call: document 01, "Lowering". It asks nothing of the words that are lent.
ghost use Rattle.std.specs.Prelude.{◌≡◌, ◌<◌, length};
ghost use Rattle.layout.specs.Answers.{accepted};
ghost use Rattle.lowering.specs.Lowering.{Lowering};
ghost use Rattle.lowering.specs.Calls.{lower_call};
ghost use Rattle.lower.specs.Told.{told_lowering};
ghost use Rattle.lower.specs.Advancing.{Added, Ready, Advanced, Begun, finished};

use crate::next::next_choice;
use crate::refuse::{exceeds, first_refusal, then_refusal};
use crate::substitute::{Constraint, substitute};
use layout::refusal::Refusal;

// How many constraints each list has so far.
#[derive(Clone, Copy)]
pub struct Progress {
    pub main: u64,
    pub aux: u64,
}

// A constraint goes to the first free place of its list.
fn add_constraint(c: Constraint, main: &mut [u64], aux: &mut [u64], progress: Progress) -> Progress
    requires { (progress.main < length main.old) × (progress.aux < length aux.old) }
    ensures { Added c progress main.old aux.old main.new aux.new result }
{
    if c.main {
        let place = progress.main as usize;
        main[place] = c.id;
        return Progress {
            main: progress.main + 1,
            aux: progress.aux,
        };
    }
    let place = progress.aux as usize;
    aux[place] = c.id;
    Progress {
        main: progress.main,
        aux: progress.aux + 1,
    }
}

// One substitution, where some root's degree exceeds the target; else there is none, and nothing changes.
fn one_more(
    m: &mut [u64],
    roots: &mut [u64],
    target: u64,
    main_count: u64,
    aux_count: u64,
    main: &mut [u64],
    aux: &mut [u64],
    progress: Progress,
) -> Option<Progress>
    requires { Ready target main_count aux_count (record { circuit = m.old; roots = roots.old; main = main.old; aux = aux.old }) progress.main progress.aux }
    ensures { Advanced target main_count aux_count (record { circuit = m.old; roots = roots.old; main = main.old; aux = aux.old }) (record { circuit = m.new; roots = roots.new; main = main.new; aux = aux.new }) progress result }
{
    let (s, base) = next_choice(m, roots, target)?;
    let main_column = main_count + progress.main;
    let aux_column = aux_count + progress.aux;
    let c = substitute(m, roots, s, base, main_column, aux_column);
    Some(add_constraint(c, main, aux, progress))
}

// While some root's degree exceeds the target.
fn lower_all(
    m: &mut [u64],
    roots: &mut [u64],
    target: u64,
    main_count: u64,
    aux_count: u64,
    main: &mut [u64],
    aux: &mut [u64],
) -> (u64, u64)
    requires { Begun target main_count aux_count (record { circuit = m.old; roots = roots.old; main = main.old; aux = aux.old }) }
    ensures { accepted result (record { circuit = m.new; roots = roots.new; main = main.new; aux = aux.new }) ≡ finished target main_count aux_count (record { circuit = m.old; roots = roots.old; main = main.old; aux = aux.old }) }
{
    let mut progress = Progress { main: 0, aux: 0 };
    while let Some(next) = one_more(m, roots, target, main_count, aux_count, main, aux, progress) {
        progress = next;
    }
    (progress.main, progress.aux)
}

// Lowers the degree of the roots to the target. The new columns begin at the two counts; each list gets the ids of its new constraints.
pub fn lower(
    m: &mut [u64],
    roots: &mut [u64],
    target: u64,
    main_count: u64,
    aux_count: u64,
    main: &mut [u64],
    aux: &mut [u64],
) -> Result<(u64, u64), Refusal>
    ensures { told_lowering result (record { circuit = m.new; roots = roots.new; main = main.new; aux = aux.new }) ≡ lower_call target main_count aux_count (record { circuit = m.old; roots = roots.old; main = main.old; aux = aux.old }) }
{
    first_refusal(m, roots, target)?;
    if !exceeds(m, roots, target) {
        return Ok((0, 0));
    }
    then_refusal(
        m,
        roots,
        target,
        main_count,
        aux_count,
        main.len() as u64,
        aux.len() as u64,
    )?;
    Ok(lower_all(m, roots, target, main_count, aux_count, main, aux))
}
