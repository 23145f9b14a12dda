// BAD_WORD, of tables of any number of rows: the cells to be filled are no given words, and they are not looked at.
ghost use Rattle.std.specs.Prelude.{◌≡◌, false, suc, ◌-◌, ◌/◌, ◌≤◌, length};
ghost use Rattle.layout.specs.Lists.{any};
ghost use Rattle.layout.specs.NotCircuit.{not_circuit, bad_word};
ghost use Rattle.filling.specs.Tables.{rows_read};
ghost use Rattle.filling.specs.Refusals.{bad_rows};
ghost use Rattle.fillable.specs.Given.{given_words};
ghost use Rattle.fillable.specs.Beside.{bad_beside, bad_table_beside, Inside, Rowed};

use read::table::any_bad;

// Of one row, the words before the cells to be filled, and those after them.
fn bad_beside(row: &[u64], from: usize, to: usize) -> bool
    requires { (from ≤ length row.now) × (to ≤ length row.now) }
    ensures { result ≡ bad_beside from to row.now }
{
    any_bad(&row[..from]) || any_bad(&row[to..])
}

// The rows that are filled, and then the rest, which is given whole.
fn bad_rows_beside(table: &[u64], width: usize, from: usize, to: usize, filled: u64) -> bool
    requires { Inside width from to filled table.now }
    ensures { result ≡ bad_table_beside width from to filled table.now }
{
    let n = filled as usize;
    for r in 0..n {
        let at = r * width;
        if bad_beside(&table[at..at + width], from, to) {
            return true;
        }
    }
    any_bad(&table[n * width..])
}

// The same of a table of so many rows, where an empty one answers at once: nothing bounds its number of rows.
fn bad_table_beside(table: &[u64], rows: u64, from: usize, to: usize, filled: u64) -> bool
    requires { Rowed rows from to filled table.now }
    ensures { result ≡ bad_table_beside (length table.now / rows) from to filled table.now }
{
    if table.len() == 0 {
        return false;
    }
    let n = rows as usize;
    bad_rows_beside(table, table.len() / n, from, to, filled)
}

// Of a dual-row circuit the last row is a next row only.
pub fn filled_rows(m: &[u64], rows: u64) -> u64
    requires { (not_circuit m.now ≡ false) × (rows_read m.now ≤ rows) }
    ensures { result ≡ suc rows - rows_read m.now }
{
    rows - (m[0] - 1)
}

// 5: a given word at or above p, of all rows: every word but the cells to be filled.
pub fn bad_given(
    m: &[u64],
    mains: &[u64],
    auxs: &[u64],
    main_count: u64,
    aux_count: u64,
    rows: u64,
    main: &[u64],
    aux: &[u64],
    challenges: &[u64],
) -> bool
    requires { (not_circuit m.now ≡ false) × (bad_rows rows main_count aux_count m.now mains.now auxs.now main.now aux.now challenges.now ≡ false) }
    ensures { result ≡ any bad_word (given_words rows main_count aux_count m.now mains.now auxs.now main.now aux.now challenges.now) }
{
    let filled = filled_rows(m, rows);
    let from = main_count as usize;
    let to = from + mains.len();
    if bad_table_beside(main, rows, from, to, filled) {
        return true;
    }
    let aux_from = 3 * (aux_count as usize);
    let aux_to = aux_from + 3 * auxs.len();
    if bad_table_beside(aux, rows, aux_from, aux_to, filled) {
        return true;
    }
    any_bad(challenges)
}
