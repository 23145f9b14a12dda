// The new columns of rows: document 02, request 1. A refusal leaves both tables as they were.
ghost use Rattle.filling.specs.Calls.{fill_call, fill_rows_call};
ghost use Rattle.abi.specs.Answers.{Done};

use circuit::refusal;
use filler::calls;

// Fills the new columns of one row; of a dual-row circuit both rows are lent, and the current one is filled.
#[unsafe(no_mangle)]
pub extern "C" fn atz_fill(
    m: &[u64],
    mains: &[u64],
    auxs: &[u64],
    main_count: u64,
    aux_count: u64,
    main: &mut [u64],
    aux: &mut [u64],
    challenges: &[u64],
) -> u64
    ensures { Done (fill_call main_count aux_count m.now mains.now auxs.now challenges.now main.old aux.old) result (main.new, aux.new) }
{
    refusal::number(calls::fill(m, mains, auxs, main_count, aux_count, main, aux, challenges))
}

// Fills so many rows, one after the other; of a dual-row circuit all but the last, which is only read.
#[unsafe(no_mangle)]
pub extern "C" fn atz_fill_rows(
    m: &[u64],
    mains: &[u64],
    auxs: &[u64],
    main_count: u64,
    aux_count: u64,
    rows: u64,
    main: &mut [u64],
    aux: &mut [u64],
    challenges: &[u64],
) -> u64
    ensures { Done (fill_rows_call main_count aux_count m.now mains.now auxs.now challenges.now rows main.old aux.old) result (main.new, aux.new) }
{
    refusal::number(calls::fill_rows(
        m, mains, auxs, main_count, aux_count, rows, main, aux, challenges,
    ))
}
