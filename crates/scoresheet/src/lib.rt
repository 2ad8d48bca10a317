// A sector's score sheet: due tracks in slot order, reports in batch order.
#![tactic(auto)]

ghost use Rattle.std.specs.Prelude.{◌≡◌, ◌++◌, map, ◌+◌, ◌*◌, ◌<◌, length, drop};
ghost use Rattle.intake.specs.Refusals.{input, input_in, Ready};
ghost use Rattle.scoresheet.specs.Cells.{cell_of, pair_cell, cells_of};
ghost use Rattle.scoresheet.specs.Call.{sheeted_of, sheet_after};
ghost use Rattle.scoresheet.specs.Ready.{RowReady, RowsReady};

use intake::{Call, Refusal};
use records::{Site, Track};

// How many due tracks a sheet has, and how many reports.
#[derive(Clone, Copy, Debug, PartialEq, Eq)]
pub struct Size {
    pub tracks: usize,
    pub reports: usize,
}

#[tactic(auto, unfolding(crate::specs::Cells::cell_of))]
fn cell(s: Option<u32>) -> u32
    ensures { result ≡ cell_of s }
{
    s.unwrap_or(matching::NONE)
}

// The row of a track, a cell a report.
fn fill_row(t: Track, site: Site, batch: &[[u8; records::REPORT_BYTES]], row: &mut [u32])
    requires { RowReady t batch.now row.old }
    ensures { row.new ≡ map (pair_cell t site) batch.now }
{
    // By index: of what a loop over iter_mut().zip(..) wrote, a proof knows nothing.
    for (j, report) in batch.iter().enumerate() {
        let p = records::unpack_report(*report);
        row[j] = cell(scoring::score(t, p, site));
    }
}

// The rows of the due tracks, one behind the other.
pub fn fill_rows(table: &[[u8; records::SLOT_BYTES]], call: Call, due: &[usize], sheet: &mut [u32])
    requires ready { Ready (input_in table.now call) }
    requires rows_ready { RowsReady (input_in table.now call) due.now sheet.old }
    ensures { sheet.new ≡ cells_of (input_in table.now call.entry) ++ drop (length due.now * length call.entry.batch.now) sheet.old }
{
    let reports = call.batch.len();
    // No chunks_exact_mut: a batch may be empty, and a chunk may not.
    for (rank, k) in due.iter().enumerate() {
        let slot = table[*k];
        let from = rank * reports;
        let to = from + reports;
        fill_row(
            records::unpack(slot),
            call.site,
            call.batch,
            &mut sheet[from..to],
        );
    }
}

// The public call: refused by 1 to 9, and then nothing is written; else the sheet's cells, and no more.
pub fn score_sheet(
    table: &[[u8; records::SLOT_BYTES]],
    sector: u8,
    site: Site,
    batch: &[[u8; records::REPORT_BYTES]],
    sheet: &mut [u32],
) -> Result<Size, Refusal>
    ensures answer { result ≡ sheeted_of (input table.now sector site batch.now) sheet.old }
    ensures sheet_after { sheet.new ≡ sheet_after (input table.now sector site batch.now) sheet.old }
{
    let call = Call {
        sector,
        site,
        batch,
    };
    let mut due = intake::blank_due();
    let tracks = intake::take_in(table, call, &mut due)?;
    let reports = batch.len();
    if sheet.len() < tracks * reports {
        return Err(Refusal::NoRoom);
    }
    fill_rows(table, call, &due[..tracks], sheet);
    Ok(Size { tracks, reports })
}
