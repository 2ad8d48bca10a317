// What becomes of each report: paired, started, weak, full.
#![tactic(auto)]

ghost use Rattle.std.specs.Prelude.{◌≡◌, ◌++◌, ◌≤◌, ◌<◌, ◌==◌, length, drop, position};
ghost use Rattle.numbers.specs.Scales.{sectors};
ghost use Rattle.records.specs.Bytes.{is_free};
ghost use Rattle.intake.specs.Refusals.{most_slots, most_batch};
ghost use Rattle.fates.specs.Fates.{handed_in, free_slot, is_shown, no_track, told_unpaired, after_unpaired};
ghost use Rattle.fates.specs.Fates.{told_of, after_report, started_table, fates_of, slots_of, shown_of, count_of, Tellable, RoomToTell};

use intake::Call;
use records::Report;

// What became of a report, by its number in the list of fates.
#[derive(Clone, Copy, Debug, PartialEq, Eq)]
pub enum Fate {
    Paired = 1,
    Started = 2,
    Weak = 3,
    Full = 4,
}

// The slot of a report that has none, in the list of slots, which C lends.
const NO_SLOT: u16 = 65_535;

const SHOWN_FROM: u8 = 3;

// What is told of one report.
#[derive(Clone, Copy, Debug, PartialEq, Eq)]
pub struct Told {
    pub fate: Fate,
    pub slot: Option<u16>,
    pub shown: bool,
}

// Which report each due track has.
#[derive(Clone, Copy)]
pub struct Assigned<'a> {
    // the due tracks' slots, as the call found them
    pub due: &'a [usize],
    // a report number for each; a due track without a pair names no report of the batch
    pub pairing: &'a [u32],
}

// The rank of the due track that has report j.
fn owner_of(pairing: &[u32], j: u32) -> Option<usize>
    ensures { result ≡ position (λ number. number == j) pairing.now }
{
    pairing.iter().position(|number| *number == j)
}

fn first_free(table: &[[u8; records::SLOT_BYTES]]) -> Option<usize>
    ensures { result ≡ position is_free table.now }
{
    table
        .iter()
        .position(|slot| slot[records::MARK_AT] == records::FREE)
}

// The lowest free slot; none below `from` is free.
fn free_from(table: &[[u8; records::SLOT_BYTES]], from: usize) -> Option<usize>
    requires { from ≤ free_slot table.now }
    ensures { result ≡ position is_free table.now }
{
    Some(from + first_free(&table[from..])?)
}

fn is_shown(slot: [u8; records::SLOT_BYTES]) -> bool
    ensures { result ≡ is_shown slot }
{
    SHOWN_FROM <= records::unpack(slot).updates
}

// A report that has no track.
fn no_track(fate: Fate) -> Told
    ensures { result ≡ no_track fate }
{
    Told {
        fate,
        slot: None,
        shown: false,
    }
}

// A report without a pair; `free` is the lowest free slot.
fn tell_unpaired(
    table: &mut [[u8; records::SLOT_BYTES]],
    sector: u8,
    p: Report,
    free: Option<usize>,
) -> Told
    requires { (length table.old ≤ most_slots) × (sector < sectors) × (free ≡ position is_free table.old) }
    ensures told { result ≡ told_unpaired p table.old }
    ensures table_after { table.new ≡ after_unpaired p sector table.old }
{
    let weak = records::is_weak(p);
    if weak {
        return no_track(Fate::Weak);
    }
    match free {
        Some(k) => {
            table[k] = records::pack(settling::started(p, sector));
            Told {
                fate: Fate::Started,
                slot: Some(k as u16),
                shown: false,
            }
        }
        None => no_track(Fate::Full),
    }
}

// Report j, in the table as the reports before it left it; `free` is the lowest free slot.
fn tell_report(
    table: &mut [[u8; records::SLOT_BYTES]],
    call: Call,
    assigned: Assigned,
    free: Option<usize>,
    j: usize,
) -> Told
    requires tellable { Tellable (handed_in assigned call) assigned.pairing.now table.old }
    requires next_free { (free ≡ position is_free table.old) × (j < length call.batch.now) }
    ensures told { result ≡ told_of (handed_in assigned.entry call.entry) assigned.entry.pairing.now j table.old }
    ensures table_after { table.new ≡ after_report (handed_in assigned.entry call.entry) assigned.entry.pairing.now j table.old }
{
    match owner_of(assigned.pairing, j as u32) {
        Some(rank) => {
            let k = assigned.due[rank];
            Told {
                fate: Fate::Paired,
                slot: Some(k as u16),
                shown: is_shown(table[k]),
            }
        }
        None => tell_unpaired(
            table,
            call.sector,
            records::unpack_report(call.batch[j]),
            free,
        ),
    }
}

// Every report in batch order, from the table as pairing left it.
pub fn tell_reports(
    table: &mut [[u8; records::SLOT_BYTES]],
    call: Call,
    assigned: Assigned,
    fates: &mut [u8],
    slots: &mut [u16],
    shown: &mut [u8],
)
    requires tellable { Tellable (handed_in assigned call) assigned.pairing.now table.old }
    requires room_to_tell { RoomToTell (length call.batch.now) fates.old slots.old shown.old }
    ensures { (table.new ≡ started_table (handed_in assigned.entry call.entry) assigned.entry.pairing.now table.old)
        × (fates.new ≡ fates_of (handed_in assigned.entry call.entry) assigned.entry.pairing.now table.old ++ drop (length call.entry.batch.now) fates.old)
        × (slots.new ≡ slots_of (handed_in assigned.entry call.entry) assigned.entry.pairing.now table.old ++ drop (length call.entry.batch.now) slots.old)
        × (shown.new ≡ shown_of (handed_in assigned.entry call.entry) assigned.entry.pairing.now table.old ++ drop (length call.entry.batch.now) shown.old) }
{
    let mut from: usize = 0;
    for j in 0..call.batch.len() {
        let free = free_from(table, from);
        from = free.unwrap_or(table.len());
        let told = tell_report(table, call, assigned, free, j);
        fates[j] = told.fate as u8;
        slots[j] = told.slot.unwrap_or(NO_SLOT);
        shown[j] = u8::from(told.shown);
    }
}

// How many of the reports have a fate.
pub fn count_fate(fates: &[u8], fate: u8) -> u32
    requires { length fates.now ≤ most_batch }
    ensures { result ≡ count_of fate fates.now }
{
    fates.iter().map(|told| u32::from(*told == fate)).sum()
}
