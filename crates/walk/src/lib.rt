// The table after pairing: each slot settled or aged, with its price.
#![tactic(auto)]

ghost use Rattle.std.specs.Prelude.{◌≡◌, cond, [], ◌++◌, map, ◌≤◌, ◌<◌, eqb, length, get_or, drop};
ghost use Rattle.numbers.specs.Scales.{sectors};
ghost use Rattle.records.specs.Fields.{WellFormed, Sound};
ghost use Rattle.laws.specs.Lists.{at};
ghost use Rattle.records.specs.Bytes.{track_of, report_of, slot_due};
ghost use Rattle.settling.specs.Settle.{Settleable, without_pair};
ghost use Rattle.matching.specs.Pairing.{none};
ghost use Rattle.intake.specs.Refusals.{input_in, due_slots, Ready};
ghost use Rattle.laws.specs.Places.{Placed};
ghost use Rattle.walk.specs.Table.{missed_slot, paired_slot, rested_slot, settled_slot, no_price, settled_table, slot_prices};
ghost use Rattle.walk.specs.Table.{coasted_one, dropped_one, coasted_count, dropped_count};
ghost use Rattle.walk.specs.Ready.{TableReady, SlotReady, DueReady, DuePriced};

use intake::Call;

// How many of the missed tracks coast, and how many are dropped.
#[derive(Clone, Copy, Debug, PartialEq, Eq)]
pub struct MissedCounts {
    pub coasted: u32,
    pub dropped: u32,
}

// A slot that is due stays for its service; in any other a held track waits one call less.
fn rested_slot(mut slot: [u8; records::SLOT_BYTES]) -> [u8; records::SLOT_BYTES]
    ensures { result ≡ rested_slot slot }
{
    if records::slot_due(slot) || slot[records::MARK_AT] != records::HELD {
        return slot;
    }
    let aged = settling::aged(records::unpack(slot));
    slot[records::WAIT_AT] = aged.wait;
    slot
}

// A due track without a pair: it coasts, or its slot is freed.
fn missed_slot(slot: [u8; records::SLOT_BYTES], sector: u8) -> [u8; records::SLOT_BYTES]
    requires well_formed { WellFormed (track_of slot) sector }
    requires sector_in { sector < sectors }
    ensures { result ≡ missed_slot sector slot }
{
    let outcome = settling::without_pair(records::unpack(slot), sector);
    match outcome {
        Some(t) => records::pack(t),
        None => [0u8; records::SLOT_BYTES],
    }
}

// A due track with its pair.
fn paired_slot(
    slot: [u8; records::SLOT_BYTES],
    report: [u8; records::REPORT_BYTES],
    sector: u8,
) -> [u8; records::SLOT_BYTES]
    requires settleable { Settleable (track_of slot) }
    requires sound { Sound (report_of report) }
    requires sector_in { sector < sectors }
    ensures { result ≡ paired_slot sector report slot }
{
    let t = records::unpack(slot);
    let p = records::unpack_report(report);
    records::pack(settling::updated(t, p, sector))
}

// What a slot becomes; rank counts the due tracks in slot order, as the pairing does.
fn settled_slot(
    slot: [u8; records::SLOT_BYTES],
    rank: usize,
    batch: &[[u8; records::REPORT_BYTES]],
    pairing: &[u32],
    sector: u8,
) -> [u8; records::SLOT_BYTES]
    requires { SlotReady sector batch.now pairing.now slot rank }
    ensures { result ≡ settled_slot sector batch.now pairing.now slot rank }
{
    if !records::slot_due(slot) {
        return rested_slot(slot);
    }
    let number = pairing[rank];
    if number == matching::NONE {
        return missed_slot(slot, sector);
    }
    paired_slot(slot, batch[number as usize], sector)
}

fn age_table(table: &mut [[u8; records::SLOT_BYTES]])
    ensures { table.new ≡ map rested_slot table.old }
{
    for slot in table.iter_mut() {
        *slot = rested_slot(*slot);
    }
}

// The due slots in turn: what becomes of each.
fn settle_due(
    table: &mut [[u8; records::SLOT_BYTES]],
    sector: u8,
    batch: &[[u8; records::REPORT_BYTES]],
    due: &[usize],
    pairing: &[u32],
)
    requires { DueReady sector batch.now pairing.now due.now table.old }
    ensures { Placed [] due.now (λ rank. settled_slot sector batch.now pairing.now (get_or table.old (get_or due.now rank 0) []) rank) table.old table.new (length due.now) }
{
    for (rank, k) in due.iter().enumerate() {
        table[*k] = settled_slot(table[*k], rank, batch, pairing, sector);
    }
}

fn price_due(due: &[usize], track_prices: &[u32], prices: &mut [u32])
    requires { DuePriced due.now track_prices.now prices.old }
    ensures { Placed 0 due.now (at track_prices.now) prices.old prices.new (length due.now) }
{
    for (k, price) in due.iter().zip(track_prices) {
        prices[*k] = *price;
    }
}

// A price per slot: a due track's own, 0 at any other.
fn price_slots(due: &[usize], track_prices: &[u32], prices: &mut [u32])
    requires { DuePriced due.now track_prices.now prices.old }
    ensures { Placed 0 due.now (at track_prices.now) (map no_price prices.old) prices.new (length due.now) }
{
    prices.fill(0);
    price_due(due, track_prices, prices);
}

// Each slot's price, and what becomes of each slot.
pub fn settle_table(
    table: &mut [[u8; records::SLOT_BYTES]],
    call: Call,
    due: &[usize],
    pairing: &[u32],
    track_prices: &[u32],
    prices: &mut [u32],
)
    requires ready { Ready (input_in table.old call) }
    requires table_ready { TableReady (input_in table.old call) due.now pairing.now track_prices.now prices.old }
    ensures table_after { table.new ≡ settled_table (input_in table.old call.entry) pairing.now }
    ensures prices_after { prices.new ≡ slot_prices (input_in table.old call.entry) track_prices.now ++ drop (length table.old) prices.old }
{
    let slots = table.len();
    price_slots(due, track_prices, &mut prices[..slots]);
    age_table(table);
    settle_due(table, call.sector, call.batch, due, pairing);
}

// What one due track adds to the counts; number is its report's, or NONE.
fn missed_one(slot: [u8; records::SLOT_BYTES], number: u32, sector: u8) -> MissedCounts
    requires settleable { Settleable (track_of slot) }
    requires sector_in { sector < sectors }
    ensures coasts { (result.coasted ≡ cond (eqb number none) (coasted_one (without_pair (track_of slot) sector)) 0) × (result.coasted ≤ 1) }
    ensures drops { (result.dropped ≡ cond (eqb number none) (dropped_one (without_pair (track_of slot) sector)) 0) × (result.dropped ≤ 1) }
{
    if number != matching::NONE {
        return MissedCounts {
            coasted: 0,
            dropped: 0,
        };
    }
    let outcome = settling::without_pair(records::unpack(slot), sector);
    match outcome {
        Some(_) => MissedCounts {
            coasted: 1,
            dropped: 0,
        },
        None => MissedCounts {
            coasted: 0,
            dropped: 1,
        },
    }
}

// The counts of the table as it stands before it is settled.
pub fn count_missed(
    table: &[[u8; records::SLOT_BYTES]],
    call: Call,
    due: &[usize],
    pairing: &[u32],
) -> MissedCounts
    requires ready { Ready (input_in table.now call) }
    requires due_listed { (due.now ≡ due_slots table.now) × (length due.now ≤ length pairing.now) }
    ensures coasts { result.coasted ≡ coasted_count (input_in table.now call.entry) (length due.now) pairing.now }
    ensures drops { result.dropped ≡ dropped_count (input_in table.now call.entry) (length due.now) pairing.now }
{
    let mut coasted: u32 = 0;
    let mut dropped: u32 = 0;
    for (rank, k) in due.iter().enumerate() {
        let one = missed_one(table[*k], pairing[rank], call.sector);
        coasted += one.coasted;
        dropped += one.dropped;
    }
    MissedCounts { coasted, dropped }
}
