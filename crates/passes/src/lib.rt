// The engine's passes over a row of the sheet and over its lists. The body of a loop that runs to its end has no branch, so
// that it goes by vectors; one index serves all its lists, since a zip tests the end of each, which is slower. Lists have an entry a
// report; a label says how far a search has to go to reach that report.
#![tactic(auto)]

ghost use Rattle.std.specs.Prelude.{IfSome, MatchOption, ◌≡◌, ℕ, ◌+◌, ◌-◌, ◌*◌, ◌<◌, ◌≤◌, ◌^◌, length, ◌⊎◌};
ghost use Rattle.laws.specs.Lists.{at};
ghost use Rattle.matching.specs.Pairing.{none, left_out};
ghost use Rattle.passes.specs.Cells.{IsCell, far, key_places, last_key, key, Keyed, RowBest, Fair, Relaxed, Labels, FromLabels, Low, Found, near, Near, Nearest, Searched, Paid, RaisedOne, PricesUp, DiscountsUp};

use matching::{NONE, SCORE_END};

// Above every label, and above what an admissible pair adds to one.
pub const FAR: u32 = 1073741824;
// A key is a score or price and the number of a report or track in one: the one is below this, the other below the next.
pub const KEY_SCORES: u32 = 8388608;

pub const KEY_PLACES: u32 = 256;

const LAST_KEY: u32 = KEY_SCORES * KEY_PLACES - 1;
// A label below this fits one key with its report.
const NEAR: u32 = KEY_SCORES - 1;

// The least score of a row, and a report that has it.
#[derive(Clone, Copy, Debug, PartialEq, Eq)]
pub struct Cheapest {
    pub score: u32,
    pub report: u32,
}

// What a track at this label offers to a report: `none` is far away.
fn offer(cell: u32, discount: u32, label: u32, price: u32) -> u32
    requires { (discount ≤ left_out) × ((label ≤ left_out) × ((price ≤ left_out) × ((cell < far → price ≤ cell + discount) × IsCell cell))) }
    ensures { (cell < far → result + price ≡ label + cell + discount) × (far ≤ cell → left_out < result) }
{
    cell % FAR + discount - price + label
}

// x where a is below b, else y. In a vector, a test by `at most` takes the lesser of the two, which `relax` has at hand.
pub fn choose(a: u32, b: u32, x: u32, y: u32) -> u32
    ensures { (a < b → result ≡ x) × (b ≤ a → result ≡ y) }
{
    if b <= a { y } else { x }
}

// A track at this label offers to every report of its row. The lists come one by one: they lie in a
// Sheet, in Pairs and in Tree.
pub fn relax(
    cells: &[u32],
    discounts: &[u32],
    label: u32,
    price: u32,
    track: u32,
    labels: &mut [u32],
    via: &mut [u32],
)
    requires { Fair cells.now discounts.now labels.old via.old label price }
    ensures { Relaxed cells.now discounts.now label price track labels.old via.old labels.new via.new }
{
    for j in 0..labels.len() {
        let offered = offer(cells[j], discounts[j], label, price);
        via[j] = choose(offered, labels[j], track, via[j]);
        labels[j] = offered.min(labels[j]);
    }
}

// The least label of an open report, or cap. A fold by hand, as the keys' are: as chains over a zip their goals stayed open.
fn least(labels: &[u32], closings: &[u32], cap: u32) -> u32
    requires { Labels labels.now closings.now × (cap < 2 ^ 31) }
    ensures { Low labels.now closings.now cap result }
{
    let mut best = cap;
    for (j, label) in labels.iter().enumerate() {
        best = best.min(*label + closings[j]);
    }
    best
}

// The first open report at this label, or the length: a search's own end mark up to nearest_from, so that an Option here would only
// be turned back.
fn first_at(labels: &[u32], closings: &[u32], label: u32) -> usize
    requires { Labels labels.now closings.now }
    ensures { Found labels.now closings.now label result }
{
    for (j, here) in labels.iter().enumerate() {
        if *here + closings[j] == label {
            return j;
        }
    }
    labels.len()
}

// An open report of least label below cap, or the length.
fn far_nearest(labels: &[u32], closings: &[u32], cap: u32) -> usize
    requires { Labels labels.now closings.now × (cap < 2 ^ 31) }
    ensures { Nearest labels.now closings.now cap result }
{
    let label = least(labels, closings, cap);
    if label < cap {
        first_at(labels, closings, label)
    } else {
        labels.len()
    }
}

// A label and its report in one key; labels from NEAR on count alike.
fn near_of(label: u32, j: u32) -> u32
    requires { j < key_places }
    ensures { (label < near → result ≡ label * key_places + j) × (near ≤ label → result ≡ near * key_places + j) }
{
    label.min(NEAR) * KEY_PLACES + j
}

// The least of these keys.
fn near_key(labels: &[u32], closings: &[u32]) -> u32
    requires { Labels labels.now closings.now }
    ensures { Near labels.now closings.now result }
{
    let mut best = LAST_KEY;
    for (j, label) in labels.iter().enumerate() {
        best = best.min(near_of(*label + closings[j], j as u32));
    }
    best
}

// As far_nearest; where a label is near, one pass finds it and its report.
fn nearest(labels: &[u32], closings: &[u32], cap: u32) -> usize
    requires { Labels labels.now closings.now × (cap < 2 ^ 31) }
    ensures { Nearest labels.now closings.now cap result }
{
    let best = near_key(labels, closings);
    let label = best / KEY_PLACES;
    if label >= NEAR {
        return far_nearest(labels, closings, cap);
    }
    if label >= cap {
        return labels.len();
    }
    (best % KEY_PLACES) as usize
}

// The same from `front` on, where the reports before are closed.
pub fn nearest_from(front: usize, labels: &[u32], closings: &[u32], cap: u32) -> usize
    requires { FromLabels front labels.now closings.now cap }
    ensures { Nearest labels.now closings.now cap result }
{
    front + nearest(&labels[front..], &closings[front..], cap)
}

// The first open report.
fn first_open(closings: &[u32]) -> Option<usize>
    ensures { MatchOption result ((k : ℕ) → k < length closings.now → at closings.now k ≡ 0 → ⊥) (λ i. (i < length closings.now) × ((k : ℕ) → k < i → at closings.now k ≡ 0 → ⊥)) }
{
    closings.iter().position(|closing| *closing == 0)
}

// The first open report from `front` on, or the length, the search's end mark.
pub fn open_from(closings: &[u32], front: usize) -> usize
    requires { front ≤ length closings.now }
    ensures { (front ≤ result) × ((result ≤ length closings.now) × ((k : ℕ) → k < result → front ≤ k → at closings.now k ≡ 0 → ⊥)) }
{
    match first_open(&closings[front..]) {
        Some(ahead) => front + ahead,
        None => closings.len(),
    }
}

// One track's price rises; a rise of 0 may name no track.
fn raise_one(prices: &mut [u32], track: u32, rise: u32)
    requires { (rise ≡ 0) ⊎ ((track < length prices.old) × (at prices.old track + rise < 2 ^ 32)) }
    ensures { RaisedOne prices.old track rise prices.new }
{
    if rise > 0 {
        let place = track as usize;
        prices[place] += rise;
    }
}

// A track whose report lies nearer than reach, where the search ended, pays the difference. `pairing` is for the contract only.
pub fn raise_prices(pairing: &[u32], owner: &[u32], labels: &[u32], reach: u32, prices: &mut [u32])
    requires { Paid pairing.now owner.now labels.now prices.old reach }
    ensures { PricesUp pairing.now labels.now reach prices.old prices.new }
{
    for (j, label) in labels.iter().enumerate() {
        raise_one(prices, owner[j], reach.saturating_sub(*label));
    }
}

// And its report's discount rises by as much.
pub fn raise_discounts(labels: &[u32], reach: u32, discounts: &mut [u32])
    requires { Searched labels.now reach × ((length labels.now ≡ length discounts.old) × ((j : ℕ) → j < length discounts.old → at discounts.old j + reach < 2 ^ 32)) }
    ensures { DiscountsUp labels.now reach discounts.old discounts.new }
{
    for (j, discount) in discounts.iter_mut().enumerate() {
        *discount += reach.saturating_sub(labels[j]);
    }
}

// A score and its report in one key.
#[tactic(auto, unfolding(crate::specs::Cells::key))]
fn key_of(cell: u32, j: u32) -> u32
    requires { j < key_places }
    ensures { result ≡ key cell j }
{
    cell % KEY_SCORES * KEY_PLACES + j
}

// The least of these keys.
fn row_key(cells: &[u32]) -> u32
    requires { length cells.now ≤ key_places }
    ensures { Keyed cells.now result }
{
    let mut best = LAST_KEY;
    for (j, cell) in cells.iter().enumerate() {
        best = best.min(key_of(*cell, j as u32));
    }
    best
}

// The least score of a row and its report; None where no report is admissible.
#[tactic(auto, using(crate::proofs::Keys::best_none))]
pub fn row_best(cells: &[u32]) -> Option<Cheapest>
    requires { (length cells.now ≤ key_places) × ((k : ℕ) → k < length cells.now → IsCell (at cells.now k)) }
    ensures { RowBest cells.now result }
{
    let best = row_key(cells);
    let score = best / KEY_PLACES;
    if score >= SCORE_END {
        return None;
    }
    Some(Cheapest {
        score,
        report: best % KEY_PLACES,
    })
}

// Report j, if it has this score and no track has it, or the last key.
fn free_key(cell: u32, owner: u32, score: u32, j: u32) -> u32
    ensures { (result ≡ last_key) ⊎ ((result ≡ j) × ((cell ≡ score) × (owner ≡ none))) }
{
    if cell == score && owner == NONE {
        j
    } else {
        LAST_KEY
    }
}

// The first report of this score that no track has. The loop has no way out and its keys are plain numbers, so that it goes by vectors.
fn first_free(cells: &[u32], owner: &[u32], score: u32) -> Option<usize>
    requires { (length owner.now ≡ length cells.now) × (length cells.now ≤ key_places) }
    ensures { IfSome result (λ j. (j < length cells.now) × ((at cells.now j ≡ score) × (at owner.now j ≡ none))) }
{
    let mut best = LAST_KEY;
    for (j, cell) in cells.iter().enumerate() {
        best = best.min(free_key(*cell, owner[j], score, j as u32));
    }
    if best == LAST_KEY {
        return None;
    }
    Some(best as usize)
}

// The report, of this score, if no track has it, or another such report.
pub fn free_report(cells: &[u32], owner: &[u32], score: u32, report: u32) -> Option<usize>
    requires { (length owner.now ≡ length cells.now) × ((length cells.now ≤ key_places) × ((report < length cells.now) × (at cells.now report ≡ score))) }
    ensures { IfSome result (λ j. (j < length cells.now) × ((at cells.now j ≡ score) × (at owner.now j ≡ none))) }
{
    let place = report as usize;
    if owner[place] == NONE {
        return Some(place);
    }
    first_free(cells, owner, score)
}
