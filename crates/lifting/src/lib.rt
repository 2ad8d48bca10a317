// Passes by which the prices of all pairs rise together. A report's slack is how far the price of any paired track may rise until it
// meets the score of that report, which is free. So all pairs rise by the least slack, and no search has to go through them for less.
// One index serves all lists of a pass: of what a loop over iter_mut().zip(..) wrote a proof knows nothing, and a zip is slower.
#![tactic(auto)]

ghost use Rattle.std.specs.Prelude.{◌≡◌, ℕ, ◌+◌, ◌-◌, ◌%◌, ◌<◌, ◌≤◌, ◌^◌, ◌⊎◌, length, IfSome};
ghost use Rattle.laws.specs.Lists.{at};
ghost use Rattle.matching.specs.Pairing.{none, left_out, most_tracks};
ghost use Rattle.passes.specs.Cells.{far, key_places};
ghost use Rattle.lifting.specs.Slack.{Small, Tightenable, Row, Bounded, Tightened, Spent, Beside, Raised};

use matching::{LEFT_OUT, NONE};
use passes::{FAR, KEY_PLACES, KEY_SCORES};

// How far a price may rise to a score: `none` is far away.
fn gap(cell: u32, price: u32) -> u32
    ensures { cell < far → result ≡ cell - price }
{
    (cell % FAR).saturating_sub(price)
}

// A track of this price is in a pair: it bounds the slack of each report of its row.
pub fn bound_slack(cells: &[u32], price: u32, slack: &mut [u32])
    requires { Row cells.now price slack.old }
    ensures { Bounded cells.now price slack.old slack.new }
{
    for (j, room) in slack.iter_mut().enumerate() {
        *room = gap(cells[j], price).min(*room);
    }
}

// After a search that ended at reach: a track that it went through has risen, and reaches report j as the search did.
pub fn tighten(labels: &[u32], reach: u32, slack: &mut [u32])
    requires { Tightenable labels.now reach slack.old }
    ensures { Tightened labels.now reach slack.old slack.new }
{
    for (j, room) in slack.iter_mut().enumerate() {
        *room = labels[j].saturating_sub(reach).min(*room);
    }
}

// A report that a track has sets no limit.
fn if_free(owner: u32, slack: u32) -> u32
    ensures { owner ≡ none → result ≡ slack }
{
    if owner == NONE { slack } else { LEFT_OUT }
}

// The least slack of a free report. A fold by hand, as in passes.
pub fn least_slack(owner: &[u32], slack: &[u32]) -> u32
    requires { Beside owner.now slack.now }
    ensures { (result ≤ left_out) × ((k : ℕ) → k < length slack.now → at owner.now k ≡ none → result ≤ at slack.now k) }
{
    let mut best = LEFT_OUT;
    for (j, room) in slack.iter().enumerate() {
        best = best.min(if_free(owner[j], *room));
    }
    best
}

// The prices of all pairs have risen by this much.
pub fn spend(slack: &mut [u32], rise: u32)
    requires { (rise ≤ left_out) × Small slack.old }
    ensures { Spent rise slack.old slack.new }
{
    for room in slack.iter_mut() {
        *room = room.saturating_sub(rise);
    }
}

// Only what is in a pair rises.
fn if_paired(other: u32, rise: u32) -> u32
    ensures { (result ≤ rise) × ((other ≡ none → result ≡ 0) × ((other ≡ none → ⊥) → result ≡ rise)) }
{
    if other == NONE { 0 } else { rise }
}

// What is in a pair rises: prices beside the pairing, discounts beside the owners.
pub fn raise_paired(other: &[u32], rise: u32, a: &mut [u32])
    requires { (length other.now ≡ length a.old) × ((k : ℕ) → k < length a.old → at a.old k + rise < 2 ^ 32) }
    ensures { Raised other.now rise a.old a.new }
{
    for (j, entry) in a.iter_mut().enumerate() {
        *entry += if_paired(other[j], rise);
    }
}

// The highest price.
pub fn highest(prices: &[u32]) -> u32
    requires { Small prices.now }
    ensures { (result ≤ left_out) × ((k : ℕ) → k < length prices.now → at prices.now k ≤ result) }
{
    prices.iter().copied().max().unwrap_or(0)
}

// A price and its track in one key, and one more; 0 for a track with a report, or left out at the full price: it is not in the queue.
// Keys are plain numbers, so that the loop round them goes by vectors.
fn queue_key(pairing: u32, price: u32, track: u32) -> u32
    requires { track < most_tracks }
    ensures { (result ≡ 0) ⊎ ((pairing ≡ none) × ((0 < result) × ((result - 1) % key_places ≡ track))) }
{
    if pairing == NONE && price < LEFT_OUT {
        price % KEY_SCORES * KEY_PLACES + track + 1
    } else {
        0
    }
}

// The track of highest price, the most exacting, of those without a report.
pub fn next_track(pairing: &[u32], prices: &[u32]) -> Option<u32>
    requires { (length pairing.now ≡ length prices.now) × ((length prices.now ≤ most_tracks) × Small prices.now) }
    ensures { IfSome result (λ track. (track < length prices.now) × (at pairing.now track ≡ none)) }
{
    let mut best = 0;
    for (j, price) in prices.iter().enumerate() {
        best = best.max(queue_key(pairing[j], *price, j as u32));
    }
    if best == 0 {
        return None;
    }
    Some((best - 1) % KEY_PLACES)
}
