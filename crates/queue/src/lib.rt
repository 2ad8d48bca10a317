// The tracks without a report stand in a queue, the most exacting first, and are inserted one by one. Once a search has gone a long
// way, the prices of all pairs rise together before each insertion as far as the free reports allow: then the next search meets a free
// report before it goes through them.
#![tactic(auto)]

ghost use Rattle.std.specs.Prelude.{◌≡◌, ◌+◌, ◌<◌, length};
ghost use Rattle.laws.specs.Lists.{at};
ghost use Rattle.matching.specs.Pairing.{none};
ghost use Rattle.lifting.specs.Slack.{Small};
ghost use Rattle.paths.specs.Held.{SamePairs, SameTree, Good, SearchLists, Ready, ReadyAgain};
ghost use Rattle.queue.specs.Held.{SamePairing, Slack, Lifting};

use lifting::{bound_slack, highest, least_slack, next_track, raise_paired, spend, tighten};
use matching::{LEFT_OUT, NONE, Sheet};
use paths::{Pairs, Tree, insert};

// A search that closes as many reports is long.
const LONG_SEARCH: u32 = 20;

// A track in a pair bounds the slack of each report of its row.
fn bound_by_pair(sheet: Sheet, track: usize, pairs: &Pairs<'_>, slack: &mut [u32])
    requires { Good sheet (length pairs.now.prices.now) pairs.now × ((track < length pairs.now.prices.now) × Slack sheet track pairs.now slack.old) }
    ensures { Slack sheet.entry (track + 1) pairs.now slack.new }
{
    if pairs.pairing[track] == NONE {
        return;
    }
    bound_slack(sheet.row(track), pairs.prices[track], slack);
}

// Every track in a pair does.
fn bound_by_pairs(sheet: Sheet, pairs: &Pairs<'_>, slack: &mut [u32])
    requires { Good sheet (length pairs.now.prices.now) pairs.now × ((length slack.old ≡ sheet.reports) × Small slack.old) }
    ensures { Slack sheet.entry (length pairs.now.prices.now) pairs.now slack.new }
{
    for track in 0..pairs.prices.len() {
        bound_by_pair(sheet, track, pairs, slack);
    }
}

// All pairs rise together, as far as the free reports and the full price allow.
fn lift(sheet: Sheet, pairs: &mut Pairs<'_>, slack: &mut [u32])
    requires { Lifting sheet (length pairs.old.prices.now) pairs.old slack.old }
    ensures { SamePairs pairs.old pairs.new × (SamePairing pairs.old pairs.new × Lifting sheet.entry (length pairs.old.prices.now) pairs.new slack.new) }
{
    let free = least_slack(&mut *pairs.owner, slack);
    let rise = free.min(LEFT_OUT - highest(&mut *pairs.prices));
    if rise == 0 {
        return;
    }
    raise_paired(&mut *pairs.owner, rise, &mut *pairs.discounts);
    raise_paired(&mut *pairs.pairing, rise, &mut *pairs.prices);
    spend(slack, rise);
}

// One track is inserted, after all pairs have risen.
fn lifted_insert(
    sheet: Sheet,
    track: u32,
    pairs: &mut Pairs<'_>,
    tree: &mut Tree<'_>,
    slack: &mut [u32],
)
    requires { Lifting sheet (length pairs.old.prices.now) pairs.old slack.old × (SearchLists sheet tree.old × ((track < length pairs.old.prices.now) × (at pairs.old.pairing.now track ≡ none))) }
    ensures { (SamePairs pairs.old pairs.new × SameTree tree.old tree.new) × (Lifting sheet.entry (length pairs.old.prices.now) pairs.new slack.new × SearchLists sheet.entry tree.new) }
{
    lift(sheet, pairs, slack);
    let reach = insert(sheet, track, pairs, tree);
    tighten(&mut *tree.labels, reach.label, slack);
}

// Insertions until no track is in the queue.
fn lifted_inserts(sheet: Sheet, pairs: &mut Pairs<'_>, tree: &mut Tree<'_>, slack: &mut [u32])
    requires { Lifting sheet (length pairs.old.prices.now) pairs.old slack.old × SearchLists sheet tree.old }
    ensures { ReadyAgain sheet.entry pairs.old tree.old pairs.new tree.new }
{
    for _ in 0..pairs.prices.len() {
        let Some(track) = next_track(&mut *pairs.pairing, &mut *pairs.prices) else {
            return;
        };
        lifted_insert(sheet, track, pairs, tree, slack);
    }
}

// Insertions until no track is in the queue, or a search was long.
fn first_inserts(sheet: Sheet, pairs: &mut Pairs<'_>, tree: &mut Tree<'_>)
    requires { Ready sheet pairs.old tree.old }
    ensures { ReadyAgain sheet.entry pairs.old tree.old pairs.new tree.new }
{
    for _ in 0..pairs.prices.len() {
        let Some(track) = next_track(&mut *pairs.pairing, &mut *pairs.prices) else {
            return;
        };
        let reach = insert(sheet, track, pairs, tree);
        if reach.closed >= LONG_SEARCH {
            return;
        }
    }
}

// The insertions that are left, if any, with all pairs rising before each.
fn later_inserts(sheet: Sheet, pairs: &mut Pairs<'_>, tree: &mut Tree<'_>, slack: &mut [u32])
    requires { Ready sheet pairs.old tree.old × (length slack.old ≡ sheet.reports) }
    ensures { ReadyAgain sheet.entry pairs.old tree.old pairs.new tree.new }
{
    if next_track(&mut *pairs.pairing, &mut *pairs.prices).is_none() {
        return;
    }
    slack.fill(LEFT_OUT);
    bound_by_pairs(sheet, pairs, slack);
    lifted_inserts(sheet, pairs, tree, slack);
}

// Every track in the queue is inserted. Which one is first decides the time, not what is found.
pub fn insert_all(sheet: Sheet, pairs: &mut Pairs<'_>, tree: &mut Tree<'_>, slack: &mut [u32])
    requires { Ready sheet pairs.old tree.old × (length slack.old ≡ sheet.reports) }
    ensures { ReadyAgain sheet.entry pairs.old tree.old pairs.new tree.new }
{
    first_inserts(sheet, pairs, tree);
    later_inserts(sheet, pairs, tree, slack);
}
