// One track more: a search from it, prices that rise once, and a pairing that changes along the way back.
#![tactic(auto)]

ghost use Rattle.std.specs.Prelude.{◌+◌, ◌≡◌, true};
ghost use Rattle.passes.specs.Cells.{FromLabels, Nearest};
ghost use Rattle.paths.specs.Held.{SamePairs, SameTree, SearchLists, Offerable, Offered, Searchable, Standing, Endable, EndsAt, Ended, Flips, Flipped, Finishable, Finished, Inserted, Reached};
ghost use Rattle.paths.specs.State.{is_taken};

use matching::{LEFT_OUT, NONE, Sheet};
use passes::{FAR, nearest_from, open_from, raise_discounts, raise_prices, relax};

// What the engine holds of a pairing: each track's report and price, and each report's track and discount. A list that is only read is
// taken out of a `&mut Pairs` or `&mut Tree` by `&mut *` too: by `&` the check would forget what stands in it.
#[derive(Drop)]
pub struct Pairs<'a> {
    pub pairing: &'a mut [u32],
    pub owner: &'a mut [u32],
    pub prices: &'a mut [u32],
    pub discounts: &'a mut [u32],
}

// What a search holds of each report: its label, the track via which it was reached, and when it was closed, 0 while it is open.
#[derive(Drop)]
pub struct Tree<'a> {
    pub labels: &'a mut [u32],
    pub via: &'a mut [u32],
    pub closings: &'a mut [u32],
}

impl Tree<'_> {
    // The nearest open report, where those before `front` are closed, or the number of reports if none is nearer than `cap`.
    fn nearest(&self, front: usize, cap: u32) -> usize
        requires { FromLabels front self.now.labels.now self.now.closings.now cap }
        ensures { Nearest self.now.labels.now self.now.closings.now cap result }
    {
        nearest_from(front, self.labels, self.closings, cap)
    }
}

// Where a search stands: what leaving a track out would cost, and which; how many reports are closed, before which report all are,
// and the nearest open one, the number of reports if none is nearer than leaving a track out: no Option, as `nearest_from` finds such
// a number, and an Option would be made of it and taken apart again in each step.
#[derive(Clone, Copy)]
struct Progress {
    leaving: u32,
    leaver: u32,
    closed: u32,
    front: usize,
    next: usize,
}

// What a search finds: a free report, or a track that is to be left out.
#[derive(Clone, Copy, Debug, PartialEq, Eq)]
enum End {
    Free(u32),
    LeftOut(u32),
}

// How a search ended: at which label, with what, and after how many closed reports.
#[derive(Clone, Copy)]
struct Ending {
    label: u32,
    end: End,
    closed: u32,
}

// How far a search went, and through how many reports.
#[derive(Clone, Copy)]
pub struct Reach {
    pub label: u32,
    pub closed: u32,
}

// The track, at this label, offers to every report from `front` on; those before are closed.
fn offer_from(
    sheet: Sheet,
    front: usize,
    track: u32,
    label: u32,
    pairs: &Pairs<'_>,
    tree: &mut Tree<'_>,
)
    requires { Offerable sheet front track label pairs.now tree.old }
    ensures { SameTree tree.old tree.new × Offered sheet.entry track label pairs.now tree.old tree.new }
{
    let place = track as usize;
    relax(
        &sheet.row(place)[front..],
        &pairs.discounts[front..],
        label,
        pairs.prices[place],
        track,
        &mut tree.labels[front..],
        &mut tree.via[front..],
    );
}

// The track itself offers to every report; all are open.
fn set_out(sheet: Sheet, track: u32, pairs: &Pairs<'_>, tree: &mut Tree<'_>) -> Progress
    requires { Searchable sheet track pairs.now tree.old }
    ensures { SameTree tree.old tree.new × Standing sheet.entry track pairs.now result tree.new }
{
    tree.labels.fill(LEFT_OUT);
    tree.closings.fill(0);
    offer_from(sheet, 0, track, 0, pairs, tree);
    let leaving = LEFT_OUT - pairs.prices[track as usize];
    let next = tree.nearest(0, leaving);
    Progress {
        leaving,
        leaver: track,
        closed: 0,
        front: 0,
        next,
    }
}

// The nearest report has a track: it is closed, and its track offers to the open ones.
fn pass_through(
    sheet: Sheet,
    track: u32,
    pairs: &Pairs<'_>,
    s: Progress,
    tree: &mut Tree<'_>,
) -> Progress
    requires standing { Standing sheet track pairs.now s tree.old }
    requires next_taken { is_taken pairs.now.owner.now s.next ≡ true }
    ensures { SameTree tree.old tree.new × (Standing sheet.entry track pairs.now result tree.new × (result.closed ≡ s.closed + 1)) }
{
    let j = s.next;
    let label = tree.labels[j];
    tree.closings[j] = FAR + s.closed;
    let passed = pairs.owner[j];
    let cost = label + (LEFT_OUT - pairs.prices[passed as usize]);
    let leaver = if cost < s.leaving { passed } else { s.leaver };
    let leaving = cost.min(s.leaving);
    let front = open_from(&mut *tree.closings, s.front);
    offer_from(sheet, front, passed, label, pairs, tree);
    let next = tree.nearest(front, leaving);
    Progress {
        leaving,
        leaver,
        closed: s.closed + 1,
        front,
        next,
    }
}

// Whether there is a nearest report, and it has a track.
fn is_taken(owner: &[u32], next: usize) -> bool
    ensures { result ≡ is_taken owner.now next }
{
    next < owner.len() && owner[next] != NONE
}

// How a search ends: the nearest report is free, and is closed; or there is none, and a track is left out.
fn end_of(s: Progress, tree: &mut Tree<'_>) -> Ending
    requires { Endable s tree.old }
    ensures { SameTree tree.old tree.new × EndsAt s tree.old tree.new result.label result.end }
{
    let j = s.next;
    if j >= tree.labels.len() {
        return Ending {
            label: s.leaving,
            end: End::LeftOut(s.leaver),
            closed: s.closed,
        };
    }
    tree.closings[j] = FAR + s.closed;
    Ending {
        label: tree.labels[j],
        end: End::Free(j as u32),
        closed: s.closed + 1,
    }
}

// From a track without a report: labels grow until a free report is nearest, or leaving a track out costs no more.
// It goes by what stands in the lists, as `flip` does, and counts no index.
fn search(sheet: Sheet, track: u32, pairs: &Pairs<'_>, tree: &mut Tree<'_>) -> Ending
    requires { Searchable sheet track pairs.now tree.old }
    ensures { SameTree tree.old tree.new × Ended sheet.entry track pairs.now result.label result.end tree.new }
{
    let mut s = set_out(sheet, track, pairs, tree);
    while is_taken(pairs.owner, s.next) {
        s = pass_through(sheet, track, pairs, s, tree);
    }
    end_of(s, tree)
}

// Report `start` is vacant, as it is free or given up: it goes to the track via which it was reached, whose report is vacant next, up
// to the track that is inserted.
fn flip(sheet: Sheet, track: u32, tree: &Tree<'_>, start: u32, pairs: &mut Pairs<'_>)
    requires { Flips sheet track tree.now start pairs.old }
    ensures { SamePairs pairs.old pairs.new × Flipped sheet.entry track pairs.old pairs.new }
{
    let mut vacant = start;
    while vacant != NONE {
        let place = vacant as usize;
        let taker = tree.via[place];
        let taker_place = taker as usize;
        let next = pairs.pairing[taker_place];
        pairs.pairing[taker_place] = vacant;
        pairs.owner[place] = taker;
        vacant = next;
    }
}

// The pairing changes along the way back from a free report, or from the report of the track that is left out.
fn finish(sheet: Sheet, track: u32, tree: &Tree<'_>, end: End, pairs: &mut Pairs<'_>)
    requires { Finishable sheet track tree.now end pairs.old }
    ensures { SamePairs pairs.old pairs.new × Finished sheet.entry track pairs.old pairs.new }
{
    match end {
        End::Free(report) => flip(sheet, track, tree, report, pairs),
        End::LeftOut(leaver) => {
            if leaver == track {
                return;
            }
            let place = leaver as usize;
            let vacant = pairs.pairing[place];
            pairs.pairing[place] = NONE;
            flip(sheet, track, tree, vacant, pairs);
        }
    }
}

// One track more is paired, or left out at the full price.
pub fn insert(sheet: Sheet, track: u32, pairs: &mut Pairs<'_>, tree: &mut Tree<'_>) -> Reach
    requires { Searchable sheet track pairs.old tree.old }
    ensures { (SamePairs pairs.old pairs.new × (SameTree tree.old tree.new × SearchLists sheet.entry tree.new)) × (Inserted sheet.entry track pairs.old pairs.new × Reached sheet.entry pairs.old tree.new result.label pairs.new) }
{
    let ending = search(sheet, track, pairs, tree);
    let reach = ending.label;
    raise_discounts(&mut *tree.labels, reach, pairs.discounts);
    raise_prices(
        &mut *pairs.pairing,
        &mut *pairs.owner,
        &mut *tree.labels,
        reach,
        &mut *pairs.prices,
    );
    pairs.prices[track as usize] += reach;
    finish(sheet, track, tree, ending.end, pairs);
    Reach {
        label: reach,
        closed: ending.closed,
    }
}
