// The pairing of any sheet, with the prices and discounts that show it best: each track claims the report of its least score, and
// one that gets none is inserted by one search.
#![tactic(auto)]

ghost use Rattle.std.specs.Prelude.{◌≡◌, length};
ghost use Rattle.engine.specs.Call.{PairsSheet};
ghost use Rattle.paths.specs.Held.{SamePairs, SameTree, SameNumbers, Shape, Good, SearchLists, ReadyAgain, Inserted};
ghost use Rattle.engine.specs.Held.{Blank, Fresh, Contest, Claimed, WorkRoom, Visit, Solved};
ghost use Rattle.engine.specs.State.{Tested, Certified};

use matching::{Fault, LEFT_OUT, NONE, Sheet};
use passes::{free_report, row_best};
use paths::{Pairs, Tree, insert};
use queue::insert_all;

// The engine itself takes this many reports, whatever the public call takes.
const WIDEST: usize = 200;

// The report has the track's least score, and goes to it from a track of lower price. Owners mirror the pairing, which is C's.
fn oust(sheet: Sheet, track: u32, report: u32, pairs: &mut Pairs<'_>)
    requires { Contest sheet track report pairs.old }
    ensures { SamePairs pairs.old pairs.new × (SameNumbers pairs.old pairs.new × Claimed sheet.entry track pairs.old pairs.new) }
{
    let place = track as usize;
    let j = report as usize;
    let loser = pairs.owner[j] as usize;
    if loser >= pairs.prices.len() || pairs.prices[loser] >= pairs.prices[place] {
        return;
    }
    pairs.pairing[loser] = NONE;
    pairs.pairing[place] = report;
    pairs.owner[j] = track;
}

// A track's price is its least score. A free report of that score is its, or one of a less exacting track.
fn claim(sheet: Sheet, track: u32, pairs: &mut Pairs<'_>)
    requires { Fresh sheet track pairs.old }
    ensures { SamePairs pairs.old pairs.new × ((pairs.new.discounts.now ≡ pairs.old.discounts.now) × Claimed sheet.entry track pairs.old pairs.new) }
{
    let place = track as usize;
    let cells = sheet.row(place);
    let Some(best) = row_best(cells) else {
        pairs.prices[place] = LEFT_OUT;
        return;
    };
    pairs.prices[place] = best.score;
    let Some(j) = free_report(cells, &mut *pairs.owner, best.score, best.report) else {
        oust(sheet, track, best.report, pairs);
        return;
    };
    pairs.pairing[place] = j as u32;
    pairs.owner[j] = track;
}

// Every track claims, one after another.
fn claim_all(sheet: Sheet, pairs: &mut Pairs<'_>)
    requires { Blank sheet (length pairs.old.prices.now) pairs.old }
    ensures { SamePairs pairs.old pairs.new × ((pairs.new.discounts.now ≡ pairs.old.discounts.now) × Good sheet.entry (length pairs.old.prices.now) pairs.new) }
{
    for track in 0..pairs.prices.len() {
        claim(sheet, track as u32, pairs);
    }
}

// A track that is paired, or left out at the full price, needs no search.
fn visit(sheet: Sheet, track: u32, pairs: &mut Pairs<'_>, tree: &mut Tree<'_>)
    requires { Visit sheet track pairs.old tree.old }
    ensures { (SamePairs pairs.old pairs.new × (SameTree tree.old tree.new × SearchLists sheet.entry tree.new)) × Inserted sheet.entry track pairs.old pairs.new }
{
    let place = track as usize;
    if pairs.pairing[place] != NONE || pairs.prices[place] >= LEFT_OUT {
        return;
    }
    insert(sheet, track, pairs, tree);
}

// No track is paired, and every price and discount is 0.
fn clear(sheet: Sheet, pairs: &mut Pairs<'_>)
    requires { Shape sheet (length pairs.old.prices.now) pairs.old }
    ensures { SamePairs pairs.old pairs.new × Blank sheet.entry (length pairs.old.prices.now) pairs.new }
{
    pairs.pairing.fill(NONE);
    pairs.owner.fill(NONE);
    pairs.prices.fill(0);
    pairs.discounts.fill(0);
}

// The claims, and the insertion of those that got nothing.
fn match_all(sheet: Sheet, pairs: &mut Pairs<'_>, tree: &mut Tree<'_>, slack: &mut [u32])
    requires { WorkRoom sheet pairs.old tree.old slack.old }
    ensures { ReadyAgain sheet.entry pairs.old tree.old pairs.new tree.new }
{
    clear(sheet, pairs);
    claim_all(sheet, pairs);
    insert_all(sheet, pairs, tree, slack);
}

// The whole answer, in working lists that are lent.
fn assign(sheet: Sheet, pairs: &mut Pairs<'_>, tree: &mut Tree<'_>, slack: &mut [u32])
    requires { WorkRoom sheet pairs.old tree.old slack.old }
    ensures { (SamePairs pairs.old pairs.new × SameTree tree.old tree.new) × Solved sheet.entry (length pairs.old.prices.now) pairs.new }
{
    match_all(sheet, pairs, tree, slack);
    // By now each track has a report or is left out: this walk shows it.
    for track in 0..pairs.prices.len() {
        visit(sheet, track as u32, pairs, tree);
    }
}

// The engine on a sheet whose cells were tested, up to WIDEST reports wide; its working lists are its own, the others in C's order.
pub fn pair_cells(
    sheet: &[u32],
    reports: usize,
    pairing: &mut [u32],
    prices: &mut [u32],
    discounts: &mut [u32],
)
    requires { Tested sheet.now reports pairing.old prices.old discounts.old }
    ensures { Certified sheet.now reports (length prices.old) pairing.new prices.new discounts.new }
{
    let mut owner = [0u32; WIDEST];
    let mut labels = [0u32; WIDEST];
    let mut via = [0u32; WIDEST];
    let mut closings = [0u32; WIDEST];
    let mut slack = [0u32; WIDEST];
    let mut pairs = Pairs {
        pairing,
        owner: &mut owner[..reports],
        prices,
        discounts,
    };
    let mut tree = Tree {
        labels: &mut labels[..reports],
        via: &mut via[..reports],
        closings: &mut closings[..reports],
    };
    let sheet = Sheet {
        cells: sheet,
        reports,
    };
    assign(sheet, &mut pairs, &mut tree, &mut slack[..reports]);
}

// The public call: refused by 21 or 22, and then nothing is written; else the lists' first entries are written, and no more.
#[tactic(auto, using(crate::proofs::Serve::refuses))]
pub fn pair_sheet(
    tracks: usize,
    reports: usize,
    sheet: &[u32],
    pairing: &mut [u32],
    prices: &mut [u32],
    discounts: &mut [u32],
) -> Result<(), Fault>
    ensures { PairsSheet tracks reports sheet.now pairing.old prices.old discounts.old pairing.new prices.new discounts.new result }
{
    matching::sheet_refusal(
        tracks,
        reports,
        sheet,
        pairing.len(),
        prices.len(),
        discounts.len(),
    )?;
    pair_cells(
        &sheet[..tracks * reports],
        reports,
        &mut pairing[..tracks],
        &mut prices[..tracks],
        &mut discounts[..reports],
    );
    Ok(())
}
