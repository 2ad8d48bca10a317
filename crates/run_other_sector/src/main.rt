// The batch program on a report one azimuth unit past the sector's end, with 120 tracks due: refusal 7 comes first.
#![tactic(auto)]

fn main(rt: HostRuntime) {
    batchrun::run_file(&rt);
}
