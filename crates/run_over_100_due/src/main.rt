// The batch program on 120 tracks due in one sector: refusal 8, for an empty batch too.
#![tactic(auto)]

fn main(rt: HostRuntime) {
    batchrun::run_file(&rt);
}
