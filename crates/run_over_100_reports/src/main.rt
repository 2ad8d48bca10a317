// The batch program on 101 reports in one batch, one of them with a bad field: refusal 5 comes first.
#![tactic(auto)]

fn main(rt: HostRuntime) {
    batchrun::run_file(&rt);
}
