// The batch program on a report with a bad field behind one of another sector: refusal 6 comes first.
#![tactic(auto)]

fn main(rt: HostRuntime) {
    batchrun::run_file(&rt);
}
