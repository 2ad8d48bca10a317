// The mathematics that several crates cite, as definitions and laws: lists that loops walk, sums, tests of each, the sizes of
// signed numbers. There is no code to run here.
#![tactic(auto)]
