// What holds of every made card, whatever happens to it: "A made card stays made". There is no code
// here: the predicate is in specs/Made.antt, a run of calls in specs/Run.antt, the theorems in
// proofs/.
#![tactic(auto)]
