// The marked examples of document 01, "Proved together, and run", as one statement over one list.
// There is no code here: the list is in specs/Marked.antt, the proof in proofs/Marked.antt.
#![tactic(auto)]
