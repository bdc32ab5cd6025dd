// The checked points of the scope, and its example of the map program: laws only, proofs/Points.antt and proofs/Example.antt.
#![tactic(auto)]
