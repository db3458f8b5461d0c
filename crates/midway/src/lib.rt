// The theory of a query in progress. Definitions and lemmas alone.
#![tactic(auto)]
