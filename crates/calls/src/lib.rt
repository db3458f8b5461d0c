// What each call does to a workbook, in terms of what it shows. Theory alone: the lemmas stand in proofs/.
#![tactic(auto)]
