// What a workbook shows after a past. Definitions alone.
#![tactic(auto)]
