// The theory of pasts: what each call since the making came to, and what that leaves. Each function carries a
// theorem as its contract, and returns 0.
#![tactic(auto)]

ghost use Rattle.past.specs.Theorems.{SomeOutcome, OneOutcome, AlikeOnEveryPath, AlikeOnTheWay, GoesOn, GoesOnOneWay, PlacingAgrees, OneCause, DoubtIsDecidable, UndoubtedIsUpToDate, FittingIsRight, ReportIsShort, ChainLeadsToFault, LayerByNumber};
ghost use Rattle.past.specs.Sample.{SampleIsLawful, FinerSampleIsLawful, RefusalSampleIsLawful};

use interfaces::Value;

/// Working out afresh comes to an outcome.
pub fn some_outcome<V: Value>() -> u8
    ensures { SomeOutcome V }
{
    0
}

/// Working out afresh comes to no two outcomes, and has one log.
pub fn one_outcome<V: Value>() -> u8
    ensures { OneOutcome V }
{
    0
}

/// A cell that finishes on one path finishes alike on every path that holds no cell of its log.
pub fn alike_on_every_path<V: Value>() -> u8
    ensures { AlikeOnEveryPath V }
{
    0
}

/// A cell that finishes on the empty path finishes alike on every path that leads to it.
pub fn alike_on_the_way<V: Value>() -> u8
    ensures { AlikeOnTheWay V }
{
    0
}

/// After a lawful past, something comes rightly of every request.
pub fn goes_on<V: Value>() -> u8
    ensures { GoesOn V }
{
    0
}

/// After a past, no two things come rightly of one request.
pub fn goes_on_one_way<V: Value>() -> u8
    ensures { GoesOnOneWay V }
{
    0
}

/// Placing a text refuses and accepts as the table of refusals does.
pub fn placing_agrees<V: Value>() -> u8
    ensures { PlacingAgrees V }
{
    0
}

/// A cell in doubt has one cause.
pub fn one_cause<V: Value>() -> u8
    ensures { OneCause V }
{
    0
}

/// A defined cell is in doubt or not.
pub fn doubt_is_decidable<V: Value>() -> u8
    ensures { DoubtIsDecidable V }
{
    0
}

/// A defined cell that is not in doubt has the value that working out afresh gives.
pub fn undoubted_is_up_to_date<V: Value>() -> u8
    ensures { UndoubtedIsUpToDate V }
{
    0
}

/// A kept trace that fits is what working out afresh finds.
pub fn fitting_is_right<V: Value>() -> u8
    ensures { FittingIsRight V }
{
    0
}

/// A report has no more runs than there are cells.
pub fn report_is_short<V: Value>() -> u8
    ensures { ReportIsShort V }
{
    0
}

/// The chain of a fault goes from the queried cell to the cell of the fault, and has no more cells than there are.
pub fn chain_leads_to_fault<V: Value>() -> u8
    ensures { ChainLeadsToFault V }
{
    0
}

/// A fault is of the engine exactly if its number is 16 or 17.
pub fn layer_by_number<V: Value>() -> u8
    ensures { LayerByNumber V }
{
    0
}

/// The sample past, with its answers, reports and refusal, came rightly.
pub fn sample_is_lawful() -> u8
    ensures { SampleIsLawful }
{
    0
}

/// So did the second past, which shows the finer rules of touches, causes, runs and faults.
pub fn finer_sample_is_lawful() -> u8
    ensures { FinerSampleIsLawful }
{
    0
}

/// And the third past, in which each cause of a refusal comes up.
pub fn refusal_sample_is_lawful() -> u8
    ensures { RefusalSampleIsLawful }
{
    0
}
