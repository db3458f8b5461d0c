// Rebuilders: what is remembered of the runs of every cell, over memory that the caller lends.
// Three have names; traces of any other depth are to be had in the same way.
#![tactic(auto)]

ghost use Rattle.std.specs.Prelude.{◌≡◌, [], ◌∷◌};

pub mod dirty;
pub mod traces;

pub use dirty::DirtyBits;
use interfaces::rebuilder::Rebuilder;
use interfaces::value::Value;
pub use traces::Traces;

/// One trace for each cell.
pub type VerifyingTraces<'a, V> = Traces<'a, V, 1>;

/// Four traces for each cell.
pub type ConstructiveTraces<'a, V> = Traces<'a, V, 4>;

/// How many traces the named rebuilders keep of each cell: dirty bits, verifying and constructive traces.
pub fn depths<'a, V: Value + 'a>() -> [usize; 3]
    ensures { result ≡ 0 ∷ 1 ∷ 4 ∷ [] }
{
    [
        <DirtyBits as Rebuilder<V>>::depth_of(),
        <VerifyingTraces<'a, V> as Rebuilder<V>>::depth_of(),
        <ConstructiveTraces<'a, V> as Rebuilder<V>>::depth_of(),
    ]
}
