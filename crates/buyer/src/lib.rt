// A store and a language as an engineer would bring them: a panel's calibration values, of which the last were set
// at the factory, and definitions that fall back on them. docs/BRING_YOUR_OWN.md says what each had to prove.
#![tactic(auto)]

pub mod language;
pub mod store;

pub use language::Fallbacks;
pub use store::PanelStore;
