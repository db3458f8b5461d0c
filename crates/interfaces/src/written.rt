// The written form of a value. Other files may cite definitions that name it; this one must not.
ghost use Rattle.std.specs.Prelude.{◌≡◌, ◌-◌, ◌≤◌, drop, replicate};

/// The most bytes that a written value has.
pub const WRITTEN: usize = 32;

/// The bytes that a value is written as, at most 32, with zeros behind them.
#[derive(Clone, Copy)]
pub struct Written {
    pub bytes: [u8; 32],
    pub len: usize,
    ghost fits: { len ≤ 32 },
    ghost padded: { drop len bytes ≡ replicate (32 - len) 0 },
}
