// Reads the lines of a script.
ghost use Rattle.std.specs.Prelude.{◌≡◌, ℕ, ◌<◌, ◌≤◌, List, ◌++◌, length, codes, MatchOption, MatchResult, ◌≢◌};
ghost use Rattle.interfaces.specs.Cells.{cell_count};
ghost use Rattle.interfaces.specs.Refusals.{said, no};
ghost use Rattle.names.specs.Names.{name_of};
ghost use Rattle.script.specs.Lines.{depth_name, Opens, sets, ReadAs, Unread, asked};
ghost use Rattle.script.specs.declared.lines.Kind.{Kind as NamedKind};
ghost use Rattle.script.specs.declared.lines.Depth.{Depth as NamedDepth};

use crate::lines::{Depth, Kind, LINE, Line, Opening};
use interfaces::refusal::Refusal;
use names::{name_at, read_name};

// The depth of this name.
fn read_depth(name: &[u8]) -> Result<Depth, Refusal>
    ensures { MatchResult result (λ d. name.now ≡ depth_name d) (λ e. (said e ≡ no 20) × ((d : NamedDepth) → name.now ≢ depth_name d)) }
{
    match name {
        [b'0'] => Ok(Depth::Zero),
        [b'1'] => Ok(Depth::One),
        [b'4'] => Ok(Depth::Four),
        _ => Err(Refusal::BadFirstLine),
    }
}

/// A first line: the kind and the depth that it names, or 20.
pub fn read_opening(line: &[u8]) -> Result<Opening, Refusal>
    ensures { MatchResult result (λ o. Opens line.now o.kind o.depth) (λ e. (said e ≡ no 20) × ((k : NamedKind) (d : NamedDepth) → Opens line.now k d → ⊥)) }
{
    let (kind, name) = if let Some(name) = line.strip_prefix(b"sheet ") {
        (Kind::Sheet, name)
    } else if let Some(name) = line.strip_prefix(b"text ") {
        (Kind::Text, name)
    } else {
        return Err(Refusal::BadFirstLine);
    };
    let depth = read_depth(name)?;
    Ok(Opening { kind, depth })
}

// The cell and the value behind `set `.
fn read_set(rest: &[u8]) -> Option<Line<'_>>
    ensures { MatchOption result ((c : ℕ) (value : List ℕ) → c < cell_count → rest.now ≢ name_of c ++ (codes " " ++ value)) (λ l. (c : ℕ) × (value : List ℕ) × (c < cell_count) × (rest.now ≡ name_of c ++ (codes " " ++ value)) × (asked l ≡ sets c value)) }
{
    let (cell, next) = name_at(rest, 0)?;
    let value = rest[next..].strip_prefix(b" ")?;
    Some(Line::Set(cell, value))
}

/// Any other line: what it asks for, or 18 or 19.
pub fn read_line(line: &[u8]) -> Result<Line<'_>, Refusal>
    ensures { MatchResult result (λ l. ReadAs line.now (asked l)) (λ e. Unread line.now (said e)) }
{
    if line.len() > LINE {
        return Err(Refusal::LineTooLong);
    }
    if let Some(rest) = line.strip_prefix(b"set ") {
        return read_set(rest).ok_or(Refusal::UnknownLine);
    }
    if let Some(rest) = line.strip_prefix(b"get ") {
        let cell = read_name(rest).ok_or(Refusal::UnknownLine)?;
        return Ok(Line::Get(cell));
    }
    Err(Refusal::UnknownLine)
}
