ghost use Rattle.std.specs.Prelude.{◌≡◌, ◌<◌, ◌^◌, ◌-◌, codes, Some, None, MatchResult, length, option_map};
ghost use Rattle.definitions.specs.Cut.{segments_of, last_segment, has_id};
ghost use Rattle.definitions.specs.Words.{kind_words};
ghost use Rattle.definitions.specs.Faults.{IsFaultOf, set_fault};
ghost use Rattle.tables.specs.Judged.{EndsInSE, IsJudged, IsUnfaulted, Whole};

use crate::faults::{Progress, step};
use crate::rows::After;
use crate::stages::Stage;
use definitions::{Rules, SetKind};
use segments::{Delims, Segment, SetFault};
use std::marker::Model;

/// A set without a fault: its kind, the rules by which it was judged, and its segments from ST to
/// SE.
#[derive(Drop)]
pub struct Checked<'a> {
    kind: SetKind,
    rules: Rules,
    segments: &'a [Segment<'a>],
}

impl<'a> Model for Checked<'a> {
    ghost Value = { Whole };

    ghost view = { λ c. record {
      kind = c.kind;
      rules = c.rules;
      pieces = c.segments.now;
    } };

    ghost invariant = { λ c. IsUnfaulted (record {
      kind = c.kind;
      rules = c.rules;
      pieces = c.segments.now;
    }) };
}

impl<'a> Checked<'a> {
    /// The kind of the set.
    pub fn kind(&self) -> SetKind
        ensures { result ≡ self.now.kind }
    {
        self.kind
    }

    /// The rules by which it was judged. What has no fault by rules 1 has none by rules 2 either.
    pub fn rules(&self) -> Rules
        ensures { result ≡ self.now.rules }
    {
        self.rules
    }

    /// The segments of the set, ST first and SE last; none of them has a fault.
    pub fn segments(&self) -> &'a [Segment<'a>]
        ensures same { result.now ≡ self.now.pieces }
        ensures sound { IsUnfaulted self.now }
    {
        self.segments
    }
}

/// Whether SE stands last: what `judge` wants.
pub fn is_closed(segments: &[Segment<'_>]) -> bool
    ensures { result ≡ has_id (codes "SE") (last_segment (segments_of segments.now)) }
{
    match segments.last() {
        Some(last) => last.has_id(b"SE"),
        None => false,
    }
}

// The first fault, by these delimiters.
fn first_fault<'a>(
    delims: &Delims,
    kind: SetKind,
    segments: &'a [Segment<'a>],
    rules: Rules,
) -> Option<SetFault<'a>>
    requires { length segments.now < 2 ^ 32 - 1 }

    ensures { result
        ≡ set_fault rules delims.now (kind_words rules kind) (segments_of segments.now) }
{
    let mut progress = Progress {
        stage: Stage::begin(kind),
        after: After::Else,
    };
    for (index, segment) in segments.iter().enumerate() {
        match step(delims, kind, rules, progress, index + 1, segment) {
            Ok(next) => progress = next,
            Err(fault) => return Some(fault),
        }
    }
    None
}

// The first fault, by the delimiters that the segments have.
fn fault_of<'a>(kind: SetKind, segments: &'a [Segment<'a>], rules: Rules) -> Option<SetFault<'a>>
    requires { length segments.now < 2 ^ 32 - 1 }

    ensures { IsJudged rules kind segments.now result }
{
    match segments.first() {
        Some(first) => first_fault(&first.delims(), kind, segments, rules),
        None => None,
    }
}

/// Judges a set by the rules, whose segments were cut from one text and of which SE stands last:
/// the set where no segment has a fault, else the fault of the first segment with one. A segment
/// has a fault where it may not stand after those before it, or where an element of it is faulty.
pub fn judge<'a>(
    kind: SetKind,
    segments: &'a [Segment<'a>],
    rules: Rules,
) -> Result<Checked<'a>, SetFault<'a>>
    requires few { length segments.now < 2 ^ 32 - 1 }
    requires closed { EndsInSE segments.now }

    ensures { MatchResult result
        (λ c. (c.kind ≡ kind) × (c.pieces ≡ segments.now)
        × IsFaultOf rules kind segments.now None × (c.rules ≡ rules))
        (λ f. IsFaultOf rules kind segments.now (Some f)) }
{
    match fault_of(kind, segments, rules) {
        Some(fault) => Err(fault),
        None => Ok(Checked {
            kind,
            rules,
            segments,
        }),
    }
}
