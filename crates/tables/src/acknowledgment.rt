ghost use Rattle.std.specs.Prelude.{◌≡◌, option_map};
ghost use Rattle.definitions.specs.Words.{words_after};
ghost use Rattle.definitions.specs.Faults.{wanted_id};
ghost use Rattle.tables.specs.Ids.{text_of};
ghost use Rattle.tables.specs.Languages.{found};
ghost use Rattle.tables.specs.Acknowledgment.{rest_of};

use crate::ids::Id;
use definitions::{MOST_TOLD_ELEMENTS, MOST_TOLD_SEGMENTS, MOST_TOLD_SETS};

/// How far a 997 has come.
#[derive(Clone, Copy)]
pub(crate) enum Stage {
    Begin,
    Head,
    // with how many more AK2, AK3 and AK4 may come
    Sets(u16),
    // after AK2, and after an AK3 or AK4
    Segments(u16, u8),
    Elements(u16, u8, u8),
    Total,
    End,
}

impl Stage {
    /// The stage after one more segment; None where that may not stand there.
    pub(crate) fn next(self, id: Id) -> Option<Stage>
        ensures { option_map rest_of result ≡ found (words_after (text_of id) (rest_of self)) }
    {
        match self {
            Stage::Begin => after_begin(id),
            Stage::Head => after_head(id),
            Stage::Sets(sets) => after_set(sets, id),
            Stage::Segments(sets, segments) => after_segment(sets, segments, id),
            Stage::Elements(sets, segments, elements) => after_element(
                sets, segments, elements, id,
            ),
            Stage::Total => after_total(id),
            Stage::End => None,
        }
    }

    /// The id that the set wants first, on the shortest way to its end; empty at the end.
    pub(crate) fn wanted(self) -> &'static [u8]
        ensures { result.now ≡ wanted_id (rest_of self) }
    {
        match self {
            Stage::Begin => b"ST",
            Stage::Head => b"AK1",
            Stage::Sets(_) => b"AK9",
            Stage::Segments(_, _) | Stage::Elements(_, _, _) => b"AK5",
            Stage::Total => b"SE",
            Stage::End => b"",
        }
    }
}

fn after_begin(id: Id) -> Option<Stage>
    ensures { option_map rest_of result ≡ found (words_after (text_of id) (rest_of Stage.Begin)) }
{
    match id {
        Id::St => Some(Stage::Head),
        _ => None,
    }
}

fn after_head(id: Id) -> Option<Stage>
    ensures { option_map rest_of result ≡ found (words_after (text_of id) (rest_of Stage.Head)) }
{
    match id {
        Id::Ak1 => Some(Stage::Sets(MOST_TOLD_SETS)),
        _ => None,
    }
}

fn after_set(sets: u16, id: Id) -> Option<Stage>
    ensures { option_map rest_of result ≡ found (words_after (text_of id)
        (rest_of (Stage.Sets sets))) }
{
    match id {
        Id::Ak2 if sets > 0 => Some(Stage::Segments(sets - 1, MOST_TOLD_SEGMENTS)),
        Id::Ak9 => Some(Stage::Total),
        _ => None,
    }
}

fn after_segment(sets: u16, segments: u8, id: Id) -> Option<Stage>
    ensures { option_map rest_of result
        ≡ found (words_after (text_of id) (rest_of (Stage.Segments sets segments))) }
{
    match id {
        Id::Ak3 if segments > 0 => Some(Stage::Elements(sets, segments - 1, MOST_TOLD_ELEMENTS)),
        Id::Ak5 => Some(Stage::Sets(sets)),
        _ => None,
    }
}

fn after_element(sets: u16, segments: u8, elements: u8, id: Id) -> Option<Stage>
    ensures { option_map rest_of result
        ≡ found (words_after (text_of id) (rest_of (Stage.Elements sets segments elements))) }
{
    match id {
        Id::Ak4 if elements > 0 => Some(Stage::Elements(sets, segments, elements - 1)),
        _ => after_segment(sets, segments, id),
    }
}

fn after_total(id: Id) -> Option<Stage>
    ensures { option_map rest_of result ≡ found (words_after (text_of id) (rest_of Stage.Total)) }
{
    match id {
        Id::Se => Some(Stage::End),
        _ => None,
    }
}
