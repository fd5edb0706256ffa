ghost use Rattle.std.specs.Prelude.{◌≡◌, ◌≤◌, length, map, option_copied, option_map};
ghost use Rattle.definitions.specs.Limits.{most_bytes};
ghost use Rattle.definitions.specs.Cut.{AreOf, element, segments_of};
ghost use Rattle.definitions.specs.Structure.{head_of};
ghost use Rattle.envelope.specs.Parts as held;

use segments::{Delims, Segment};
use std::marker::Model;

/// A set: ST, what stands after it, and SE if it is closed. A set that is not closed ends before
/// the next ST, GE, GS or IEA.
#[derive(Drop)]
pub struct Set<'a> {
    delims: Delims,
    segments: Vec<Segment<'a>>,
    is_closed: bool,
}

impl<'a> Model for Set<'a> {
    ghost Value = { held.SetOf };

    ghost view = { λ s. record {
      delims = s.delims;
      set = record { segments = segments_of s.segments.items; is_closed = s.is_closed };
    } };

    ghost invariant = { λ s. held.AreKept s.delims s.segments.items s.is_closed };
}

/// A functional group: GS, its sets, and GE if there is one.
#[derive(Drop)]
pub struct Group<'a> {
    head: Segment<'a>,
    sets: Vec<Set<'a>>,
    tail: Option<Segment<'a>>,
}

impl<'a> Model for Group<'a> {
    ghost Value = { held.GroupOf };

    ghost view = { λ g. record {
      delims = g.head.delims;
      group = record {
        head = g.head.elements;
        sets = map (λ s. s.set) g.sets.items;
        tail = option_map (λ p. p.elements) g.tail;
      };
    } };

    ghost invariant = { λ g. held.AreHeld g.head.delims g.sets.items g.tail };
}

/// The groups between ISA and IEA.
#[derive(Drop)]
pub struct Interchange<'a> {
    delims: Delims,
    groups: Vec<Group<'a>>,
}

impl<'a> Model for Interchange<'a> {
    ghost Value = { held.GroupsOf };

    ghost view = { λ i. record { delims = i.delims; groups = map (λ g. g.group) i.groups.items } };

    ghost invariant = { λ i. i.groups.items
        ≡ map (held.group_under i.delims) (map (λ g. g.group) i.groups.items) };
}

impl<'a> Set<'a> {
    // A set of these segments.
    pub(crate) fn new(delims: Delims, segments: Vec<Segment<'a>>, is_closed: bool) -> Set<'a>
        requires { held.AreKept delims segments.items is_closed }

        ensures { result ≡ record {
          delims = delims;
          set = record { segments = segments_of segments.entry.items; is_closed = is_closed };
        } }
    {
        Set {
            delims,
            segments,
            is_closed,
        }
    }

    /// Its segments: ST first and, if it is closed, SE last. All have the delimiters of the
    /// interchange, and they are no more than an interchange has bytes.
    pub fn segments(&self) -> &[Segment<'a>]
        ensures elements { segments_of result.now ≡ self.now.set.segments }
        ensures same { AreOf self.now.delims result.now }
        ensures framed { held.IsFramed self.now.set }
        ensures few { length result.now ≤ most_bytes }
    {
        &self.segments
    }

    /// An element of its ST; nothing where it has none.
    pub fn head_element(&self, n: usize) -> &'a [u8]
        ensures { result.now ≡ element (head_of self.now.set) n }
    {
        match self.segments().first() {
            Some(first) => first.element(n),
            None => &[],
        }
    }

    /// Whether SE stands last.
    pub fn is_closed(&self) -> bool
        ensures { result ≡ self.now.set.is_closed }
    {
        self.is_closed
    }
}

impl<'a> Group<'a> {
    // A group of these.
    pub(crate) fn new(head: Segment<'a>, sets: Vec<Set<'a>>, tail: Option<Segment<'a>>) -> Group<'a>
        requires { held.AreHeld head.delims sets.items tail }

        ensures { result ≡ record {
          delims = head.entry.delims;
          group = record {
            head = head.entry.elements;
            sets = map (λ s. s.set) sets.entry.items;
            tail = option_map (λ p. p.elements) tail.entry;
          };
        } }
    {
        Group { head, sets, tail }
    }

    /// GS.
    pub fn head(&self) -> &Segment<'a>
        ensures { result.now ≡ held.piece self.now.delims self.now.group.head }
    {
        &self.head
    }

    /// Its sets, in their order.
    pub fn sets(&self) -> &[Set<'a>]
        ensures { result.now ≡ map (held.set_under self.now.delims) self.now.group.sets }
    {
        &self.sets
    }

    /// GE, if there is one.
    pub fn tail(&self) -> Option<&Segment<'a>>
        ensures { option_copied result ≡ option_map (held.piece self.now.delims)
            self.now.group.tail }
    {
        self.tail.as_ref()
    }
}

impl<'a> Interchange<'a> {
    // An interchange of these groups.
    pub(crate) fn new(delims: Delims, groups: Vec<Group<'a>>) -> Interchange<'a>
        requires { groups.items ≡ map (held.group_under delims) (map (λ g. g.group) groups.items) }

        ensures { result ≡ record {
          delims = delims;
          groups = map (λ g. g.group) groups.entry.items;
        } }
    {
        Interchange { delims, groups }
    }

    /// Its groups, in their order.
    pub fn groups(&self) -> &[Group<'a>]
        ensures { result.now ≡ map (held.group_under self.now.delims) self.now.groups }
    {
        &self.groups
    }
}
