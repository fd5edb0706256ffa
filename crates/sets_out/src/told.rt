ghost use Rattle.definitions.specs.History.{Rejection as MeantRejection};
ghost use Rattle.definitions.specs.Texts.{ToldSet as MeantSet, Told as Meant};

use segments::SetFault;
use std::marker::Model;

/// Why a set is rejected.
#[derive(Drop)]
pub struct Rejection<'a> {
    /// AK502.
    pub code: u8,
    /// The segment in error, where the code is 5.
    pub segment: Option<SetFault<'a>>,
}

impl<'a> Model for Rejection<'a> {
    ghost Value = { MeantRejection };

    ghost view = { λ r. record { code = r.code; segment = r.segment } };
}

/// What a 997 tells of a set.
#[derive(Drop)]
pub struct ToldSet<'a> {
    /// Its kind, as its ST01 says it: AK201.
    pub number: &'a [u8],
    /// Its control number, ST02: AK202.
    pub control: &'a [u8],
    /// Why it is rejected, if it is.
    pub rejection: Option<Rejection<'a>>,
}

impl<'a> Model for ToldSet<'a> {
    ghost Value = { MeantSet };

    ghost view = { λ s. record {
      number = s.number.now;
      control = s.control.now;
      rejection = s.rejection;
    } };
}

/// What a 997 tells of a group.
#[derive(Drop)]
pub struct ToldGroup<'a> {
    /// GS01: AK101.
    pub function: &'a [u8],
    /// GS06: AK102.
    pub number: &'a [u8],
    /// The sets that GE01 states, or those received where there is no GE: AK902.
    pub stated: u32,
    /// The sets that were received: AK903.
    pub received: usize,
    /// The group's own fault, if it has one: AK905.
    pub fault: Option<u8>,
    /// The sets; none where the group has a fault.
    pub sets: Vec<ToldSet<'a>>,
}

impl<'a> Model for ToldGroup<'a> {
    ghost Value = { Meant };

    ghost view = { λ t. record {
      function = t.function.now;
      number = t.number.now;
      stated = t.stated;
      received = t.received;
      fault = t.fault;
      sets = t.sets.items;
    } };
}
