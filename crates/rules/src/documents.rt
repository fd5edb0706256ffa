//! The documents of a clerk's acts, from what a depositor's page tells: receipts, shipments and
//! adjustments.

mod adjustments;
mod receipts;
mod shipments;
mod written;

pub(crate) use adjustments::adjustment;
pub(crate) use receipts::receipt;
pub(crate) use shipments::shipment;
