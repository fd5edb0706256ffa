//! Copies of lines, for what a page keeps of an advice and an order.
ghost use Rattle.std.specs.Prelude.{◌≡◌, ◌++◌, IfOk, filter, map, nat_lt};
ghost use Rattle.definitions.specs.Page.{page_line, reserved_lines};

use page_rows::{KnownLine, in_order};
use sets_in::{AdviceLine, Goods, OrderLine};
use std::alloc::{AllocError, Global};

// A copy of a line.
fn copied(line: &Goods) -> Result<Goods, AllocError>
    ensures { IfOk result (λ copy. copy ≡ line.now) }
{
    line.clone()
}

// A copy of the lines.
fn copied_lines(alloc: Global, lines: &[Goods]) -> Result<Vec<Goods>, AllocError>
    ensures { IfOk result (λ copy. copy.items ≡ lines.now) }
{
    let mut copy = Vec::new(alloc);
    for line in lines {
        copy.push(copied(line)?)?;
    }
    Ok(copy)
}

/// Copies of lines, and of others after them. Want of memory is the one error.
pub fn joined(alloc: Global, lines: &[Goods], others: &[Goods]) -> Result<Vec<Goods>, AllocError>
    ensures { IfOk result (λ joined. joined.items ≡ lines.now ++ others.now) }
{
    let mut joined = copied_lines(alloc, lines)?;
    joined.append(&mut copied_lines(alloc, others)?)?;
    Ok(joined)
}

// What the lines of an advice advise.
pub(crate) fn advised(alloc: Global, lines: &[AdviceLine]) -> Result<Vec<Goods>, AllocError>
    ensures { IfOk result (λ copy. copy.items ≡ map (λ l. l.line) lines.now) }
{
    let mut copy = Vec::new(alloc);
    for line in lines {
        copy.push(copied(&line.line)?)?;
    }
    Ok(copy)
}

// A line of an order as a page has it.
fn known_line(alloc: Global, line: &OrderLine) -> Result<KnownLine, AllocError>
    ensures { IfOk result (λ known. known ≡ page_line line.now) }
{
    let item = line.item.to_vec(alloc)?;
    let pin = match &line.pin {
        Some(lot) => Some(lot.to_vec(alloc)?),
        None => None,
    };
    Ok(KnownLine {
        item,
        pin,
        quantity: line.quantity,
    })
}

// The lines of an order as a page has them.
pub(crate) fn known_lines(alloc: Global, lines: &[OrderLine]) -> Result<Vec<KnownLine>, AllocError>
    ensures { IfOk result (λ known. known.items ≡ map page_line lines.now) }
{
    let mut known = Vec::new(alloc);
    for line in lines {
        known.push(known_line(alloc, line)?)?;
    }
    Ok(known)
}

// Copies of the shares above 0.
fn copied_shares(alloc: Global, shares: &[Goods]) -> Result<Vec<Goods>, AllocError>
    ensures { IfOk result (λ copy. copy.items ≡ filter (λ l. nat_lt 0 l.quantity) shares.now) }
{
    let mut copy = Vec::new(alloc);
    for share in shares {
        if share.quantity > 0 {
            copy.push(copied(share)?)?;
        }
    }
    Ok(copy)
}

// The shares above 0, by item and lot, each pair once.
pub(crate) fn reserved(alloc: Global, shares: &[Goods]) -> Result<Vec<Goods>, AllocError>
    ensures { IfOk result (λ lines. lines.items ≡ reserved_lines shares.now) }
{
    in_order(copied_shares(alloc, shares)?)
}
