ghost use Rattle.std.specs.Prelude.{◌≡◌, ◌++◌, ℕ, List, [], ◌∷◌, IfOk, if◌then◌else◌};
ghost use Rattle.definitions.specs.Need as meant;

use definitions::CONTROL_DIGITS;
use segments::{all_digits, number};
use sets_in::Goods;
use std::alloc::{AllocError, Global};
use std::marker::Model;

/// A name that a command says: an item, the shipment number of an advice or the number of an order,
/// by its bytes.
#[derive(Drop)]
pub struct Name {
    bytes: Vec<u8>,
}

impl Model for Name {
    ghost Value = { List ℕ };

    ghost view = { λ n. n.bytes.items };
}

impl Name {
    /// The name with these bytes; want of memory is the one error.
    pub fn of(alloc: Global, bytes: &[u8]) -> Result<Name, AllocError>
        ensures { IfOk result (λ name. name ≡ bytes.now) }
    {
        Ok(Name {
            bytes: bytes.to_vec(alloc)?,
        })
    }

    /// Its bytes.
    pub fn bytes(&self) -> &[u8]
        ensures { result.now ≡ self.now }
    {
        &self.bytes
    }
}

/// What is named of a depositor's page: items, shipment numbers of advices, numbers of orders and
/// numbers of documents, as often as they are named.
#[derive(Drop)]
pub struct Need {
    /// Items, whose lots are needed.
    pub items: Vec<Name>,
    /// Shipment numbers of advices.
    pub shipments: Vec<Name>,
    /// Numbers of orders.
    pub orders: Vec<Name>,
    /// Numbers of documents, each below 1,000,000,000.
    pub documents: Vec<u32>,
}

impl Model for Need {
    ghost Value = { meant.Need };

    ghost view = { λ n. record {
      items = n.items.items;
      shipments = n.shipments.items;
      orders = n.orders.items;
      documents = n.documents.items;
    } };
}

impl Need {
    /// Nothing but the number of entries.
    pub fn nothing(alloc: Global) -> Need
        ensures { result ≡ meant.nothing }
    {
        Need {
            items: Vec::new(alloc),
            shipments: Vec::new(alloc),
            orders: Vec::new(alloc),
            documents: Vec::new(alloc),
        }
    }

    /// An order alone, as a picking sheet needs it; want of memory is the one error.
    pub fn order(alloc: Global, number: &[u8]) -> Result<Need, AllocError>
        ensures { IfOk result (λ need. need ≡ meant.need_of_number number.now) }
    {
        let mut need = Need::nothing(alloc);
        need.orders.push(Name::of(alloc, number)?)?;
        Ok(need)
    }
}

// Puts a text after the names, where it is one.
pub(crate) fn add_if(
    alloc: Global,
    names: &mut Vec<Name>,
    named: bool,
    text: &[u8],
) -> Result<(), AllocError>
    ensures { IfOk result
        (λ done. names.new.items ≡ names.old.items ++ (if named then text.now ∷ [] else [])) }
{
    if named {
        names.push(Name::of(alloc, text)?)?;
    }
    Ok(())
}

// Puts the number of a document after the numbers, where a text is one: digits, and at most nine.
pub(crate) fn add_number(numbers: &mut Vec<u32>, named: bool, text: &[u8]) -> Result<(), AllocError>
    ensures { IfOk result
        (λ done. numbers.new.items ≡ numbers.old.items
        ++ (if named then meant.number_in text.now else [])) }
{
    if named && !text.is_empty() && all_digits(text) && text.len() <= CONTROL_DIGITS {
        numbers.push(number(text))?;
    }
    Ok(())
}

// The items of lines.
pub(crate) fn items_of(alloc: Global, lines: &[Goods]) -> Result<Vec<Name>, AllocError>
    ensures { IfOk result (λ items. items.items ≡ meant.items_of lines.now) }
{
    let mut items = Vec::new(alloc);
    for line in lines {
        items.push(Name::of(alloc, &line.item)?)?;
    }
    Ok(items)
}
