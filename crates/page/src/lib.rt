//! The page by which clerks work in a browser, in 20 pieces in this order: top, style, paper,
//! middle, script_1, script_2, script_3, script_4, script_5, script_6, script_7, script_8,
//! script_9, script_10, script_11, script_12, script_13, script_14, script_15, end. Made by
//! bench/page_source.py from crates/page/page: edit that.
#![tactic(auto)]

ghost use Rattle.std.specs.Prelude.{◌≡◌, IfOk};
ghost use Rattle.page.specs.Pages.{page_text};

mod appending;
mod end;
mod kind;
mod middle;
mod paper;
mod script_1;
mod script_10;
mod script_11;
mod script_12;
mod script_13;
mod script_14;
mod script_15;
mod script_2;
mod script_3;
mod script_4;
mod script_5;
mod script_6;
mod script_7;
mod script_8;
mod script_9;
mod style;
mod top;

use appending::append_from_top;
pub use kind::{TYPE, TYPE_LINE};
use std::alloc::{AllocError, Global};

/// How many bytes the page has.
pub const LENGTH: usize = 81911;

/// The page. The one error is want of memory.
pub fn page(alloc: Global) -> Result<Vec<u8>, AllocError>
    ensures { IfOk result (λ text. text.items ≡ page_text) }
{
    let mut text = Vec::with_capacity(alloc, LENGTH)?;
    append_from_top(&mut text)?;
    Ok(text)
}
