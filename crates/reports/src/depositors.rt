//! Who is enrolled.
ghost use Rattle.std.specs.Prelude.{◌≡◌, ◌++◌, IfOk, OnOk};
ghost use Rattle.definitions.specs.Header.{who_text};
ghost use Rattle.definitions.specs.Reports.{ended};
ghost use Rattle.reports.specs.Open as meant;

use std::alloc::{AllocError, Global};
use store::Who;

// Appends the line of a depositor.
fn append_who(out: &mut Vec<u8>, who: &Who) -> Result<(), AllocError>
    ensures { OnOk result (out.new.items ≡ out.old.items ++ ended (who_text who.now)) }
{
    out.extend_from_slice(who.text())?;
    out.push(b'\n')?;
    Ok(())
}

/// The list of these depositors, in the order given: `QQ-ID`, qualifier and id, and LF for each;
/// nothing where there are none. The one error is want of memory.
pub fn depositor_list(alloc: Global, whos: &[Who]) -> Result<Vec<u8>, AllocError>
    ensures { IfOk result (λ text. text.items ≡ meant.depositor_list whos.now) }
{
    let mut text = Vec::new(alloc);
    for who in whos {
        append_who(&mut text, who)?;
    }
    Ok(text)
}
