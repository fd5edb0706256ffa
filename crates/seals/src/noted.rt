ghost use Rattle.std.specs.Prelude.{◌≡◌, ◌<◌, ◌^◌, ◌-◌, ◌++◌, [], IfOk};
ghost use Rattle.seals.specs.Noted as meant;

use crate::seal::Seal;
use itoa::Buffer;
use rules::Entry;
use segments::Moment;
use std::alloc::{AllocError, Global};

/// The seal of a register, or of its first entries, as it is noted: `46:` and 64 digits, and when
/// the last of these entries came in.
#[derive(Clone, Copy)]
pub struct NotedSeal {
    /// How many entries.
    pub entries: u64,
    /// Their seal.
    pub seal: Seal,
    /// The moment of the last of them; None where there are none.
    pub last: Option<Moment>,
}

impl NotedSeal {
    /// What is noted of a register without entries.
    pub fn blank() -> NotedSeal
        ensures { meant.noted result ≡ meant.noted_of [] }
    {
        NotedSeal {
            entries: 0,
            seal: Seal::blank(),
            last: None,
        }
    }

    /// What is noted when the entry was added.
    pub fn after(&self, entry: &Entry) -> NotedSeal
        requires { self.now.entries < 2 ^ 64 - 1 }

        ensures { meant.noted result ≡ meant.noted_after (meant.noted self.now) entry.now }
    {
        NotedSeal {
            entries: self.entries + 1,
            seal: self.seal.after(entry),
            last: Some(entry.moment()),
        }
    }

    /// Its text: the number of entries, a colon, and the digits of their seal.
    pub fn text(&self, alloc: Global) -> Result<Vec<u8>, AllocError>
        ensures { IfOk result (λ text. text.items ≡ meant.noted_text (meant.noted self.now)) }
    {
        let mut digits = Buffer::new();
        let mut text = digits.format(self.entries).as_bytes().to_vec(alloc)?;
        text.push(b':')?;
        text.extend_from_slice(&self.seal.text())?;
        Ok(text)
    }

    /// The line that tells it: its text, a space, the moment of the last entry as CCYYMMDDHHMM, or
    /// `-` where there is none, and LF.
    pub fn line(&self, alloc: Global) -> Result<Vec<u8>, AllocError>
        ensures { IfOk result (λ line. line.items ≡ meant.noted_line (meant.noted self.now)) }
    {
        let mut line = self.text(alloc)?;
        line.push(b' ')?;
        add_last(&mut line, self.last)?;
        line.push(b'\n')?;
        Ok(line)
    }
}

// Adds the moment of the last entry, or `-`.
fn add_last(line: &mut Vec<u8>, last: Option<Moment>) -> Result<(), AllocError>
    ensures { IfOk result (λ done. line.new.items ≡ line.old.items ++ meant.last_text last) }
{
    match last {
        Some(moment) => line.extend_from_slice(&moment.stamp())?,
        None => line.push(b'-')?,
    }
    Ok(())
}
