ghost use Rattle.std.specs.Prelude.{◌≡◌, ◌++◌, ℕ, List, decimal, option_map};
ghost use Rattle.sha2.specs.Hashers.{Holds256};
ghost use Rattle.definitions.specs.Rules.{rules_number};
ghost use Rattle.seals.specs.Seals as meant;
ghost use Rattle.seals.specs.Seals.{framed};

use hex::{decode_to_slice, encode_to_slice};
use itoa::Buffer;
use rules::{Entry, Rules};
use sha2::{Digest, Sha256};

/// The bytes of a seal, which are those of a SHA-256 (FIPS 180-4).
pub const SEAL_BYTES: usize = 32;

/// The digits that a seal is written in, two a byte.
pub const SEAL_DIGITS: usize = 64;

/// The seal of a register's entries, from the first on: a digest of all their bytes.
#[derive(Clone, Copy, PartialEq, Eq)]
pub struct Seal {
    digest: [u8; SEAL_BYTES],
}

// Adds a text behind its length to the message.
fn add(hasher: &mut Sha256, text: &[u8])
    ensures { (m : List ℕ) → Holds256 hasher.old m → Holds256 hasher.new (m ++ framed text.now) }
{
    let mut digits = Buffer::new();
    hasher.update(digits.format(text.len()));
    hasher.update(b":");
    hasher.update(text);
}

// Adds a number, as a text.
fn add_number(hasher: &mut Sha256, number: u32)
    ensures { (m : List ℕ) → Holds256 hasher.old m
        → Holds256 hasher.new (m ++ framed (decimal number)) }
{
    let mut digits = Buffer::new();
    add(hasher, digits.format(number).as_bytes());
}

// The number of rules.
fn number_of(rules: Rules) -> u32
    ensures { result ≡ rules_number rules }
{
    match rules {
        Rules::One => 1,
        Rules::Two => 2,
    }
}

impl Seal {
    /// The seal of a register without entries: 32 zero bytes.
    pub fn blank() -> Seal
        ensures { result.digest ≡ meant.blank_seal }
    {
        Seal {
            digest: [0; SEAL_BYTES],
        }
    }

    /// The seal that follows on this one when the entry is added: the SHA-256 (FIPS 180-4) of the
    /// bytes of this one and of all that is written down of the entry.
    pub fn after(&self, entry: &Entry) -> Seal
        ensures { result.digest ≡ meant.seal_after self.now.digest entry.now }
    {
        let who = entry.who();
        let moment = entry.moment().stamp();
        let mut hasher = Sha256::new_with_prefix(&self.digest);
        add(&mut hasher, who.text());
        add(&mut hasher, &entry.key);
        add_number(&mut hasher, entry.number());
        add(&mut hasher, &moment);
        add(&mut hasher, entry.body());
        add_number(&mut hasher, number_of(entry.rules()));
        Seal {
            digest: hasher.finalize(),
        }
    }

    /// Its text: 64 hexadecimal digits, in lower case.
    pub fn text(&self) -> [u8; SEAL_DIGITS]
        ensures { result ≡ meant.seal_text self.now.digest }
    {
        let mut text = [b'0'; SEAL_DIGITS];
        encode_to_slice(&self.digest, &mut text).unwrap();
        text
    }

    /// The seal that is written so; None where none is: a text of other bytes than digits, of
    /// digits in upper case, or of more or fewer than 64.
    pub fn read(text: &[u8]) -> Option<Seal>
        ensures { option_map (λ seal. seal.digest) result ≡ meant.seal_in text.now }
    {
        let mut digest = [0; SEAL_BYTES];
        if decode_to_slice(text, &mut digest).is_err() {
            return None;
        }
        let seal = Seal { digest };
        if seal.text().as_slice() != text {
            return None;
        }
        Some(seal)
    }
}
