//! The hosts that are answered.
ghost use Rattle.std.specs.Prelude.{◌≡◌, option_copied};
ghost use Rattle.std.specs.List.{list_any};
ghost use Rattle.request_guard.specs.Doors as meant;

use crate::texts::{place_of, same_letters};
use segments::{all_digits, number};

// Whether these are 1 to `most` digits.
fn is_number_to(most: usize, text: &[u8]) -> bool
    ensures { result ≡ meant.is_number_to most text.now }
{
    !text.is_empty() && text.len() <= most && all_digits(text)
}

fn is_port_or_none(text: &[u8]) -> bool
    ensures { result ≡ meant.is_port_or_none text.now }
{
    match text.split_first() {
        None => true,
        Some((first, port)) => *first == b':' && is_number_to(5, port),
    }
}

fn is_octet(text: &[u8]) -> bool
    ensures { result ≡ meant.is_octet text.now }
{
    is_number_to(3, text) && number(text) <= 255
}

fn is_ipv4(text: &[u8]) -> bool
    ensures { result ≡ meant.is_ipv4 text.now }
{
    text.split(|b| *b == b'.').count() == 4 && text.split(|b| *b == b'.').all(|part| is_octet(part))
}

fn is_ipv6(text: &[u8]) -> bool
    ensures { result ≡ meant.is_ipv6 text.now }
{
    let is_spelled = text.iter().all(|b| {
        matches!(*b, b'0'..=b'9' | b'A'..=b'F' | b'a'..=b'f' | b':' | b'.')
    });
    is_spelled && text.contains(&b':')
}

// Whether a name is in this text, which has one, or several with a comma between any two.
fn is_in(text: &str, name: &[u8]) -> bool
    ensures { result ≡ list_any (meant.same_letters name.now) (meant.names_in text.now) }
{
    text.as_bytes()
        .split(|b| *b == b',')
        .any(|given| same_letters(name, given))
}

fn is_given(names: &[&str], name: &[u8]) -> bool
    ensures { result ≡ meant.is_given (meant.names_of names.entry) name.now }
{
    !name.is_empty() && names.iter().any(|text| is_in(text, name))
}

fn is_own_name(names: &[&str], name: &[u8]) -> bool
    ensures { result ≡ meant.is_own_name (meant.names_of names.entry) name.now }
{
    is_ipv4(name) || same_letters(name, b"localhost") || is_given(names, name)
}

fn is_named(names: &[&str], host: &[u8]) -> bool
    ensures { result ≡ meant.is_named (meant.names_of names.entry) host.now }
{
    let (name, port) = host.split_at(place_of(host, b':'));
    is_own_name(names, name) && is_port_or_none(port)
}

fn is_closed(text: &[u8]) -> bool
    ensures { result ≡ meant.is_closed text.now }
{
    match text.split_first() {
        None => false,
        Some((_, port)) => is_port_or_none(port),
    }
}

fn is_bracketed(host: &[u8]) -> bool
    ensures { result ≡ meant.is_bracketed host.now }
{
    let Some((first, text)) = host.split_first() else {
        return false;
    };
    let (address, rest) = text.split_at(place_of(text, b']'));
    *first == b'[' && is_ipv6(address) && is_closed(rest)
}

/// Whether the request was sent to a name that isn't answered. The names given are those that lead
/// here beside `localhost` and addresses in digits, which no name server can lead elsewhere.
pub(crate) fn is_misdirected(names: &[&str], host: Option<&[u8]>) -> bool
    ensures { result
        ≡ meant.is_misdirected (meant.names_of names.entry) (option_copied host.entry) }
{
    match host {
        None => false,
        Some(host) => !(is_bracketed(host) || is_named(names, host)),
    }
}
