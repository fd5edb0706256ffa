//! Origins (RFC 6454, section 7) and Sec-Fetch-Site.
ghost use Rattle.std.specs.Prelude.{◌≡◌, option_copied};
ghost use Rattle.request_guard.specs.Doors as meant;

use crate::texts::same_letters;

fn is_origin_by(scheme: &[u8], host: &[u8], origin: &[u8]) -> bool
    ensures { result ≡ meant.is_origin_by scheme.now host.now origin.now }
{
    match origin.strip_prefix(scheme) {
        None => false,
        Some(rest) => same_letters(rest, host),
    }
}

fn is_own_origin(host: &[u8], origin: &[u8]) -> bool
    ensures { result ≡ meant.is_own_origin host.now origin.now }
{
    is_origin_by(b"http://", host, origin) || is_origin_by(b"https://", host, origin)
}

/// Whether the request has an origin that isn't its host's own.
pub(crate) fn is_of_another(host: Option<&[u8]>, origin: Option<&[u8]>) -> bool
    ensures { result ≡ meant.is_of_another (option_copied host.entry) (option_copied origin.entry) }
{
    let Some(origin) = origin else {
        return false;
    };
    match host {
        None => true,
        Some(host) => !is_own_origin(host, origin),
    }
}

/// Whether the request is told to be of another site, or of another origin of this one.
pub(crate) fn is_cross_site(site: Option<&[u8]>) -> bool
    ensures { result ≡ meant.is_cross_site (option_copied site.entry) }
{
    match site {
        None => false,
        Some(site) => !(site == b"same-origin".as_slice() || site == b"none".as_slice()),
    }
}
