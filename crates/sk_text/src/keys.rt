// The parts of a value line.
ghost use Rattle.std.specs.Prelude.{◌≡◌};
ghost use Rattle.sk_text.specs.Keys.{parts_at_equals, lent_parts};

use memchr::memchr;

/// The parts of a line before and after its first `=`, lent from it. None exactly where there is no `=`.
pub fn split_key(body: &[u8]) -> Option<(&[u8], &[u8])>
    ensures { lent_parts result ≡ parts_at_equals body.now }
{
    match memchr(b'=', body) {
        Some(at) => Some((&body[..at], &body[at + 1..])),
        None => None,
    }
}
