// Lines of small texts, and a caller's loop.
ghost use Rattle.std.specs.Prelude.{◌≡◌, ◌+◌, ◌<◌, ◌^◌, ℕ, length};
ghost use Rattle.std.specs.List.{sum_by};
ghost use Rattle.sk_text.specs.Lines.{PlacedLine, lines_of};

use sk_text::{lines, split_key};
use std::test::Fail;

// A caller's loop over the lines: the number of bytes in bodies.
fn body_bytes(text: &[u8]) -> u64
    requires { sum_by (λ (p : PlacedLine). length p.line.body) (lines_of text.now) < 2 ^ 64 }
    ensures { result ≡ sum_by (λ (p : PlacedLine). length p.line.body) (lines_of text.now) }
{
    let mut total = 0u64;
    for line in lines(text) {
        total += line.body.len() as u64;
    }
    total
}

// Whether the lines of a text are these, each by its place, its body and its end.
fn has_lines(text: &[u8], wanted: &[(usize, &[u8], &[u8])]) -> bool {
    let mut found = 0usize;
    for line in lines(text) {
        match wanted.get(found) {
            Some(&(at, body, end)) => {
                if line.at != at || line.body != body || line.end != end {
                    return false;
                }
            }
            None => return false,
        }
        found = found.saturating_add(1);
    }
    found == wanted.len()
}

#[test]
fn the_empty_text_has_no_line(rt: HostRuntime) -> Result<(), Fail> {
    assert!(rt; has_lines(b"", &[]));
    Ok(())
}

#[test]
fn line_feeds_end_lines(rt: HostRuntime) -> Result<(), Fail> {
    assert!(rt;
        has_lines(
            b"ab\n\nc\n",
            &[(0, b"ab", b"\n"), (3, b"", b"\n"), (4, b"c", b"\n")]
        )
    );
    assert!(rt; has_lines(b"ab\nc", &[(0, b"ab", b"\n"), (3, b"c", b"")]));
    Ok(())
}

#[test]
fn a_carriage_return_is_of_the_end_before_a_line_feed_alone(rt: HostRuntime) -> Result<(), Fail> {
    assert!(rt;
        has_lines(
            b"a\r\n\r\n\rb",
            &[(0, b"a", b"\r\n"), (3, b"", b"\r\n"), (5, b"\rb", b"")]
        )
    );
    assert!(rt;
        has_lines(
            b"a\rb\r\r\nc\r",
            &[(0, b"a\rb\r", b"\r\n"), (6, b"c\r", b"")]
        )
    );
    Ok(())
}

#[test]
fn bodies_are_counted_by_a_loop(rt: HostRuntime) -> Result<(), Fail> {
    assert_eq!(rt; body_bytes(b"ab\r\n\ncde"), 5);
    Ok(())
}

// Whether a line has these parts.
fn has_parts(body: &[u8], key: &[u8], value: &[u8]) -> bool {
    match split_key(body) {
        Some((before, after)) => before == key && after == value,
        None => false,
    }
}

#[test]
fn the_first_equals_sign_parts_a_line(rt: HostRuntime) -> Result<(), Fail> {
    assert!(rt; has_parts(b"Param.val=3.5", b"Param.val", b"3.5"));
    assert!(rt; has_parts(b"a=b=c", b"a", b"b=c"));
    assert!(rt; has_parts(b"=", b"", b""));
    assert!(rt; split_key(b"AddGroup").is_none());
    assert!(rt; split_key(b"").is_none());
    Ok(())
}
