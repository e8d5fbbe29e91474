ghost use Rattle.std.specs.Prelude.{◌≡◌, ◌+◌, ℕ, IfSome, option_and_then};
ghost use Rattle.sk_num.specs.Scale.{IsScale};
ghost use Rattle.sk_num.specs.Enclosed.{Triple, triple_sub, triple_mul};

use sk_num::{
    Grid, Items, Kernel, Mat, NumFault, Span, SpanMat, Text, handle_text, quantity_text, rdiv,
    read_handle, read_quantity, read_whole, rmul, root,
};
use std::process::Abort;
use std::test::Fail;

type Number = Grid<36>;

/// The square of a difference, over any kernel: proved from the kernel's laws alone.
fn squared_gap<const S: u32, K: Kernel<S>>(a: &K, b: &K) -> Option<K>
    requires { IsScale S }
    ensures value { result ≡ option_and_then (λ d. K.product_of d d) (K.difference_of a.now b.now) }
    ensures encloses { IfSome result (λ c. (m k : ℕ) (t u : Triple) →
        K.encloses m k a.now t → K.encloses m k b.now u →
        K.encloses (m + m) (m + k) c (triple_mul (triple_sub t u) (triple_sub t u))) }
{
    let gap = a.sub(b)?;
    gap.mul(&gap)
}

fn span(rt: &impl Abort, lo: i64, hi: i64) -> Span<36> {
    let lo = Number::from_units(lo).expect(rt, "in the limit");
    let hi = Number::from_units(hi).expect(rt, "in the limit");
    assert!(rt; lo <= hi);
    Span::new(lo, hi)
}

#[test]
#[tactic(auto, using(sk_num::specs::Scale::scale_facts))]
fn spans_round_outward(rt: HostRuntime) {
    // [1, 2] and [-3, -1] units: products of -6 to -1 units of 2^-72, less than one unit
    let (a, b) = (span(&rt, 1, 2), span(&rt, -3, -1));
    let product = a.mul(&b).expect(&rt, "small");
    assert_eq!(rt; product, span(&rt, -1, 0));
    assert_eq!(rt; a.sub(&b).expect(&rt, "small"), span(&rt, 2, 5));
    assert_eq!(rt; b.mid().units(), -2);
    assert_eq!(rt; span(&rt, -1, 0).mid().units(), -1);
    // (2 - 5)^2 = 9 exactly
    let (two, five) = (span(&rt, 2 << 36, 2 << 36), span(&rt, 5 << 36, 5 << 36));
    let nine = squared_gap::<36, Span<36>>(&two, &five).expect(&rt, "small");
    assert_eq!(rt; nine, span(&rt, 9 << 36, 9 << 36));
    let limit = span(&rt, 1 << 62, 1 << 62);
    assert_eq!(rt; limit.add(&span(&rt, 0, 1)), None);
}

#[test]
#[tactic(auto, using(sk_num::specs::Scale::scale_facts))]
fn halves_round_away_from_zero(rt: HostRuntime) {
    let half = Number::from_units(1 << 35).expect(&rt, "small");
    let two = Number::from_units(2 << 36).expect(&rt, "small");
    for (units, halved) in [(1, 1), (-1, -1), (3, 2), (-3, -2), (4, 2), (0, 0)] {
        let number = Number::from_units(units).expect(&rt, "small");
        let product = rmul(number, half).expect(&rt, "small");
        assert_eq!(rt; product.units(), halved, "half of {units} units");
        let quotient = rdiv(number, two).expect(&rt, "small");
        assert_eq!(rt; quotient.units(), halved, "{units} units by 2");
    }
    // the root of 2 is 1.41421356237.. = 97184015999.. units
    assert_eq!(rt; root(two).units(), 97184015999);
}

#[test]
fn copies_are_equal(rt: HostRuntime) -> Result<(), Fail> {
    let alloc = rt.alloc();
    let cell = Number::from_units(7).expect(&rt, "small");
    let matrix = Mat {
        rows: 1,
        cols: 2,
        cells: Items::of(vec![in alloc; cell, Number::zero()]?),
    };
    let copy = matrix.copy(alloc)?;
    assert_eq!(rt; (copy.rows, copy.cols), (1, 2));
    assert_eq!(rt; copy.cells.as_slice(), matrix.cells.as_slice());
    let spans = SpanMat {
        rows: 1,
        cols: 1,
        cells: Items::of(vec![in alloc; span(&rt, -1, 1)]?),
    };
    assert_eq!(rt; spans.copy(alloc)?.cells.as_slice(), spans.cells.as_slice());
    let text = Text::of(String::from_str(alloc, "plate")?);
    assert_eq!(rt; text.copy(alloc)?.as_str(), "plate");
    Ok(())
}

#[test]
#[tactic(auto, using(sk_num::specs::Scale::scale_facts))]
fn quantities_are_read_and_written(rt: HostRuntime) {
    let moved = Grid::<36>::from_units(-(1 << 28) - (1 << 16));
    let text = b"-0.00390720367431640625";
    assert!(rt; read_quantity::<36>(text).ok() == moved);
    if let Some(g) = moved {
        let written = quantity_text::<36>(g);
        assert!(rt; &written.bytes[..usize::from(written.len)] == text.as_slice());
    }
    assert!(rt; read_quantity::<36>(b"67108864").ok() == Grid::from_units(1 << 62));
    assert!(rt; read_quantity::<36>(b"67108864.00000000001") == Err(NumFault::OutOfGrid));
    for bad in [b"".as_slice(), b"-", b"3.", b".5", b"1e3", b"+1", b"--1"] {
        assert!(rt; read_quantity::<36>(bad) == Err(NumFault::BadNumber));
    }
    assert!(rt; read_handle(b"8002000A") == Ok(0x8002_000a));
    assert!(rt; handle_text(0x8002_000a) == *b"8002000a");
    assert!(rt; read_whole(b"-2147483648") == Ok(i32::MIN));
    assert!(rt; read_whole(b"2147483648") == Err(NumFault::OutOfGrid));
}
