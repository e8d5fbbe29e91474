ghost use Rattle.sk_num.specs.Scale.{scale_facts};

use sk_matrix::{product, product_right};
use sk_num::{Grid, Items, Mat, Span, SpanMat};
use std::process::Abort;
use std::test::Fail;

type Number = Grid<36>;

fn number(rt: &impl Abort, whole: i16) -> Number {
    Number::from_units(i64::from(whole) << 36).expect(rt, "in the limit")
}

fn span(rt: &impl Abort, lo: i16, hi: i16) -> Span<36> {
    let (lo, hi) = (number(rt, lo), number(rt, hi));
    assert!(rt; lo <= hi);
    Span::new(lo, hi)
}

// [1 0; 2 3] and [[1,2] 0; [-1,1] 4]
#[test]
#[tactic(auto, using(sk_num::specs::Scale::scale_facts))]
fn products_of_two_rows(rt: HostRuntime) -> Result<(), Fail> {
    let alloc = rt.alloc();
    let numbers = Mat {
        rows: 2,
        cols: 2,
        cells: Items::of(vec![in alloc;
            number(&rt, 1),
            number(&rt, 0),
            number(&rt, 2),
            number(&rt, 3),
        ]?),
    };
    let spans = SpanMat {
        rows: 2,
        cols: 2,
        cells: Items::of(vec![in alloc;
            span(&rt, 1, 2),
            span(&rt, 0, 0),
            span(&rt, -1, 1),
            span(&rt, 4, 4),
        ]?),
    };
    if let Ok(left) = product(alloc, &numbers, &spans) {
        let cells = vec![in alloc;
            span(&rt, 1, 2),
            span(&rt, 0, 0),
            span(&rt, -1, 7),
            span(&rt, 12, 12),
        ]?;
        assert_eq!(rt; left.cells.as_slice(), cells.as_slice());
    } else {
        assert!(rt; false);
    }
    if let Ok(right) = product_right(alloc, &spans, &numbers) {
        let cells = vec![in alloc;
            span(&rt, 1, 2),
            span(&rt, 0, 0),
            span(&rt, 7, 9),
            span(&rt, 12, 12),
        ]?;
        assert_eq!(rt; right.cells.as_slice(), cells.as_slice());
    } else {
        assert!(rt; false);
    }
    Ok(())
}
