use sk_elim::{Pivot, eliminate};
use sk_num::{Grid, Items, Span, SpanMat};
use std::process::Abort;
use std::test::Fail;

fn number(rt: &impl Abort, whole: i16) -> Grid<36> {
    Grid::from_units(i64::from(whole) << 36).expect(rt, "in the limit")
}

fn slope(rt: &impl Abort, whole: i16) -> Span<36> {
    let end = number(rt, whole);
    Span::new(end, end)
}

// two points 5 apart: the slopes -6 and -8 of the one, 6 and 8 of the other, and an inverse of -1/8
#[test]
#[tactic(auto, using(sk_num::specs::Scale::scale_facts))]
fn two_points_5_apart(rt: HostRuntime) -> Result<(), Fail> {
    let alloc = rt.alloc();
    let slopes = SpanMat {
        rows: 1,
        cols: 4,
        cells: Items::of(vec![in alloc;
            slope(&rt, -6),
            slope(&rt, -8),
            slope(&rt, 6),
            slope(&rt, 8),
        ]?),
    };
    match eliminate(alloc, &slopes, &[], 4) {
        Ok(elim) => {
            assert_eq!(rt;
                elim.pivots.as_slice(),
                [Pivot { row: 0, column: 1 }].as_slice()
            );
            assert_eq!(rt; elim.held.as_slice(), [0, 2, 3].as_slice());
            assert!(rt; elim.suspects.as_slice().is_empty());
            let inverse = Grid::from_units(-(1 << 33)).expect(&rt, "small");
            assert_eq!(rt; elim.inverse.cells.as_slice(), [inverse].as_slice());
        }
        Err(_) => assert!(rt; false),
    }
    Ok(())
}
