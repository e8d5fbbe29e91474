ghost use Rattle.sk_num.specs.Scale.{IsScale};

use sk_cosine::cosine;
use sk_num::Grid;

/// The ends of the cosine of whole degrees, in units; None past a turn.
fn ends<const S: u32>(degrees: i16) -> Option<(i64, i64)>
    requires { IsScale S }
{
    match cosine(Grid::<S>::whole(degrees)) {
        Ok(c) => Some((c.lo().units(), c.hi().units())),
        Err(_) => None,
    }
}

// a half at 60 degrees, 0 at 90, 1 at none and at a turn, and all of them at both scales
#[test]
#[tactic(auto, using(sk_num::specs::Scale::scale_facts))]
fn worked_angles(rt: HostRuntime) {
    let (half, one) = (1i64 << 35, 1i64 << 36);
    for (degrees, wanted) in [
        (0, Some((one, one))),
        (60, Some((half - 1, half + 1))),
        (-120, Some((-half - 1, -half + 1))),
        (90, Some((-1, 1))),
        (180, Some((-one, -one))),
        (361, None),
    ] {
        assert_eq!(rt; ends::<36>(degrees), wanted, "{degrees} degrees");
    }
    let (half, one) = (1i64 << 43, 1i64 << 44);
    for (degrees, wanted) in [
        (60, Some((half - 1, half + 1))),
        (270, Some((-1, 1))),
        (360, Some((one, one))),
        (-361, None),
    ] {
        assert_eq!(rt; ends::<44>(degrees), wanted, "{degrees} degrees, finer");
    }
}
