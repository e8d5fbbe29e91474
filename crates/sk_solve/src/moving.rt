// Newton's step.
ghost use Rattle.std.specs.Prelude.{◌≡◌, length, Some, None, MatchResult};
ghost use Rattle.sk_solve.specs.Search.{less_at, moved};

use sk_num::{Grid, PastLimit};

fn lessen<const S: u32>(point: &mut Vec<Grid<S>>, column: u16, by: Grid<S>) -> Result<(), PastLimit>
    ensures value { MatchResult result (λ u. less_at column by.entry point.old.items ≡ Some point.new.items) (λ e. less_at column by.entry point.old.items ≡ None) }
    ensures size { length point.new.items ≡ length point.old.items }
{
    let column = column as usize;
    if column >= point.len() {
        return Ok(());
    }
    match Grid::of_wide(point[column].units() as i128 - by.units() as i128) {
        None => Err(PastLimit),
        Some(number) => {
            point[column] = number;
            Ok(())
        }
    }
}

/// Takes the step from the numbers in the solved columns. After PastLimit some of them have moved.
pub(crate) fn step_back<const S: u32>(
    point: &mut Vec<Grid<S>>,
    solved: &[u16],
    step: &[Grid<S>],
) -> Result<(), PastLimit>
    ensures value { MatchResult result (λ u. moved solved.now step.now point.old.items ≡ Some point.new.items) (λ e. moved solved.now step.now point.old.items ≡ None) }
    ensures size { length point.new.items ≡ length point.old.items }
{
    for i in 0..solved.len() {
        if i >= step.len() {
            return Ok(());
        }
        lessen(point, solved[i], step[i])?;
    }
    Ok(())
}
