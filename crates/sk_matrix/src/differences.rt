ghost use Rattle.std.specs.Prelude.{◌≡◌, ◌≢◌, ◌⊎◌, ℕ, pos, ◌+◌, ◌*◌, ◌^◌, ◌*ℤ◌, ◌<◌, ◌≤◌, length, slice_get, Some, None, MatchOption, MatchResult};
ghost use Rattle.sk_num.specs.Sums.{unit_at};
ghost use Rattle.sk_num.specs.Scale.{IsScale};
ghost use Rattle.sk_num.specs.Ends.{point, span_sub};
ghost use Rattle.sk_matrix.specs.Cells.{span_cell};
ghost use Rattle.sk_matrix.specs.Matrix.{of_both, one_less};

use sk_num::{Grid, Items, PastLimit, Span, SpanMat};

/// A cell of the identity.
fn unit<const S: u32>(i: u16, k: u16) -> Span<S>
    requires { IsScale S }
    ensures { result ≡ point (unit_at i k *ℤ pos (2 ^ S)) }
{
    if i == k {
        Span::new(Grid::one(), Grid::one())
    } else {
        Span::new(Grid::zero(), Grid::zero())
    }
}

/// Takes the cell at a place from another.
fn less_cell<const S: u32>(cells: &mut Items<Span<S>>, place: usize, from: &Span<S>) -> Option<()>
    requires { place < length cells.old }
    ensures same_size { length cells.new ≡ length cells.old }
    ensures value { MatchOption result
        (of_both span_sub (Some from.now) (slice_get cells.old place) ≡ None)
        (λ u. of_both span_sub (Some from.now) (slice_get cells.old place) ≡ slice_get cells.new place) }
    ensures others { (k : ℕ) → k ≢ place → slice_get cells.new k ≡ slice_get cells.old k }
{
    let Some(cell) = from.sub(&cells.as_slice()[place]) else {
        return None;
    };
    cells.put(place, cell);
    Some(())
}

/// Takes a row from that of the identity.
fn less_row<const S: u32>(cells: &mut Items<Span<S>>, n: u16, row: u16) -> Option<()>
    requires scale { IsScale S }
    requires inside { row * n + n ≤ length cells.old }
    ensures same_size { length cells.new ≡ length cells.old }
    ensures value { MatchOption result
        ((j : ℕ) × (j < n) × (one_less S (span_cell n cells.old) row j ≡ None))
        (λ u. (j : ℕ) → j < n → one_less S (span_cell n cells.old) row j ≡ span_cell n cells.new row j) }
    ensures others { (k : ℕ) → (k < row * n) ⊎ (row * n + n ≤ k) → slice_get cells.new k ≡ slice_get cells.old k }
{
    for col in 0..n {
        match less_cell(
            cells,
            row as usize * n as usize + col as usize,
            &unit(row, col),
        ) {
            None => return None,
            Some(()) => (),
        }
    }
    Some(())
}

/// I - m, in the place of m. After PastLimit the cells say nothing.
pub fn one_less<const S: u32>(m: &mut SpanMat<S>) -> Result<(), PastLimit>
    requires scale { IsScale S }
    requires size { length m.old.cells ≡ m.old.rows * m.old.cols }
    requires square { m.old.rows ≡ m.old.cols }
    ensures { MatchResult result
        (λ u. (m.new.rows ≡ m.old.rows) × (m.new.cols ≡ m.old.cols) × (length m.new.cells ≡ length m.old.cells)
        × ((i j : ℕ) → i < m.old.rows → j < m.old.cols → one_less S (span_cell m.old.cols m.old.cells) i j ≡ span_cell m.old.cols m.new.cells i j))
        (λ e. (i : ℕ) × (j : ℕ) × (i < m.old.rows) × (j < m.old.cols) × (one_less S (span_cell m.old.cols m.old.cells) i j ≡ None)) }
{
    let n = m.cols;
    for row in 0..n {
        match less_row(&mut m.cells, n, row) {
            None => return Err(PastLimit),
            Some(()) => (),
        }
    }
    Ok(())
}
