//! Numbers on a binary grid, spans of them, and what evaluation over either encloses.
//!
//! A grid number counts units of 2^-S millimetre (or 2^-S of a plain number), at most 2^62 either
//! way. A span is the numbers between two grid numbers; its operations round outward, so that it
//! encloses every exact result. `Kernel` is the trait of numbers that enclose: what is evaluated
//! over it encloses the exact value. `S`, the scale, is 36 or 44.
//!
//! Beneath stand numbers as digits (`decimal`, `numeral`) and the laws of whole numbers: `Whole`
//! (the ordered ring), `Division` (quotients rounded down, up and to the nearest) and `Sums`
//! (finite sums by index) in `specs/`.
#![tactic(auto)]

mod decimal;
mod divisor;
mod draft;
mod fault;
mod grid;
mod items;
mod kernel;
mod mat;
mod numeral;
mod roots;
mod rounding;
mod span;
mod spelling;
mod whole_laws;

pub use decimal::{Decimal, decimal_text, read_decimal};
pub use divisor::Divisor;
pub use fault::{NumFault, PastLimit};
pub use grid::Grid;
pub use items::{Items, Text};
pub use kernel::{Kernel, OfGrid};
pub use mat::{Mat, SpanMat};
pub use numeral::{hexadecimal_text, read_numeral};
pub use roots::{isqrt_ceil, isqrt_floor, root};
pub use rounding::{rdiv, rmul, rmul_small};
pub use span::Span;
pub use spelling::{
    QuantityText, handle_text, quantity_law, quantity_text, read_handle, read_quantity, read_whole,
};
pub use std::alloc::AllocError as NoMemory;
pub use whole_laws::{division_laws, order_laws, product_laws, sum_laws};
