ghost use Rattle.std.specs.Prelude.{◌≡◌, ◌-ℤ◌, ◌↔◌, IsOk, IfOk, FitsSigned};
ghost use Rattle.std.specs.Int.{int_min, int_max, w32};
ghost use Rattle.item_geometry.specs.Span.{end_of, union_of};

/// What an item takes of one axis, in pixels: it begins at `at` and ends at the sum of `at` and `len`,
/// which need not be an `i32`. A length below 0 ends it before it begins.
#[derive(Clone, Copy, PartialEq, Eq)]
pub struct Span1 {
    /// Where it begins, in pixels.
    pub at: i32,
    /// Its length, in pixels.
    pub len: i32,
}

/// The length of a span is no `i32`.
#[derive(Clone, Copy, PartialEq, Eq)]
pub struct Overflow;

/// Where a span ends, in pixels.
fn end(span: Span1) -> i64
    ensures { result ≡ end_of span }
{
    i64::from(span.at) + i64::from(span.len)
}

/// The span from where the first of the two begins, which is its place `at`, to where the last of them
/// ends. `Overflow` says that its length is no `i32`; its place always is one.
pub fn union(a: Span1, b: Span1) -> Result<Span1, Overflow>
    ensures answer { result ≡ union_of a b }

    // The same by its parts.
    ensures begins { IfOk result (λ both. both.at ≡ int_min a.at b.at) }
    ensures ends { IfOk result (λ both. end_of both ≡ int_max (end_of a) (end_of b)) }
    ensures fits { IsOk result
        ↔ FitsSigned w32 (int_max (end_of a) (end_of b) -ℤ int_min a.at b.at) }
{
    let at = a.at.min(b.at);
    let len = end(a).max(end(b)) - i64::from(at);
    match i32::try_from(len) {
        Ok(len) => Ok(Span1 { at, len }),
        Err(_) => Err(Overflow),
    }
}
