//! Numbers at another count of places.
ghost use Rattle.std.specs.Prelude.{◌≡◌, ◌^◌, ◌<◌, ℤ, pos, ◌*ℤ◌, SomeIff, IfSome, IfNone, FitsSigned};
ghost use Rattle.std.specs.Int.{w128};

/// The units of a number with so many places more; `None` where they pass 128 bits.
pub(crate) fn raised(units: i128, more: u8) -> Option<i128>
    ensures { SomeIff result (FitsSigned w128 (units *ℤ pos (10 ^ more))) (units *ℤ pos (10 ^ more)) }
{
    if more == 0 {
        return Some(units);
    }
    match units.checked_mul(10) {
        Some(tenfold) => raised(tenfold, more - 1),
        None => None,
    }
}

/// The units of a number with so many places less; `None` where another digit than 0 stands there.
pub(crate) fn lowered(units: i128, fewer: u8) -> Option<i128>
    ensures some { IfSome result (λ rest. rest *ℤ pos (10 ^ fewer) ≡ units) }
    ensures none { IfNone result ((rest : ℤ) → ¬ (rest *ℤ pos (10 ^ fewer) ≡ units)) }
{
    if fewer == 0 {
        return Some(units);
    }
    if units % 10 != 0 {
        return None;
    }
    lowered(units / 10, fewer - 1)
}
