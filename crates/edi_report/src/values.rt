//! A value for each record.

ghost use Rattle.std.specs.Prelude.{◌≡◌, ◌<◌, ℕ, IfOk, map};
ghost use Rattle.std.specs.List.{range_with_len};
ghost use Rattle.edi_report.specs.Values.{AreValuesOf};

use std::alloc::{AllocError, Global};

/// What is given for each of so many places, from 0 on.
pub fn values_of_places<T: Drop, F: Fn(u32) -> T>(
    alloc: Global,
    count: u32,
    value: F,
) -> Result<Vec<T>, AllocError>
    requires { (place : ℕ) → place < count → F.pre value place }
    ensures { (f : ℕ → T) → AreValuesOf (F.post value) f count
        → IfOk result (λ values. values.items ≡ map f (range_with_len 0 count)) }
{
    let mut values = Vec::new(alloc);
    for place in 0..count {
        values.push(value(place))?;
    }
    Ok(values)
}
