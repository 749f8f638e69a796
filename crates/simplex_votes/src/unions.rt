//! How a value of one type becomes one of a union.

/// The variant of a union with the value of a result, or the result's error: `result.map(variant)`, written as a match.
/// In a function with an arm for each variant the prover is much quicker with it than with a `?` in each.
#[macro_export]
macro_rules! map_ok {
    ($result:expr, $variant:path) => {
        match $result {
            Ok(value) => Ok($variant(value)),
            Err(error) => Err(error),
        }
    };
}
