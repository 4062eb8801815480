//! What is dropped where a call fails.

/// The value of a call. Where it fails, what is held is dropped, and the function ends with its fault, as by `?`.
#[macro_export]
macro_rules! or_drop {
    ($call:expr, $($held:ident),+) => {
        match $call {
            Ok(value) => value,
            Err(fault) => {
                $(drop($held);)+
                return Err(From::from(fault));
            }
        }
    };
}
