//! Numbers and decimals of fields, of any size.
use crate::rows::had;
use crate::tables::{Kind, try_rows};
use std::alloc::Global;
use std::process::Abort;
use text_fields::{decimal_of, is_number, number_of};

/// Fields, and their numbers.
const NUMBERS: &str = "0 => 0
007 => 7
18446744073709551614 => 18446744073709551614
18446744073709551615 => 18446744073709551615
18446744073709551616 => 18446744073709551615
99999999999999999999999999999999999999999999999999 => 18446744073709551615
00000000000000000000000000000000000018 => 18
 => none
+7 => none
-7 => none
7.0 => none
7\x00 => none";

/// Fields, and the millionths and the wholes of each, both rounded up.
const DECIMALS: &str = "0 => 0 0
0.0 => 0 0
1 => 1000000 1
6.25 => 6250000 7
007.500000000 => 7500000 8
0.0000001 => 1 1
0.1234567 => 123457 1
0.9999999 => 1000000 1
1099511627776.000001 => 1099511627776000001 1099511627777
18446744073709.551616 => 18446744073709551615 18446744073710
18446744073709551616.5 => 18446744073709551615 18446744073709551615
 => none
. => none
1. => none
.5 => none
1:1. => none
1.2.3 => none
1.0E-5 => none
-1.5 => none";

/// The number that a field is.
pub(crate) fn number_told(rt: &impl Abort, alloc: Global, field: &[u8]) -> String {
    let number = number_of(field);
    assert!(rt; is_number(field) == number.is_some());
    match number {
        Some(number) => had(rt, format!(in alloc; "{number}")),
        None => had(rt, String::from_str(alloc, "none")),
    }
}

/// The decimal that a field is.
pub(crate) fn decimal_told(rt: &impl Abort, alloc: Global, field: &[u8]) -> String {
    match decimal_of(field) {
        Some(decimal) => {
            let (millionths, wholes) = (decimal.millionths, decimal.wholes);
            had(rt, format!(in alloc; "{millionths} {wholes}"))
        }
        None => had(rt, String::from_str(alloc, "none")),
    }
}

#[test]
fn numbers_of_fields(rt: HostRuntime) {
    try_rows(&rt, rt.alloc(), Kind::Numbers, NUMBERS);
}

#[test]
fn decimals_of_fields(rt: HostRuntime) {
    try_rows(&rt, rt.alloc(), Kind::Decimals, DECIMALS);
}
