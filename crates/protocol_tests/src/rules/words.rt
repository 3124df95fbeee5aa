// Orders and values as words of a run's table.

use dbp_rules::{Order, value_from_word, value_to_word};
use std::process::Abort;

// An order's slot is in the low 32 bits of its word.
static ORDERS: &[(Order, u64)] = &[
    (Order { slot: 0, number: 0 }, 0),
    (Order { slot: 3, number: 0 }, 3),
    (Order { slot: 3, number: 5 }, 21_474_836_483),
    (
        Order {
            slot: 4_294_967_295,
            number: 4_294_967_295,
        },
        18_446_744_073_709_551_615,
    ),
];

#[test]
fn orders_are_words(rt: HostRuntime) {
    for (order, word) in ORDERS {
        assert_eq!(rt; order.to_word(), *word);
        assert_eq!(rt; Order::from_word(*word), *order);
    }
}

// Values below 0 count down from 2^64.
static VALUES: &[(i64, u64)] = &[
    (0, 0),
    (7, 7),
    (9_223_372_036_854_775_807, 9_223_372_036_854_775_807),
    (-1, 18_446_744_073_709_551_615),
    (-9_223_372_036_854_775_808, 9_223_372_036_854_775_808),
];

#[test]
fn values_are_words(rt: HostRuntime) {
    for (value, word) in VALUES {
        assert_eq!(rt; value_to_word(*value), *word);
        assert_eq!(rt; value_from_word(*word), *value);
    }
}
