//! The text that the program prints for the line `help`.

/// The forms that a line of the input can have. The first word of each form is the name of the
/// command.
pub static FORMS: [&str; 28] = [
    "help",
    "new",
    "items",
    "push ITEM",
    "pop",
    "insert INDEX ITEM",
    "remove INDEX",
    "swap_remove INDEX",
    "set INDEX ITEM",
    "truncate LENGTH",
    "clear",
    "reserve COUNT",
    "reserve_exact COUNT",
    "shrink_to_fit",
    "resize LENGTH ITEM",
    "extend_from_slice ITEM ..",
    "extend HINT ITEM ..",
    "append ITEM ..",
    "split_off INDEX",
    "clone",
    "retain DIVISOR STRIDE ADDED",
    "retain_mut DIVISOR STRIDE ADDED",
    "dedup",
    "dedup_by DIVISOR STRIDE ADDED",
    "dedup_by_key DIVISOR STRIDE ADDED",
    "drain START END STEPS",
    "extract_if START END CALLS DIVISOR STRIDE ADDED",
    "splice START END STEPS HINT ITEM ..",
];

/// Notes that explain the words in capital letters in `FORMS`.
pub static NOTES: [&str; 11] = [
    "All numbers are from 0 to 18446744073709551615.",
    "STEPS is `-`, or a word of the letters `f` (a call of `next`) and `b` (of `next_back`).",
    "CALLS is the number of calls of `next`.",
    "HINT is the lower bound of the iterator's size hint.",
    "DIVISOR, STRIDE and ADDED describe a closure. Call k, from 0, computes n = item + k * STRIDE.",
    "It returns n / DIVISOR for `dedup_by_key`, n % DIVISOR == kept % DIVISOR for `dedup_by`, and",
    "n % DIVISOR == 0 otherwise. It then adds ADDED to each item that it may change, which are all",
    "but those of `retain`. Sums are modulo 2^64.",
    "All lines are read, and kept in memory, before the first command is carried out.",
    "A reply takes 16 bytes of memory for each call of `next` and `next_back`.",
    "`rt try` gives no answer after 60 seconds, or past 1 MiB of output; `rt run` has no limits.",
];

/// Returns the form in `FORMS` whose first word is `name`, or `None` if there is no such form.
pub fn form_of(name: &str) -> Option<&'static str> {
    for form in &FORMS {
        if form.split_whitespace().next() == Some(name) {
            return Some(form);
        }
    }
    None
}
