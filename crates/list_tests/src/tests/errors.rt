//! Tests of the errors of `thin_vec`: their texts, and that `?` drops what they hold.
use crate::check;
use crate::checks::leaked_ledger;
use crate::lists::counted_list;
use crate::texts::prints_as;
use std::alloc::AllocError;
use std::error::Error;
use std::fmt::{self, Debug};
use std::io;
use std::process::Abort;
use thin_testing::{Counted, Ledger};
use thin_vec::{CollectRefused, ExtendRefused, Rejected, SpliceRefused, ThinVecError};

#[test]
fn errors_print_their_texts(rt: HostRuntime) {
    for (error, text) in [
        (ThinVecError::CapacityOverflow, "capacity overflow"),
        (ThinVecError::OutOfMemory, "out of memory"),
    ] {
        let printed = check!(rt; format!(in rt.alloc(); "{error}"));
        check!(rt; same(printed.as_str(), text));
    }
    check!(rt; same(ThinVecError::from(AllocError), ThinVecError::OutOfMemory));
}

// An error of the given name and cause, which is printed as an error of `thin_vec` should be.
#[derive(Drop)]
struct Named<'a> {
    name: &'a str,
    cause: ThinVecError,
}

impl Debug for Named<'_> {
    fn fmt<W: fmt::Write>(&self, f: &mut fmt::Formatter<W>) -> fmt::Result {
        f.debug_struct(self.name)
            .field("cause", &self.cause)
            .finish_non_exhaustive()
    }
}

// Converts the error with `?`, and returns the new error.
fn convert<R, E: From<R>>(refused: R) -> Result<(), E> {
    Err(refused)?;
    Ok(())
}

// Asserts that an error prints its cause, and its name and cause as its debug text. Also asserts
// that `?` drops the `held` items of the error, and makes an error with the debug text
// `converted`.
fn assert_error<E: From<R> + Debug + Drop, R: Error>(
    rt: &impl Abort,
    ledger: &Ledger,
    refused: R,
    named: Named<'_>,
    held: u64,
    converted: &str,
) {
    let printed = check!(rt; format!(in ledger.global; "{refused}"));
    let wanted = check!(rt; format!(in ledger.global; "{}", named.cause));
    check!(rt; same(printed, wanted));
    check!(rt; prints_as(ledger.global, &refused, &named));
    check!(rt; same(ledger.live.get(), held));
    let error = check!(rt; convert::<R, E>(refused).err());
    check!(rt; same(ledger.live.get(), 0));
    let printed = check!(rt; format!(in ledger.global; "{error:?}"));
    check!(rt; same(printed.as_str(), converted));
}

// Makes an item if `is_there` is true.
fn in_hand<'a>(ledger: &'a Ledger, is_there: bool) -> Option<Counted<'a>> {
    if is_there {
        return Some(Counted::new(ledger, 1, ()));
    }
    None
}

// Makes an error that holds an item in hand, or else a list of one item.
fn collect_refused<'a>(
    ledger: &'a Ledger,
    cause: ThinVecError,
    is_in_hand: bool,
) -> Result<CollectRefused<Counted<'a>, Counted<'a>>, ThinVecError> {
    Ok(CollectRefused {
        list: counted_list(ledger, ledger.global, u64::from(!is_in_hand))?,
        cause,
        in_hand: in_hand(ledger, is_in_hand),
        rest: Counted::new(ledger, 5, ()),
    })
}

// Makes an error that holds an item in hand, or else one that was held back.
fn splice_refused<'a>(
    ledger: &'a Ledger,
    cause: ThinVecError,
    is_in_hand: bool,
) -> Result<SpliceRefused<Counted<'a>, Counted<'a>>, ThinVecError> {
    let held = counted_list(ledger, ledger.global, u64::from(!is_in_hand))?;
    Ok(SpliceRefused {
        cause,
        held: held.into_vec(ledger.global)?,
        in_hand: in_hand(ledger, is_in_hand),
        rest: Counted::new(ledger, 6, ()),
    })
}

// Tries an error of each of the four types.
fn assert_errors<'a, E>(
    rt: &impl Abort,
    ledger: &'a Ledger,
    cause: ThinVecError,
    is_in_hand: bool,
    converted: &str,
)
where
    E: From<Rejected<Counted<'a>>>
        + From<ExtendRefused<Counted<'a>, Counted<'a>>>
        + From<CollectRefused<Counted<'a>, Counted<'a>>>
        + From<SpliceRefused<Counted<'a>, Counted<'a>>>
        + Debug
        + Drop,
{
    let value = Counted::new(ledger, 1, ());
    let (refused, name) = (Rejected { value, cause }, "Rejected");
    assert_error::<E, _>(rt, ledger, refused, Named { name, cause }, 1, converted);
    let refused = ExtendRefused {
        cause,
        in_hand: in_hand(ledger, is_in_hand),
        rest: Counted::new(ledger, 2, ()),
    };
    let (name, held) = ("ExtendRefused", u64::from(is_in_hand).wrapping_add(1));
    assert_error::<E, _>(rt, ledger, refused, Named { name, cause }, held, converted);
    let refused = check!(rt; collect_refused(ledger, cause, is_in_hand));
    let name = "CollectRefused";
    assert_error::<E, _>(rt, ledger, refused, Named { name, cause }, 2, converted);
    let refused = check!(rt; splice_refused(ledger, cause, is_in_hand));
    let name = "SpliceRefused";
    assert_error::<E, _>(rt, ledger, refused, Named { name, cause }, 2, converted);
}

// The causes, and their debug texts.
const CAUSES: [(ThinVecError, &'static str); 2] = [
    (ThinVecError::OutOfMemory, "OutOfMemory"),
    (ThinVecError::CapacityOverflow, "CapacityOverflow"),
];

#[test]
fn converting_to_thin_vec_error_drops_the_refusal(rt: HostRuntime) {
    let ledger = leaked_ledger(&rt, rt.alloc());
    for (cause, text) in CAUSES {
        assert_errors::<ThinVecError>(&rt, ledger, cause, false, text);
        assert_errors::<ThinVecError>(&rt, ledger, cause, true, text);
    }
}

#[test]
fn converting_to_alloc_error_drops_the_refusal(rt: HostRuntime) {
    let ledger = leaked_ledger(&rt, rt.alloc());
    for (cause, _text) in CAUSES {
        assert_errors::<AllocError>(&rt, ledger, cause, false, "AllocError");
        assert_errors::<AllocError>(&rt, ledger, cause, true, "AllocError");
    }
}

#[test]
fn converting_to_io_error_drops_the_refusal(rt: HostRuntime) {
    let ledger = leaked_ledger(&rt, rt.alloc());
    for (cause, _text) in CAUSES {
        assert_errors::<io::Error>(&rt, ledger, cause, false, "Kind(OutOfMemory)");
        assert_errors::<io::Error>(&rt, ledger, cause, true, "Kind(OutOfMemory)");
    }
}
