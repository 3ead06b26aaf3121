//! The trait `IntoInner`, through which `Drain`, `ExtractIf` and `Splice` own the block of a list.
//!
//! The contract of a `drop` cannot say how a list behind a `&mut` field changes if another field
//! has a raw pointer, as a block has. A type parameter with the bound `IntoInner` hides the
//! pointer.
ghost use Rattle.std.specs.Prelude.{◌≡◌};

/// A trait for types whose values contain exactly one inner value.
pub trait IntoInner {
    type Inner;

    ghost inner: { Self → Self.Inner };

    /// Returns the inner value, which the caller then owns.
    fn into_inner(self) -> Self::Inner
        ensures value { result ≡ inner self };
}

/// The only type of this crate that implements `IntoInner`, and the default of the type parameter
/// `H` of `Drain`, `ExtractIf` and `Splice`.
pub struct Holder<B> {
    pub(crate) value: B,
}

impl<B> IntoInner for Holder<B> {
    type Inner = B;

    ghost inner = { λ holder. holder.value };

    fn into_inner(self) -> B {
        let Holder { value } = self;
        value
    }
}
