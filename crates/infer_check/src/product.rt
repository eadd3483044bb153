//! The two parts of a product.

/// The two parts of a product.
#[derive(Drop)]
pub struct Product<T> {
    pub domain: T,
    /// Over the variable that the product binds.
    pub codomain: T,
}
