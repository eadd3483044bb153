//! The two parts of a product.
use dk_model::Term;

/// The two parts of a product.
#[derive(Drop)]
pub struct Product {
    pub domain: Term,
    /// Over the variable that the product binds.
    pub codomain: Term,
}
