//! Products: Section 4 of edition 2.
#![tactic(auto)]

pub mod laws;
mod lists;
mod opaque;
mod product;
mod reading;
mod rules;
mod templates;
mod writing;

pub use grib_base::ReadFault as ProductFault;
pub use opaque::{check_product_under, is_opaque_product};
pub use product::{Product, ProductSection};
pub use reading::{product_of, read_product};
pub use rules::check_product;
pub use templates::{Ensemble, Instant, Interval, Spec};
pub use writing::write_product;
