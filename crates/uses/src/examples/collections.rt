//! The examples of the collections' documentation. An example at a call has lines of one of these
//! functions, in their order.

mod bimaps;
mod maps;
mod non_empty;
mod sets;
mod value_maps;
